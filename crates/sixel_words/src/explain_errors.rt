//! The usage error of `explain` for a word that is no name.

ghost use Rattle.std.specs.Prelude.{◌≡◌, IfOk};
ghost use Rattle.clap.specs.Values.{kind_of};

use clap::Error;
use clap::error::ErrorKind;
use sixel_commands::unnamed_error;
use sixel_explain::{nearest, topics_asked};
use sixel_printing::printed;
use std::alloc::{AllocError, Global};

/// A usage error of `explain`: a word is no name. For a misspelled name it has a tip.
pub fn explain_error(alloc: Global, said: &[&str]) -> Result<Error, AllocError>
    ensures { IfOk result (λ e. kind_of e ≡ ErrorKind.ValueValidation) }
{
    let reason = unnamed_reason(alloc, said)?;
    unnamed_error(alloc, reason.as_str())
}

fn unnamed_reason(alloc: Global, said: &[&str]) -> Result<String, AllocError> {
    let word = first_unnamed(alloc, said)?;
    let name = printed(alloc, word)?;
    let unnamed = format!(in alloc;
        "no rule or refusal has the name '{name}'; 'sixel explain' lists the names"
    )?;
    match nearest(alloc, word)? {
        Some(name) => { format!(in alloc; "{unnamed}\n\n  tip: a similar name exists: '{name}'") }
        None => Ok(unnamed),
    }
}

/// The first word that is no name.
fn first_unnamed<'a>(alloc: Global, said: &[&'a str]) -> Result<&'a str, AllocError> {
    for word in said {
        if topics_asked(alloc, &[*word])?.is_none() {
            return Ok(*word);
        }
    }
    Ok("")
}
