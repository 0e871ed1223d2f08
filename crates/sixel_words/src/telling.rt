//! What the program does if its arguments name no task.

ghost use Rattle.std.specs.Prelude.{◌≡◌, ◌∷◌, ◌++◌, IfOk, OnOk, Some, codes, true};
ghost use Rattle.std.specs.String.{string_bytes};
ghost use Rattle.sixel_io.specs.Devices.{CountsFailure, Puts, change};
ghost use Rattle.sixel_explain.specs.Explanations.{AreExplanations, AreFurther, IsExplanation};
ghost use Rattle.sixel_report.specs.Texts.{Text};
ghost use Rattle.sixel_printing.specs.Printing.{printed_lines};
ghost use Rattle.sixel_words.specs.Telling.{ExplanationEnds, IsShown, IsUsageSaid, IsUsageText, WordsEnd};

use crate::words::WordsFault;
use clap::Error;
use sixel_explain::{Topic, explanation};
use sixel_io::{DeviceFault, Sink, put_all};
use sixel_printing::printed_lines;
use sixel_report::{Exit, RunFault, write_fault};
use std::alloc::{AllocError, Global};

/// Ends a program whose arguments name no task: it shows the help or the explanations that were asked for, or
/// says what is wrong. Explanations that can't be written give `Refused`; any other text that can't be made or
/// written leaves the exit status as it is.
pub fn tell<K: Sink, E: Sink>(
    alloc: Global,
    fault: WordsFault,
    output: &mut K,
    errors: &mut E,
) -> Exit
    ensures { WordsEnd fault result
        (change (K.state output.old) (K.state output.new)) (change (E.state errors.old) (E.state errors.new)) }
{
    match fault {
        WordsFault::Help(text) => {
            show(alloc, &text, output);
            Exit::Done
        }
        WordsFault::Explanation(topics) => explain(topics.as_slice(), output, errors),
        WordsFault::Usage(text) => {
            say_usage(alloc, &text, errors);
            Exit::Usage
        }
        WordsFault::OutOfMemory => {
            let _ = write_fault(&RunFault::OutOfMemory, errors);
            Exit::Refused
        }
    }
}

/// Ends a program that was asked for these explanations.
fn explain<K: Sink, E: Sink>(topics: &[Topic], output: &mut K, errors: &mut E) -> Exit
    ensures { (text : Text) × AreExplanations topics.now text × ExplanationEnds text result
        (change (K.state output.old) (K.state output.new)) (change (E.state errors.old) (E.state errors.new)) }
{
    match write_explanations(topics, output) {
        Ok(()) => Exit::Done,
        Err(_) => {
            let _ = write_fault(&RunFault::Write, errors);
            Exit::Refused
        }
    }
}

/// What clap's text of a usage error begins with.
const ERROR: &str = "error: ";

/// Writes a usage error. Without enough memory to make its text, it writes that.
fn say_usage<E: Sink>(alloc: Global, error: &Error, errors: &mut E)
    ensures { IsUsageSaid (change (E.state errors.old) (E.state errors.new)) }
{
    match usage_text(alloc, error) {
        Ok(text) => {
            let _ = put_all(errors, text.as_bytes());
        }
        Err(_) => {
            let _ = write_fault(&RunFault::OutOfMemory, errors);
        }
    }
}

/// The text of a usage error. It begins with `sixel: `, like every other message, instead of clap's `error: `.
fn usage_text(alloc: Global, error: &Error) -> Result<String, AllocError>
    ensures { IfOk result (λ text. IsUsageText (string_bytes text)) }
{
    let told = format!(in alloc; "{error}")?;
    let told = told.as_str();
    message(alloc, told.strip_prefix(ERROR).unwrap_or(told))
}

/// A message of several lines: `sixel: `, and the text as it is printed.
fn message(alloc: Global, told: &str) -> Result<String, AllocError>
    ensures { IfOk result (λ text. string_bytes text ≡ codes "sixel: " ++ printed_lines told.now) }
{
    let printed = printed_lines(alloc, told)?;
    let mut text = String::from_str(alloc, "sixel: ")?;
    text.push_str(printed.as_str())?;
    Ok(text)
}

/// Writes a text of help, if there is enough memory to make it.
fn show<K: Sink>(alloc: Global, text: &Error, out: &mut K)
    ensures { IsShown (change (K.state out.old) (K.state out.new)) }
{
    if let Ok(text) = format!(in alloc; "{text}") {
        let _ = put_all(out, text.as_bytes());
    }
}

/// Writes the explanations, or on an `Err` a prefix of them, and flushes.
fn write_explanations<K: Sink>(topics: &[Topic], out: &mut K) -> Result<(), DeviceFault>
    ensures bytes { (text : Text) × AreExplanations topics.now text
        × Puts result (K.state out.old).taken (K.state out.new).taken text }
    ensures failures { CountsFailure result (K.state out.old).failures (K.state out.new).failures }
    ensures flushed { OnOk result ((K.state out.new).is_flushed ≡ true) }
{
    put_explanations(topics, out)?;
    out.flush()
}

/// Writes the explanations, or the list of names, or on an `Err` a prefix of them.
fn put_explanations<K: Sink>(topics: &[Topic], out: &mut K) -> Result<(), DeviceFault>
    ensures bytes { (text : Text) × AreExplanations topics.now text
        × Puts result (K.state out.old).taken (K.state out.new).taken text }
    ensures failures { CountsFailure result (K.state out.old).failures (K.state out.new).failures }
{
    match topics.split_first() {
        Some((first, more)) => {
            put_explanation(Some(*first), out)?;
            put_further(more, out)
        }
        None => put_explanation(None, out),
    }
}

/// Writes the explanations of more topics, each after an empty line, or on an `Err` a prefix of them.
fn put_further<K: Sink>(topics: &[Topic], out: &mut K) -> Result<(), DeviceFault>
    ensures bytes { (text : Text) × AreFurther topics.now text
        × Puts result (K.state out.old).taken (K.state out.new).taken text }
    ensures failures { CountsFailure result (K.state out.old).failures (K.state out.new).failures }
{
    for topic in topics {
        put_next(*topic, out)?;
    }
    Ok(())
}

/// Writes an empty line and an explanation, or on an `Err` a prefix of them.
fn put_next<K: Sink>(topic: Topic, out: &mut K) -> Result<(), DeviceFault>
    ensures bytes { (text : Text) × IsExplanation (Some topic) text
        × Puts result (K.state out.old).taken (K.state out.new).taken (10 ∷ text) }
    ensures failures { CountsFailure result (K.state out.old).failures (K.state out.new).failures }
{
    put_all(out, b"\n")?;
    put_explanation(Some(topic), out)
}

/// Writes an explanation, or on an `Err` a prefix of it.
fn put_explanation<K: Sink>(topic: Option<Topic>, out: &mut K) -> Result<(), DeviceFault>
    ensures bytes { (text : Text) × IsExplanation topic text
        × Puts result (K.state out.old).taken (K.state out.new).taken text }
    ensures failures { CountsFailure result (K.state out.old).failures (K.state out.new).failures }
{
    put_all(out, explanation(topic).as_bytes())
}
