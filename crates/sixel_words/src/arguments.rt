//! The arguments of the process, as texts and as a request.

ghost use Rattle.std.specs.Prelude.{◌≡◌, ◌≤◌, IfErr, IfOk, IfSome, IsErrOf, List, None, Option, [], length, map};
ghost use Rattle.std.specs.Prelude.{option_map, slice_get, ℕ};
ghost use Rattle.std.specs.Str.Lossy.{utf8_lossy};
ghost use Rattle.std.specs.String.{string_bytes};
ghost use Rattle.sixel_report.specs.Outputs.{HasSides};
ghost use Rattle.sixel_words.specs.Arguments.{IsCopied};
ghost use Rattle.sixel_words.specs.Words.{IsFaultFor, IsRequestOf, IsTaskOf, kinds_of};

use crate::words::{WordsFault, parse_request};
use sixel_report::Request;
use std::alloc::{AllocError, Global};
use std::env::{Env, FillError};

/// Room for most arguments, in bytes. It is doubled until an argument fits.
const ROOM: usize = 256;

/// The arguments of a process.
pub trait Arguments {
    /// The bytes of each, if they are told; the first is the program's name.
    ghost given: { Self → Option (List (List ℕ)) };

    /// Copies the argument with this index to the start of `room`, and returns its length.
    fn copy(&self, index: usize, room: &mut [u8]) -> Result<usize, FillError>
        ensures bound { IfOk result (λ n. n ≤ length room.new) }
        ensures told { IfSome (given self.now) (λ arguments. IsCopied arguments index result room.new) };
}

/// The arguments of this process. Contracts know nothing of them.
#[derive(Clone, Copy)]
pub struct Process<'a> {
    rt: &'a HostRuntime,
}

impl<'a> Process<'a> {
    /// The process of this runtime.
    pub fn new(rt: &'a HostRuntime) -> Process<'a> {
        Process { rt }
    }
}

impl<'a> Arguments for Process<'a> {
    ghost given = { λ process. None };

    fn copy(&self, index: usize, room: &mut [u8]) -> Result<usize, FillError> {
        self.rt.arg(index, room)
    }
}

/// The arguments as texts. In each, U+FFFD replaces what isn't valid UTF-8. `Err`: an allocation failed; or there are
/// 2^64 - 1 arguments, or one that is longer than 2^64 bytes, which no system can give.
pub fn arguments_of<A: Arguments>(alloc: Global, arguments: &A) -> Result<Vec<String>, AllocError>
    ensures { IfOk result (λ texts. IfSome (A.given arguments.now) (λ given.
        map string_bytes texts.items ≡ map utf8_lossy given)) }
{
    let mut texts = Vec::new(alloc);
    for index in 0..usize::MAX {
        match argument(alloc, arguments, index)? {
            Some(text) => texts.push(text)?,
            None => return Ok(texts),
        }
    }
    Err(AllocError)
}

/// The text of the argument with this index, or `None` after the last one.
fn argument<A: Arguments>(
    alloc: Global,
    arguments: &A,
    index: usize,
) -> Result<Option<String>, AllocError>
    ensures { IfOk result (λ text. IfSome (A.given arguments.now) (λ given.
        option_map string_bytes text ≡ option_map utf8_lossy (slice_get given index))) }
{
    let mut room = vec![in alloc; 0u8; ROOM]?;
    for _ in 0..usize::BITS {
        match arguments.copy(index, room.as_mut_slice()) {
            Ok(length) => {
                let text = String::from_utf8_lossy(alloc, &room.as_slice()[..length])?;
                return Ok(Some(text));
            }
            Err(FillError::NotPresent) => return Ok(None),
            Err(FillError::TooLong) => room.resize(room.len().saturating_mul(2), 0)?,
        }
    }
    Err(AllocError)
}

/// What these arguments ask for; the first is the program's name. If they couldn't be read: `OutOfMemory`.
pub fn task_in(
    alloc: Global,
    arguments: Result<Vec<String>, AllocError>,
) -> Result<Request, WordsFault>
    ensures task { IfOk result (λ asked. IfOk arguments (λ words. IsTaskOf (map string_bytes words.items) asked.task)) }
    ensures request { IfOk result (λ asked. IfOk arguments (λ words.
        IsRequestOf (map string_bytes words.items)
        asked.task asked.lines asked.explains (map string_bytes asked.files.items))) }
    ensures sides { IfOk result (λ asked. HasSides asked.task) }
    ensures taken { IfOk result (λ asked. IfOk arguments (λ words. kinds_of (map string_bytes words.items) ≡ [])) }
    ensures memory { IfErr arguments (λ _. IsErrOf result WordsFault.OutOfMemory) }
    ensures fault { IfErr result (λ fault. IfOk arguments (λ words.
        IsFaultFor (map string_bytes words.items) fault)) }
{
    match arguments {
        Ok(words) => parse_request(alloc, words.as_slice()),
        Err(_) => Err(WordsFault::OutOfMemory),
    }
}
