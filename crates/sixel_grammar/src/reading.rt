//! Reads a whole document from a source.

ghost use Rattle.std.specs.Prelude.{◌≡◌, ◌<◌, ◌⊎◌, ℕ, List, [], ◌∷◌, ◌++◌, take, Err, IfSome, IfOk, IfErr, OnOk};
ghost use Rattle.std.specs.Prelude.{MatchResult};
ghost use Rattle.std.specs.Option.{option_to_list};
ghost use Rattle.sixel_grammar.specs.Document.{Document};
ghost use Rattle.sixel_grammar.specs.Faults.{IsFaultOf};
ghost use Rattle.sixel_grammar.specs.Reading.{Explains, ExplainsAlways, NoFaultBefore, failures_after};
ghost use Rattle.sixel_grammar.specs.declared.fault.InputFault.TheVariants.{Read as ReadFault};
ghost use Rattle.sixel_grammar.specs.Standing.{StandsAfter, completions};

use crate::command::{Completed, Placed};
use crate::fault::InputFault;
use crate::reader::Reader;
use sixel_io::{PIECE, Source};
use std::alloc::{AllocError, Global};

/// Reads the source to its end, and returns the events of its document, each with its offset. `Read` means that the
/// source failed before any invalid byte was seen.
pub fn read_all<S: Source>(alloc: Global, input: &mut S) -> Result<Vec<Placed>, InputFault>
    ensures document { IfOk result (λ v. IfSome (S.state input.old).remaining (Document v.items)) }
    ensures refused { IfErr result (λ fault. IfSome (S.state input.old).remaining (Explains fault)) }
    ensures unread { result ≡ Err ReadFault →
        IfSome (S.state input.old).remaining (NoFaultBefore (S.state input.new).remaining) }
    ensures failures { (S.state input.new).failures ≡ failures_after result (S.state input.old).failures }
{
    let mut events = Vec::new(alloc);
    let mut reader = Reader::new();
    let mut piece = [0u8; PIECE];
    loop {
        let count = input.fill(&mut piece)?;
        if count == 0 {
            reader.finish()?;
            return Ok(events);
        }
        read_piece(&mut reader, &mut events, &piece[..count])?;
    }
}

/// Feeds the bytes of a piece to the reader, and keeps the events that they complete.
fn read_piece(reader: &mut Reader, events: &mut Vec<Placed>, piece: &[u8]) -> Result<(), InputFault>
    ensures read { OnOk result ((prefix : List ℕ) → StandsAfter reader.old events.old.items prefix →
        StandsAfter reader.new events.new.items (prefix ++ piece.now)) }
    ensures refused { IfErr result (λ fault. (prefix : List ℕ) → StandsAfter reader.old events.old.items prefix →
        ExplainsAlways fault (prefix ++ piece.now)) }
{
    for byte in piece {
        read_byte(reader, events, *byte)?;
    }
    Ok(())
}

/// Feeds one byte to the reader, and keeps the events that it completes.
fn read_byte(reader: &mut Reader, events: &mut Vec<Placed>, byte: u8) -> Result<(), InputFault>
    ensures read { OnOk result ((prefix : List ℕ) → StandsAfter reader.old events.old.items prefix →
        StandsAfter reader.new events.new.items (prefix ++ byte ∷ [])) }
    ensures refused { IfErr result (λ fault. (prefix : List ℕ) → StandsAfter reader.old events.old.items prefix →
        ExplainsAlways fault (prefix ++ byte ∷ [])) }
{
    let completed = reader.feed(byte)?;
    Ok(keep(events, completed)?)
}

fn keep(events: &mut Vec<Placed>, completed: Completed) -> Result<(), AllocError>
    ensures { OnOk result (events.new.items ≡ events.old.items ++ completions completed) }
{
    let Completed { first, second } = completed;
    keep_one(events, first)?;
    keep_one(events, second)
}

fn keep_one(events: &mut Vec<Placed>, placed: Option<Placed>) -> Result<(), AllocError>
    ensures { OnOk result (events.new.items ≡ events.old.items ++ option_to_list placed) }
{
    if let Some(placed) = placed {
        events.push(placed)?;
    }
    Ok(())
}
