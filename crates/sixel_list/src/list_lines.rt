//! Puts the lines of events into a block: of one event, of a select, of a repeat, of single sixels.

ghost use Rattle.std.specs.Prelude.{◌≡◌, ◌<◌, ◌≤◌, ◌+◌, ◌∷◌, ℕ, [], IsTrue, length, slice_index};
ghost use Rattle.sixel_grammar.specs.Bytes.{is_data};
ghost use Rattle.sixel_grammar.specs.Document.{most_bytes};
ghost use Rattle.sixel_grammar.specs.Stretches.{sixels_from};
ghost use Rattle.sixel_grammar.specs.declared.command.Command.TheVariants.{Repeat, Select};
ghost use Rattle.sixel_grammar.specs.declared.command.Event.TheVariants.{Step};
ghost use Rattle.sixel_io.specs.Blocks.{WritesThrough};
ghost use Rattle.sixel_report.specs.Texts.{list_text};

use crate::sixel_line::{MOST_SIXELS, SixelLines};
use sixel_grammar::{Command, Event, Placed};
use sixel_io::{Block, DeviceFault, Sink};
use sixel_report::event_line;

/// Room for 12 bytes of lines per byte of a piece. A data byte gives up to 19, so a piece of data takes two writes.
pub type Lines = Block<786_432>;

/// Puts the line of a command of any kind. Nearly all that are no columns are selects.
#[inline(always)]
pub fn put_ended<K: Sink>(
    place: u64,
    command: Command,
    sixels: &mut SixelLines,
    lines: &mut Lines,
    out: &mut K,
) -> Result<(), DeviceFault>
    ensures { WritesThrough result (K.state out.old) (K.state out.new) lines.old lines.new
        (list_text (record { place = place; event = Step command } ∷ [])) }
{
    match command {
        Command::Select(register) => put_register(place, register, sixels, lines, out),
        other => put_command(place, other, lines, out),
    }
}

/// Puts the line of the select of this register. Nearly all are made quickly.
#[inline(always)]
pub fn put_register<K: Sink>(
    place: u64,
    register: u16,
    sixels: &mut SixelLines,
    lines: &mut Lines,
    out: &mut K,
) -> Result<(), DeviceFault>
    ensures { WritesThrough result (K.state out.old) (K.state out.new) lines.old lines.new
        (list_text (record { place = place; event = Step (Select register) } ∷ [])) }
{
    if place >= 100 && register < 1000 {
        sixels.line.set_select(place, register);
        return lines.put(sixels.line.as_slice(), out);
    }
    put_command(place, Command::Select(register), lines, out)
}

/// Puts the line of a repeat. Nearly all are made quickly.
#[inline(always)]
pub fn put_repeat<K: Sink>(
    place: u64,
    count: u16,
    bits: u8,
    sixels: &mut SixelLines,
    lines: &mut Lines,
    out: &mut K,
) -> Result<(), DeviceFault>
    ensures { WritesThrough result (K.state out.old) (K.state out.new) lines.old lines.new
        (list_text (record { place = place; event = Step (Repeat count bits) } ∷ [])) }
{
    if place >= 100 && count < 1000 {
        sixels.line.set_repeat(place, count, bits);
        return lines.put(sixels.line.as_slice(), out);
    }
    put_command(place, Command::Repeat { count, bits }, lines, out)
}

/// Puts the lines of these data bytes, each a single sixel. The first has the offset `place`.
#[inline(always)]
pub fn put_sixels<K: Sink>(
    place: u64,
    bytes: &[u8],
    sixels: &mut SixelLines,
    lines: &mut Lines,
    out: &mut K,
) -> Result<(), DeviceFault>
    requires sixels { (k : ℕ) → k < length bytes.now → IsTrue (is_data (slice_index bytes.now k)) }
    requires limit { place + length bytes.now ≤ most_bytes }
    ensures { WritesThrough result (K.state out.old) (K.state out.new) lines.old lines.new
        (list_text (sixels_from place bytes.now)) }
{
    let mut done = 0;
    while done < bytes.len() {
        let end = bytes.len().min(done + MOST_SIXELS);
        put_few(place + done as u64, &bytes[done..end], sixels, lines, out)?;
        done = end;
    }
    Ok(())
}

/// The same for a few of them. From offset 100 on their lines are made quickly, and put at once if the block has room.
#[inline(always)]
fn put_few<K: Sink>(
    place: u64,
    bytes: &[u8],
    sixels: &mut SixelLines,
    lines: &mut Lines,
    out: &mut K,
) -> Result<(), DeviceFault>
    requires few { length bytes.now ≤ MOST_SIXELS }
    requires sixels { (k : ℕ) → k < length bytes.now → IsTrue (is_data (slice_index bytes.now k)) }
    requires limit { place + length bytes.now ≤ most_bytes }
    ensures { WritesThrough result (K.state out.old) (K.state out.new) lines.old lines.new
        (list_text (sixels_from place bytes.now)) }
{
    if place < 100 {
        return put_each(place, bytes, lines, out);
    }
    sixels.set(place, bytes);
    if lines.try_put(sixels.as_slice()) {
        return Ok(());
    }
    put_each(place, bytes, lines, out)
}

/// Puts the lines of data bytes one by one.
#[inline(never)]
fn put_each<K: Sink>(
    place: u64,
    bytes: &[u8],
    lines: &mut Lines,
    out: &mut K,
) -> Result<(), DeviceFault>
    requires sixels { (k : ℕ) → k < length bytes.now → IsTrue (is_data (slice_index bytes.now k)) }
    requires limit { place + length bytes.now ≤ most_bytes }
    ensures { WritesThrough result (K.state out.old) (K.state out.new) lines.old lines.new
        (list_text (sixels_from place bytes.now)) }
{
    for (index, byte) in bytes.iter().enumerate() {
        put_command(
            place + index as u64,
            Command::Sixel(byte - b'?'),
            lines,
            out,
        )?;
    }
    Ok(())
}

/// Puts the line of a command.
fn put_command<K: Sink>(
    place: u64,
    command: Command,
    lines: &mut Lines,
    out: &mut K,
) -> Result<(), DeviceFault>
    ensures { WritesThrough result (K.state out.old) (K.state out.new) lines.old lines.new
        (list_text (record { place = place; event = Step command } ∷ [])) }
{
    let event = Event::Step(command);
    put_line(&Placed { place, event }, lines, out)
}

/// Puts the line of an event.
pub fn put_line<K: Sink>(placed: &Placed, lines: &mut Lines, out: &mut K) -> Result<(), DeviceFault>
    ensures { WritesThrough result (K.state out.old) (K.state out.new) lines.old lines.new
        (list_text (placed.now ∷ [])) }
{
    let line = event_line(placed);
    lines.put(line.as_slice(), out)
}
