//! Writes events in their fixed spelling: decimal numbers without leading zeros, every field given.

ghost use Rattle.std.specs.Prelude.{◌≡◌, ◌<◌, ◌≤◌, ◌+◌, length, decimal, false, OnOk, List, [], ◌∷◌, ◌++◌};
ghost use Rattle.sixel_io.specs.Blocks.{PutsWhole};
ghost use Rattle.sixel_grammar.specs.Bytes.{introducer, terminator};
ghost use Rattle.sixel_io.specs.Devices.{Writes};
ghost use Rattle.sixel_grammar.specs.Spelling.{IsSpellable, fixed_fields, fixed_command, fixed_spelling};

use crate::command::{Command, Event};
use arrayvec::ArrayVec;
use itoa::Buffer;
use sixel_io::{Block, DeviceFault, Sink, put_all};

/// Writes the fixed spelling of an event to the sink. On an `Err` the sink has failed and took a prefix of it. It
/// doesn't flush.
pub fn write_event<K: Sink>(event: &Event, out: &mut K) -> Result<(), DeviceFault>
    requires { IsSpellable event.now }
    ensures written { Writes result (K.state out.old) (K.state out.new) (fixed_spelling event.now) }
    ensures held { OnOk result ((K.state out.new).is_flushed ≡ false) }
{
    let text = spelled(event);
    put_all(out, text.as_slice())
}

/// Puts the fixed spelling of an event, at most 30 bytes, into a block. On an `Err` the sink has failed, and none of
/// the spelling was put.
#[inline]
pub fn put_event<const ROOM: usize, K: Sink>(
    text: &mut Block<ROOM>,
    event: &Event,
    out: &mut K,
) -> Result<(), DeviceFault>
    requires spellable { IsSpellable event.now }
    requires room { 30 ≤ ROOM }
    ensures { PutsWhole result (K.state out.old) (K.state out.new) text.old text.new (fixed_spelling event.now) }
{
    let spelling = spelled(event);
    text.put(spelling.as_slice(), out)
}

/// The fixed spelling. The longest is that of a definition: `#`, five numbers of five digits, four separators.
fn spelled(event: &Event) -> ArrayVec<u8, 30>
    requires { IsSpellable event.now }
    ensures { result.items ≡ fixed_spelling event.now }
{
    match event {
        Event::Start { eight, parameters } => spelled_start(*eight, parameters.as_slice()),
        Event::Step(command) => spelled_command(command),
        Event::Finish { eight } => spelled_finish(*eight),
    }
}

fn spelled_start(eight: bool, parameters: &[u16]) -> ArrayVec<u8, 30>
    requires some { 0 < length parameters.now }
    requires few { length parameters.now ≤ 3 }
    ensures { result.items ≡ introducer eight ++ fixed_fields parameters.now ++ 113 ∷ [] }
{
    let mut text = introduced(eight);
    push_parameters(&mut text, parameters);
    text.push(b'q');
    text
}

fn introduced(eight: bool) -> ArrayVec<u8, 30>
    ensures text { result.items ≡ introducer eight }
    ensures short { length result.items ≤ 2 }
{
    let mut text = ArrayVec::new();
    if eight {
        text.push(0x90);
    } else {
        text.push(0x1b);
        text.push(b'P');
    }
    text
}

fn push_parameters(text: &mut ArrayVec<u8, 30>, parameters: &[u16])
    requires some { 0 < length parameters.now }
    requires few { length parameters.now ≤ 3 }
    requires room { length text.old.items ≤ 2 }
    ensures text { text.new.items ≡ text.old.items ++ fixed_fields parameters.now }
    ensures short { length text.new.items ≤ 20 }
{
    match parameters {
        [first] => push_number(text, *first),
        [first, second] => {
            push_number(text, *first);
            push_field(text, *second);
        }
        [first, second, third] => {
            push_number(text, *first);
            push_field(text, *second);
            push_field(text, *third);
        }
        _ => unreachable!(),
    }
}

fn spelled_finish(eight: bool) -> ArrayVec<u8, 30>
    ensures { result.items ≡ terminator eight }
{
    let mut text = ArrayVec::new();
    if eight {
        text.push(0x9c);
    } else {
        text.push(0x1b);
        text.push(b'\\');
    }
    text
}

fn spelled_command(command: &Command) -> ArrayVec<u8, 30>
    requires { IsSpellable (Event.Step command.now) }
    ensures { result.items ≡ fixed_command command.now }
{
    match command {
        Command::Sixel(bits) => one_byte(63 + *bits),
        Command::Repeat { count, bits } => spelled_repeat(*count, *bits),
        Command::Raster {
            pan,
            pad,
            width,
            height,
        } => spelled_raster(*pan, *pad, *width, *height),
        Command::Select(register) => spelled_select(*register),
        Command::Define {
            register,
            system,
            x,
            y,
            z,
        } => spelled_define(*register, *system, *x, *y, *z),
        Command::CarriageReturn => one_byte(b'$'),
        Command::NextLine => one_byte(b'-'),
    }
}

fn one_byte(byte: u8) -> ArrayVec<u8, 30>
    ensures { result.items ≡ byte ∷ [] }
{
    let mut text = ArrayVec::new();
    text.push(byte);
    text
}

fn spelled_repeat(count: u16, bits: u8) -> ArrayVec<u8, 30>
    requires { bits ≤ 63 }
    ensures { result.items ≡ 33 ∷ decimal count ++ (63 + bits) ∷ [] }
{
    let mut text = one_byte(b'!');
    push_number(&mut text, count);
    text.push(63 + bits);
    text
}

fn spelled_raster(pan: u16, pad: u16, width: u16, height: u16) -> ArrayVec<u8, 30>
    ensures { result.items ≡ 34 ∷ fixed_fields (pan ∷ pad ∷ width ∷ height ∷ []) }
{
    let mut text = one_byte(b'"');
    push_number(&mut text, pan);
    push_field(&mut text, pad);
    push_field(&mut text, width);
    push_field(&mut text, height);
    text
}

fn spelled_select(register: u16) -> ArrayVec<u8, 30>
    ensures { result.items ≡ 35 ∷ decimal register }
{
    let mut text = one_byte(b'#');
    push_number(&mut text, register);
    text
}

fn spelled_define(register: u16, system: u16, x: u16, y: u16, z: u16) -> ArrayVec<u8, 30>
    ensures { result.items ≡ 35 ∷ fixed_fields (register ∷ system ∷ x ∷ y ∷ z ∷ []) }
{
    let mut text = one_byte(b'#');
    push_number(&mut text, register);
    push_field(&mut text, system);
    push_field(&mut text, x);
    push_field(&mut text, y);
    push_field(&mut text, z);
    text
}

fn push_field(text: &mut ArrayVec<u8, 30>, number: u16)
    requires { length text.old.items + 6 ≤ 30 }
    ensures text { text.new.items ≡ text.old.items ++ 59 ∷ decimal number }
    ensures short { length text.new.items ≤ length text.old.items + 6 }
{
    text.push(b';');
    push_number(text, number);
}

fn push_number(text: &mut ArrayVec<u8, 30>, number: u16)
    requires { length text.old.items + 5 ≤ 30 }
    ensures text { text.new.items ≡ text.old.items ++ decimal number }
    ensures short { length text.new.items ≤ length text.old.items + 5 }
{
    let mut buffer = Buffer::new();
    let digits = buffer.format(number);
    let _ = text.try_extend_from_slice(digits.as_bytes());
}
