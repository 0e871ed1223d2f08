//! Writes one command. Those that a band has many of are spelled here.

ghost use Rattle.std.specs.Prelude.{◌≡◌, ◌+◌, ◌<◌, ◌≤◌, [], ◌∷◌};
ghost use Rattle.sixel_io.specs.Blocks.{WritesThrough};
ghost use Rattle.sixel_grammar.specs.Spelling.{IsSpellable};
ghost use Rattle.sixel_encode.specs.Canon.{commands_text};

use crate::digits::digit;
use sixel_grammar::{Command, Event, put_event};
use sixel_io::{Block, DeviceFault, Sink};

/// Text on its way to a sink, buffered in blocks of 65,536 bytes.
pub(crate) type Text = Block<65_536>;

/// Writes a command.
#[inline]
pub(crate) fn put_command<K: Sink>(
    text: &mut Text,
    command: Command,
    out: &mut K,
) -> Result<(), DeviceFault>
    requires { IsSpellable (Event.Step command) }
    ensures { WritesThrough result (K.state out.old) (K.state out.new) text.old text.new
        (commands_text (command ∷ [])) }
{
    match command {
        Command::Select(register) => put_select(text, register, out),
        Command::CarriageReturn => text.put(b"$", out),
        other => put_other(text, other, out),
    }
}

/// Writes a command in the spelling of `sixel_grammar`.
fn put_other<K: Sink>(text: &mut Text, command: Command, out: &mut K) -> Result<(), DeviceFault>
    requires { IsSpellable (Event.Step command) }
    ensures { WritesThrough result (K.state out.old) (K.state out.new) text.old text.new
        (commands_text (command ∷ [])) }
{
    put_event(text, &Event::Step(command), out)
}

fn put_select<K: Sink>(text: &mut Text, register: u16, out: &mut K) -> Result<(), DeviceFault>
    ensures { WritesThrough result (K.state out.old) (K.state out.new) text.old text.new
        (commands_text (Command.Select register ∷ [])) }
{
    if register < 10 {
        text.put(&[b'#', digit(register)], out)
    } else if register < 100 {
        text.put(&[b'#', digit(register / 10), digit(register % 10)], out)
    } else if register < 1_000 {
        let (hundreds, tens) = (digit(register / 100), digit(register / 10 % 10));
        text.put(&[b'#', hundreds, tens, digit(register % 10)], out)
    } else {
        put_other(text, Command::Select(register), out)
    }
}
