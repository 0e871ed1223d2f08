//! A byte that ends a command and is one itself.

ghost use Rattle.std.specs.Prelude.{◌≡◌, IfSome, IsNone, IsSome, Some};
ghost use Rattle.sixel_grammar.specs.declared.command.Event.TheVariants.{Step as step_of};
ghost use Rattle.sixel_grammar.specs.Faults.{NoCommand as NoCommandForm};
ghost use Rattle.sixel_grammar.specs.Next.{begin as begin_of, next_of};

use super::{Open, Pending, is_data};
use crate::command::Command;

/// A command that a byte ended, and the command that the byte is.
#[derive(Clone, Copy, Debug, PartialEq, Eq)]
pub(crate) struct Ending {
    pub ended: Command,
    pub own: Command,
}

/// The command that the byte is when no command is open.
#[inline]
fn whole_command(byte: u8) -> Option<Command>
    ensures { IfSome result (λ command. begin_of byte ≡ Some (NoCommandForm, Some (step_of command))) }
{
    match byte {
        b'$' => Some(Command::CarriageReturn),
        b'-' => Some(Command::NextLine),
        _ if is_data(byte) => Some(Command::Sixel(byte - b'?')),
        _ => None,
    }
}

impl Pending {
    ghost use Rattle.sixel_grammar.specs.Pending.{form_of};

    /// The command that the byte ends, if the byte is a command itself.
    #[inline]
    pub(crate) fn end_with_command(&mut self, byte: u8) -> Option<Ending>
        ensures ended { IfSome result (λ ending. next_of (form_of self.old) byte ≡
            Some (Some (step_of ending.ended), form_of self.new, Some (step_of ending.own))) }
        ensures after { IsSome result → form_of self.new ≡ NoCommandForm }
        ensures refused { IsNone result → self.new ≡ self.old }
    {
        let ended = self.settled()?;
        let own = whole_command(byte)?;
        self.set(Open::NoCommand);
        Some(Ending { ended, own })
    }
}
