//! Which messages come last.

ghost use Rattle.std.specs.Prelude.{◌≡◌};
ghost use Rattle.sixel_program.specs.Shown.{shown_at};

use crate::terminals::Terminals;
use sixel_messages::Shown;
use sixel_report::{Lines, is_quiet};

/// The messages that come last in a request with these lines at these terminals, which asks for hints or doesn't.
pub fn shown_at(terminals: Terminals, lines: Lines, explains: bool) -> Shown
    ensures { result ≡ shown_at terminals lines explains }
{
    Shown {
        is_terminal: terminals.errors,
        explains,
        notes: !is_quiet(lines),
    }
}
