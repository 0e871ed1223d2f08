//! What konsole notes of an event.

ghost use Rattle.std.specs.Prelude.{◌≡◌};
ghost use Rattle.sixel_konsole.specs.Konsole.{has_width};
ghost use Rattle.sixel_konsole.specs.KonsoleSeen.{next_begun, next_declares, next_late, next_stuck};

use crate::konsole::{Konsole, has_unknown_system, is_late, moves_or_ends};
use sixel_emulator::words::{is_data_command, is_return, named_by};
use sixel_grammar::{Command, Event};

/// Whether the event is raster attributes with a width.
#[inline(always)]
fn has_width(event: &Event) -> bool
    ensures { result ≡ has_width event.now }
{
    match event {
        Event::Step(Command::Raster { width, .. }) => *width != 0,
        _ => false,
    }
}

impl Konsole {
    /// Whether all is dropped after the event.
    #[inline(always)]
    pub(super) fn gets_stuck(&self, event: &Event) -> bool
        ensures { result ≡ next_stuck self.now event.now }
    {
        !is_return(event) && (self.stuck || has_unknown_system(event))
    }

    /// Whether a select, a definition or a data command came, this event included.
    #[inline(always)]
    pub(super) fn gets_late(&self, event: &Event) -> bool
        ensures { result ≡ next_late self.now event.now }
    {
        self.has_late || is_late(event)
    }

    /// Whether the picture has begun with the event, whatever follows.
    #[inline(always)]
    pub(super) fn begins(&self, event: &Event) -> bool
        ensures { result ≡ next_begun self.now event.now }
    {
        self.has_begun(moves_or_ends(event))
            || named_by(event).is_some()
            || (is_data_command(event) && !self.stuck)
    }

    /// Whether it is raster attributes with a width. They begin the picture, unless what follows drops them.
    #[inline(always)]
    pub(super) fn declares(&self, event: &Event) -> bool
        ensures { result ≡ next_declares self.now event.now }
    {
        has_width(event) && !self.stuck
    }
}
