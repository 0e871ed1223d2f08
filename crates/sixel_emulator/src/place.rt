//! Where the next sixel stands.

ghost use Rattle.std.specs.Prelude.{◌≡◌, ◌==◌, ◌++◌, ◌∷◌, ℕ, [], List, length, if◌then◌else◌};
ghost use Rattle.sixel_grammar.specs.declared.command.Event.{Event as AnEvent};
ghost use Rattle.sixel_terminal.specs.Stretches.{sixels_of};
ghost use Rattle.sixel_emulator.specs.Places.{IsPlaceAfter, moved, next_band, next_column};

use sixel_grammar::{Command, Event};

/// The column and the band of the next sixel. Both stop at `u32::MAX`, which is past what any terminal shows.
#[derive(Clone, Copy, Debug, PartialEq, Eq)]
pub struct Place {
    pub column: u32,
    pub band: u32,
}

/// The columns of a repeat. A repeat of 0 has `zero_columns`.
#[inline(always)]
fn columns_of(count: u16, zero_columns: u16) -> u16
    ensures { result ≡ (if count == 0 then zero_columns else count) }
{
    if count == 0 { zero_columns } else { count }
}

impl Place {
    /// The place before any event.
    pub fn new() -> Place
        ensures { (zero_columns : ℕ) → IsPlaceAfter zero_columns result [] }
    {
        Place { column: 0, band: 0 }
    }

    /// The place so many columns further right.
    #[inline(always)]
    fn right(self, columns: u16) -> Place
        ensures { result ≡ moved columns self }
    {
        Place {
            column: self.column.saturating_add(u32::from(columns)),
            ..self
        }
    }

    /// The place after so many sixels.
    #[inline(always)]
    pub fn after_sixels(self, count: usize) -> Place
        ensures { (zero_columns : ℕ) (before : List AnEvent) (bytes : List ℕ) → length bytes ≡ count
            → IsPlaceAfter zero_columns self before
            → IsPlaceAfter zero_columns result (before ++ sixels_of bytes) }
    {
        let column = (self.column as usize).saturating_add(count);
        Place {
            column: column.min(u32::MAX as usize) as u32,
            ..self
        }
    }

    /// The place after one more event. A repeat of 0 has `zero_columns`.
    #[inline(always)]
    fn moved_by(self, event: &Event, zero_columns: u16) -> Place
        ensures column { result.column ≡ next_column zero_columns self event.now }
        ensures band { result.band ≡ next_band self event.now }
    {
        match event {
            Event::Step(Command::Sixel(_)) => self.right(1),
            Event::Step(Command::Repeat { count, .. }) => {
                self.right(columns_of(*count, zero_columns))
            }
            Event::Step(Command::CarriageReturn) => Place { column: 0, ..self },
            Event::Step(Command::NextLine) => Place {
                column: 0,
                band: self.band.saturating_add(1),
            },
            _ => self,
        }
    }

    /// The place after one more event. A repeat of 0 has `zero_columns`.
    #[inline(always)]
    pub fn after(self, event: &Event, zero_columns: u16) -> Place
        ensures { (before : List AnEvent) → IsPlaceAfter zero_columns self before
            → IsPlaceAfter zero_columns result (before ++ event.now ∷ []) }
    {
        self.moved_by(event, zero_columns)
    }
}
