//! What takes the events that a terminal hears.

ghost use Rattle.std.specs.Prelude.{◌≡◌, ◌<◌, ◌≤◌, ◌+◌, ◌∷◌, [], ℕ, IsTrue, List, length, slice_index};
ghost use Rattle.sixel_grammar.specs.Bytes.{is_data};
ghost use Rattle.sixel_grammar.specs.Document.{most_bytes};
ghost use Rattle.sixel_grammar.specs.Following.{TakesEvents};
ghost use Rattle.sixel_grammar.specs.Stretches.{sixels_from};
ghost use Rattle.sixel_grammar.specs.declared.command.Command.TheVariants.{Repeat, Select};
ghost use Rattle.sixel_grammar.specs.declared.command.Event.TheVariants.{Step};
ghost use Rattle.sixel_grammar.specs.declared.command.Placed.{Placed as PlacedValue};
ghost use Rattle.sixel_emulator.specs.Modelled.{HasFollowedOn, placed_at};

use crate::modelled::Modelled;
use crate::reading::Reading;
use crate::words::same;
use sixel_grammar::{Both, Command, Event};

/// What takes events, in order, each with its offset. No bytes need to spell them: a terminal may hear others than the
/// document has.
pub trait Listener {
    /// `has_taken first now events`: what was `first` before these events is `now` after them.
    ghost has_taken: { Self → Self → List PlacedValue → Type 0 };

    /// Takes an event.
    fn hear(&mut self, place: u64, event: Event)
        ensures { TakesEvents has_taken self.old self.new (placed_at place event ∷ []) };

    /// Takes a command. It is called where speed counts.
    fn hear_command(&mut self, place: u64, command: Command)
        ensures { TakesEvents has_taken self.old self.new (placed_at place (Step command) ∷ []) };

    /// Takes a select.
    fn hear_select(&mut self, place: u64, register: u16)
        ensures { TakesEvents has_taken self.old self.new (placed_at place (Step (Select register)) ∷ []) };

    /// Takes a repeat.
    fn hear_repeat(&mut self, place: u64, count: u16, bits: u8)
        ensures { TakesEvents has_taken self.old self.new (placed_at place (Step (Repeat count bits)) ∷ []) };

    /// Takes the sixels of these bytes; the first byte has the offset `place`.
    fn hear_stretch(&mut self, place: u64, bytes: &[u8])
        requires sixels { (k : ℕ) → k < length bytes.now → IsTrue (is_data (slice_index bytes.now k)) }
        requires some { 0 < length bytes.now }
        requires limit { place + length bytes.now ≤ most_bytes }
        ensures { TakesEvents has_taken self.old self.new (sixels_from place bytes.now) };
}

impl<R: Reading> Listener for Modelled<R> {
    ghost has_taken = { HasFollowedOn R.model R.has_seen };

    #[inline(always)]
    fn hear(&mut self, place: u64, event: Event) {
        self.push(place, event);
    }

    #[inline(always)]
    fn hear_command(&mut self, place: u64, command: Command) {
        self.push_command(place, command);
    }

    #[inline(always)]
    fn hear_select(&mut self, place: u64, register: u16) {
        self.push(place, Event::Step(Command::Select(register)));
    }

    #[inline(always)]
    fn hear_repeat(&mut self, place: u64, count: u16, bits: u8) {
        self.push_blank_or_other(place, count, bits);
    }

    #[inline(always)]
    fn hear_stretch(&mut self, place: u64, bytes: &[u8]) {
        self.push_stretch(place, bytes);
    }
}

/// Both hear the same.
impl<A: Listener, B: Listener> Listener for Both<A, B> {
    ghost has_taken = { λ first now seen. A.has_taken first.one now.one seen × B.has_taken first.other now.other seen };

    #[inline(always)]
    fn hear(&mut self, place: u64, event: Event) {
        self.one.hear(place, same(&event));
        self.other.hear(place, event);
    }

    #[inline(always)]
    fn hear_command(&mut self, place: u64, command: Command) {
        self.one.hear_command(place, command);
        self.other.hear_command(place, command);
    }

    #[inline(always)]
    fn hear_select(&mut self, place: u64, register: u16) {
        self.one.hear_select(place, register);
        self.other.hear_select(place, register);
    }

    #[inline(always)]
    fn hear_repeat(&mut self, place: u64, count: u16, bits: u8) {
        self.one.hear_repeat(place, count, bits);
        self.other.hear_repeat(place, count, bits);
    }

    #[inline(always)]
    fn hear_stretch(&mut self, place: u64, bytes: &[u8]) {
        self.one.hear_stretch(place, bytes);
        self.other.hear_stretch(place, bytes);
    }
}
