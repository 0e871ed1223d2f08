//! What a named terminal makes of the events of a string, one by one.

ghost use Rattle.std.specs.Prelude.{◌≡◌, ◌<◌, ◌++◌, ◌∷◌, [], ℕ, IfSome, IsTrue, List, None, Option, false, length};
ghost use Rattle.std.specs.Prelude.{slice_index, true};
ghost use Rattle.std.specs.Option.{option_map};
ghost use Rattle.sixel_grammar.specs.Bytes.{is_data};
ghost use Rattle.sixel_grammar.specs.declared.command.Event.{Event as AnEvent};
ghost use Rattle.sixel_grammar.specs.declared.command.Command.TheVariants.{Repeat};
ghost use Rattle.sixel_grammar.specs.declared.command.Event.TheVariants.{Step};
ghost use Rattle.sixel_terminal.specs.Stretches.{sixels_of};
ghost use Rattle.sixel_emulator.specs.declared.reading.Reads.TheVariants.{Draws};
ghost use Rattle.sixel_emulator.specs.Readings.{AreCut, ArePlain, ArePlainBlanks, Model as AModel};

use sixel_grammar::{Command, Event};

/// What a terminal makes of one event.
#[derive(Clone, Copy, Debug, PartialEq, Eq)]
pub enum Reads {
    /// It draws nothing.
    Nothing,
    /// It draws as a plain terminal draws this command.
    Draws(Command),
    /// It draws as a plain terminal draws these two, one after the other.
    DrawsTwo(Command, Command),
    /// It draws nothing, from this event on.
    Stops,
    /// The model doesn't say what it does.
    Unsaid,
}

/// A terminal that reads the events of a string in order, each with the one after it.
pub trait Reading {
    /// The terminal's model.
    ghost model: { AModel };

    /// `has_seen now events`: it has read these events.
    ghost has_seen: { Self → List AnEvent → Type 0 };

    /// Reads the next event. `next` is the one after it, if there is one.
    fn read(&mut self, event: &Event, next: Option<&Event>) -> Reads
        ensures reads { (before : List AnEvent) → has_seen self.old before
            → result ≡ model.rule before event.now (option_map (λ e. e.now) next.entry) }
        ensures seen { (before : List AnEvent) → has_seen self.old before
            → has_seen self.new (before ++ event.now ∷ []) };

    /// Whether what it makes of the event hangs on the one after it.
    fn waits(&self, event: &Event) -> bool
        ensures { result ≡ false → (before : List AnEvent) (next : Option AnEvent)
            → model.rule before event.now next ≡ model.rule before event.now None };

    /// How many sixels that come next it draws as they are, whatever follows.
    fn plain_sixels(&self) -> usize
        ensures { (before : List AnEvent) → has_seen self.now before → ArePlain model.rule before result };

    /// Whether it draws each sixel without a set bit as it is, of those that come next without one between them that
    /// paints, whatever follows. `false` says nothing.
    fn draws_blanks(&self) -> bool
        ensures { result ≡ true → (before : List AnEvent) → has_seen self.now before
            → ArePlainBlanks model.rule before };

    /// Reads the sixels of these data bytes.
    fn note_sixels(&mut self, bytes: &[u8])
        requires { (k : ℕ) → k < length bytes.now → IsTrue (is_data (slice_index bytes.now k)) }
        ensures { (before : List AnEvent) → has_seen self.old before
            → has_seen self.new (before ++ sixels_of bytes.now) };

    /// If it paints none of the data commands that come next, whatever follows: how many of their columns move on.
    /// `zero_columns` are those of a repeat of 0. `None` says nothing.
    fn kept_columns(&self, zero_columns: u8) -> Option<usize>
        ensures { IfSome result (λ columns. (before : List AnEvent) → has_seen self.now before
            → AreCut model.rule before zero_columns columns) };

    /// Whether it draws this repeat as it is, if it comes next, whatever follows. `false` says nothing.
    fn is_plain_repeat(&self, count: u16, bits: u8) -> bool
        ensures { result ≡ true → (before : List AnEvent) (next : Option AnEvent) → has_seen self.now before
            → model.rule before (Step (Repeat count bits)) next ≡ Draws (Repeat count bits) };

    /// Reads this repeat.
    fn note_repeat(&mut self, count: u16, bits: u8)
        ensures { (before : List AnEvent) → has_seen self.old before
            → has_seen self.new (before ++ Step (Repeat count bits) ∷ []) };
}
