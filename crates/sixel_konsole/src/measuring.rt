//! Measures the rectangle that konsole fills, while a document is read.

ghost use Rattle.std.specs.Prelude.{◌≡◌, ◌<◌, ◌++◌, ◌∷◌, [], ℕ, IsTrue, List, None, Option, Some, length};
ghost use Rattle.std.specs.Prelude.{slice_index, true};
ghost use Rattle.std.specs.Option.{option_to_list};
ghost use Rattle.sixel_grammar.specs.Bytes.{is_data};
ghost use Rattle.sixel_grammar.specs.declared.command.Command.TheVariants.{CarriageReturn, NextLine, Repeat};
ghost use Rattle.sixel_grammar.specs.declared.command.Command.TheVariants.{Select};
ghost use Rattle.sixel_grammar.specs.declared.command.Event.{Event as AnEvent};
ghost use Rattle.sixel_grammar.specs.declared.command.Event.TheVariants.{Step};
ghost use Rattle.sixel_terminal.specs.Stretches.{sixels_of};
ghost use Rattle.sixel_konsole.specs.Konsole.{StaysLow, konsole_opening, moves_or_ends};
ghost use Rattle.sixel_konsole.specs.KonsoleMeasured.{HasMeasured};
ghost use Rattle.sixel_konsole.specs.Measuring.{HasTakenAll, HasTakenOn, MeasuresBefore};
ghost use Rattle.sixel_emulator.specs.Modelled.{opening_of};

use crate::konsole::{moves_or_ends, waits};
use crate::rectangle::KonsoleMeasure;
use sixel_emulator::Listener;
use sixel_emulator::words::sixel;
use sixel_grammar::{Command, Event};

/// A measure of konsole's rectangle. The event that came last waits for the next one.
#[derive(Debug, Drop)]
pub struct Measuring {
    measure: KonsoleMeasure,
    pending: Option<Event>,
}

impl Measuring {
    /// No event has come.
    pub fn new() -> Measuring
        ensures { HasTakenAll result [] }
    {
        Measuring {
            measure: KonsoleMeasure::new(),
            pending: None,
        }
    }

    /// Measures the event that waits, if there is one. The one after it drops or doesn't.
    #[inline(always)]
    fn read_last(&mut self, dropped: bool)
        ensures pending { self.new.pending ≡ self.old.pending }
        ensures measures { (read : List AnEvent) (next : Option AnEvent) → moves_or_ends next ≡ dropped
            → MeasuresBefore self.old.measure read self.old.pending
            → HasMeasured self.new.measure (read ++ option_to_list self.old.pending) next }
    {
        match &self.pending {
            Some(last) => self.measure.take_before(last, dropped),
            None => {}
        }
    }

    /// The same. None waits then.
    #[inline(never)]
    fn settle_waiting(&mut self, dropped: bool)
        ensures pending { self.new.pending ≡ None }
        ensures measures { (read : List AnEvent) (next : Option AnEvent) → moves_or_ends next ≡ dropped
            → MeasuresBefore self.old.measure read self.old.pending
            → HasMeasured self.new.measure (read ++ option_to_list self.old.pending) next }
    {
        self.read_last(dropped);
        self.pending = None;
    }

    /// The same, and fast if none waits. `next` comes after it.
    #[inline(always)]
    fn settle(&mut self, next: &Event)
        ensures pending { self.new.pending ≡ None }
        ensures measures { (before : List AnEvent) → HasTakenAll self.old before
            → HasMeasured self.new.measure before (Some next.now) }
    {
        match &self.pending {
            Some(_) => self.settle_waiting(moves_or_ends(next)),
            None => {}
        }
    }

    /// Takes a select, where none waits. It doesn't wait: the rectangle doesn't hang on what follows it.
    #[inline(always)]
    fn add_select(&mut self, register: u16)
        requires { self.old.pending ≡ None }
        ensures { (before : List AnEvent) → HasMeasured self.old.measure before (Some (Step (Select register)))
            → HasTakenAll self.new (before ++ Step (Select register) ∷ []) }
    {
        self.measure.take_select(register);
    }

    /// Takes a repeat, where none waits.
    #[inline(always)]
    fn add_repeat(&mut self, count: u16, bits: u8)
        requires { self.old.pending ≡ None }
        ensures { (before : List AnEvent) → HasMeasured self.old.measure before (Some (Step (Repeat count bits)))
            → HasTakenAll self.new (before ++ Step (Repeat count bits) ∷ []) }
    {
        self.measure.take_repeat(count, bits);
    }

    /// Takes another event, where none waits.
    #[inline(always)]
    fn add_other(&mut self, event: Event)
        requires { self.old.pending ≡ None }
        ensures { (before : List AnEvent) → HasMeasured self.old.measure before (Some event)
            → HasTakenAll self.new (before ++ event ∷ []) }
    {
        if waits(&event) {
            self.pending = Some(event);
        } else {
            self.measure.take_alone(&event);
        }
    }

    /// Takes the event that comes next, where none waits.
    #[inline(always)]
    fn add(&mut self, event: Event)
        requires { self.old.pending ≡ None }
        ensures { (before : List AnEvent) → HasMeasured self.old.measure before (Some event)
            → HasTakenAll self.new (before ++ event ∷ []) }
    {
        match event {
            Event::Step(Command::Select(register)) => self.add_select(register),
            Event::Step(Command::Repeat { count, bits }) => self.add_repeat(count, bits),
            _ => self.add_other(event),
        }
    }

    /// Takes the event that comes next.
    ///
    /// It is inlined, so that a caller that knows the kind of the event keeps only the code for that kind.
    #[inline(always)]
    fn push(&mut self, event: Event)
        ensures taken { (before : List AnEvent) → HasTakenAll self.old before
            → HasTakenAll self.new (before ++ event ∷ []) }
    {
        self.settle(&event);
        self.add(event);
    }

    /// Takes a return that comes next.
    #[inline(never)]
    fn push_return(&mut self)
        ensures taken { (before : List AnEvent) → HasTakenAll self.old before
            → HasTakenAll self.new (before ++ Step CarriageReturn ∷ []) }
    {
        self.push(Event::Step(Command::CarriageReturn));
    }

    /// Takes a new line that comes next.
    #[inline(never)]
    fn push_next_line(&mut self)
        ensures taken { (before : List AnEvent) → HasTakenAll self.old before
            → HasTakenAll self.new (before ++ Step NextLine ∷ []) }
    {
        self.push(Event::Step(Command::NextLine));
    }

    /// Takes a select that comes next.
    #[inline(never)]
    fn push_select(&mut self, register: u16)
        ensures taken { (before : List AnEvent) → HasTakenAll self.old before
            → HasTakenAll self.new (before ++ Step (Select register) ∷ []) }
    {
        self.push(Event::Step(Command::Select(register)));
    }

    /// Takes a command that comes next, of a kind that is rare.
    #[inline(never)]
    fn push_rarely(&mut self, command: Command)
        ensures taken { (before : List AnEvent) → HasTakenAll self.old before
            → HasTakenAll self.new (before ++ Step command ∷ []) }
    {
        self.push(Event::Step(command));
    }

    /// Takes the command that comes next. It is inlined, since it only tells the kinds apart.
    #[inline(always)]
    fn push_command(&mut self, command: Command)
        ensures taken { (before : List AnEvent) → HasTakenAll self.old before
            → HasTakenAll self.new (before ++ Step command ∷ []) }
    {
        match command {
            Command::CarriageReturn => self.push_return(),
            Command::NextLine => self.push_next_line(),
            Command::Select(register) => self.push_select(register),
            other => self.push_rarely(other),
        }
    }

    /// Takes the sixels of these data bytes, in order.
    fn push_stretch(&mut self, bytes: &[u8])
        requires { (k : ℕ) → k < length bytes.now → IsTrue (is_data (slice_index bytes.now k)) }
        ensures { (before : List AnEvent) → HasTakenAll self.old before
            → HasTakenAll self.new (before ++ sixels_of bytes.now) }
    {
        if !bytes.is_empty() {
            self.settle(&sixel(bytes[0]));
            self.measure.take_sixels(bytes);
        }
    }

    /// Whether sixel pixels are one pixel high, whatever follows. `false` says nothing: it is so after the first select,
    /// definition or data command of a string of that ratio.
    pub fn stays_low(&self) -> bool
        ensures { result ≡ true → (events : List AnEvent) → HasTakenAll self.now events → StaysLow events }
    {
        self.measure.stays_low()
    }

    /// What konsole draws before the first event, by all events.
    pub fn finish(mut self) -> Option<Command>
        ensures { (events : List AnEvent) → HasTakenAll self events → opening_of result ≡ konsole_opening events }
    {
        self.settle_waiting(false);
        self.measure.opening()
    }
}

impl Listener for Measuring {
    ghost has_taken = { HasTakenOn };

    #[inline(always)]
    fn hear(&mut self, _place: u64, event: Event) {
        self.push(event);
    }

    #[inline(always)]
    fn hear_command(&mut self, _place: u64, command: Command) {
        self.push_command(command);
    }

    #[inline(always)]
    fn hear_select(&mut self, _place: u64, register: u16) {
        self.push(Event::Step(Command::Select(register)));
    }

    #[inline(always)]
    fn hear_repeat(&mut self, _place: u64, count: u16, bits: u8) {
        self.push(Event::Step(Command::Repeat { count, bits }));
    }

    #[inline(always)]
    fn hear_stretch(&mut self, _place: u64, bytes: &[u8]) {
        self.push_stretch(bytes);
    }
}
