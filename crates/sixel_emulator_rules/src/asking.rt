//! Asks while a document is read: the first rule that is broken, of those that a set of terminals asks for.

ghost use Rattle.std.specs.Prelude.{◌≡◌, ◌++◌, ◌∷◌, ◌<◌, ◌+◌, ◌≤◌, [], ℕ, IsTrue, List, length, nat_lt, slice_index};
ghost use Rattle.std.specs.Prelude.{false, take};
ghost use Rattle.std.specs.Option.{option_map};
ghost use Rattle.sixel_grammar.specs.Bytes.{is_data};
ghost use Rattle.sixel_grammar.specs.Document.{most_bytes};
ghost use Rattle.sixel_grammar.specs.Stretches.{sixels_from};
ghost use Rattle.sixel_grammar.specs.declared.command.Command.TheVariants.{CarriageReturn, NextLine, Repeat, Select};
ghost use Rattle.sixel_grammar.specs.declared.command.Event.{Event as AnEvent};
ghost use Rattle.sixel_grammar.specs.declared.command.Event.TheVariants.{Step};
ghost use Rattle.sixel_grammar.specs.declared.command.Placed.{Placed as PlacedValue};
ghost use Rattle.sixel_emulator_rules.specs.Asking.{HasAsked, HasAskedOn, HasFound, IsAnswer, TakesOn, found_at};
ghost use Rattle.sixel_emulator_rules.specs.Asking.{placed_at};
ghost use Rattle.sixel_emulator_rules.specs.Counts.{IsCalmBefore, asked_in, first_in};
ghost use Rattle.sixel_emulator_rules.specs.Notes.{IsNotesAfter, lowered};

use crate::notes::Notes;
use crate::rule::AskedRule;
use crate::terminals::Terminals;
use sixel_grammar::{Command, Event, Follower, Placed};
use std::convert::Infallible;

/// A broken rule, and the offset of the event that breaks it.
#[derive(Clone, Copy, Debug, PartialEq, Eq)]
pub struct AskedFinding {
    pub rule: AskedRule,
    pub place: u64,
}

/// Takes the events of a document, and finds the first one that breaks a rule that one of the terminals asks for.
#[derive(Debug, Drop)]
pub struct Asking {
    terminals: Terminals,
    notes: Notes,
    finding: Option<AskedFinding>,
    /// Sixels and repeats of the band that end before this column break no rule.
    calm: u32,
}

impl Asking {
    /// No event has come.
    pub fn new(terminals: Terminals) -> Asking
        ensures asked { HasAsked result [] }
        ensures terminals { result.terminals ≡ terminals }
    {
        Asking {
            terminals,
            notes: Notes::new(),
            finding: None,
            calm: 0,
        }
    }

    /// The first event that breaks a rule that is asked for. It is exact if no select or definition before names a
    /// register above 255.
    pub fn finding(&self) -> Option<AskedFinding>
        ensures { (placed : List PlacedValue) → HasAsked self.now placed
            → IsAnswer self.now.terminals placed result }
    {
        self.finding
    }

    /// Whether the rule is asked for, and the event breaks it.
    #[inline(always)]
    fn breaks(&self, rule: AskedRule, event: &Event) -> bool
        ensures { result ≡ asked_in self.now.terminals self.now.notes event.now rule }
    {
        self.terminals.asks_for(rule) && self.notes.breaks(rule, event)
    }

    /// The rule with the least number that is asked for and that the event breaks.
    #[inline(always)]
    fn first_broken(&self, event: &Event) -> Option<AskedRule>
        ensures { result ≡ first_in self.now.terminals self.now.notes event.now }
    {
        if self.breaks(AskedRule::RasterLate, event) {
            Some(AskedRule::RasterLate)
        } else if self.breaks(AskedRule::Dropped, event) {
            Some(AskedRule::Dropped)
        } else if self.breaks(AskedRule::Stale, event) {
            Some(AskedRule::Stale)
        } else if self.breaks(AskedRule::Large, event) {
            Some(AskedRule::Large)
        } else if self.breaks(AskedRule::Rows, event) {
            Some(AskedRule::Rows)
        } else if self.breaks(AskedRule::Past, event) {
            Some(AskedRule::Past)
        } else if self.breaks(AskedRule::Hue, event) {
            Some(AskedRule::Hue)
        } else if self.breaks(AskedRule::Far, event) {
            Some(AskedRule::Far)
        } else if self.breaks(AskedRule::Introducer, event) {
            Some(AskedRule::Introducer)
        } else if self.breaks(AskedRule::Bare, event) {
            Some(AskedRule::Bare)
        } else if self.breaks(AskedRule::SpaceAfter, event) {
            Some(AskedRule::SpaceAfter)
        } else {
            None
        }
    }

    /// Finds the rule that the event breaks, if it breaks one.
    #[inline(always)]
    fn find(&mut self, place: u64, event: &Event)
        ensures { self.new ≡ record self.old {
          finding =
              option_map (found_at place) (first_in self.old.terminals self.old.notes event.now);
        } }
    {
        self.finding = match self.first_broken(event) {
            Some(rule) => Some(AskedFinding { rule, place }),
            None => None,
        };
    }

    /// Takes the next event while nothing is found.
    #[inline(always)]
    fn look(&mut self, place: u64, event: &Event)
        ensures terminals { self.new.terminals ≡ self.old.terminals }
        ensures finding { self.new.finding
            ≡ option_map (found_at place) (first_in self.old.terminals self.old.notes event.now) }
        ensures notes { (before : List AnEvent) → IsNotesAfter self.old.notes before
            → IsNotesAfter self.new.notes (before ++ event.now ∷ []) }
    {
        self.find(place, event);
        self.notes.take(event);
    }

    /// Takes the next event.
    ///
    /// It is inlined, so that a caller that knows the kind of the event keeps only the code for that kind.
    #[inline(always)]
    fn push(&mut self, place: u64, event: &Event)
        ensures terminals { self.new.terminals ≡ self.old.terminals }
        ensures taken { (seen : List PlacedValue) → HasFound self.old seen
            → HasFound self.new (seen ++ placed_at place event.now ∷ []) }
    {
        match &self.finding {
            Some(_) => {}
            None => self.look(place, event),
        }
    }

    /// Before which column sixels and repeats of the band break no rule.
    #[inline(always)]
    fn calm_limit(&self) -> u32
        ensures { IsCalmBefore self.now.terminals self.now.notes result }
    {
        if self.terminals.asks_for(AskedRule::Stale) && self.notes.is_stale() {
            0
        } else if self.terminals.asks_where() {
            self.notes.near_limit()
        } else {
            u32::MAX
        }
    }

    /// Finds that column anew.
    #[inline(never)]
    fn settle(&mut self)
        ensures kept { self.new ≡ record self.old { calm = self.new.calm } }
        ensures calm { IsCalmBefore self.new.terminals self.new.notes self.new.calm }
    {
        self.calm = self.calm_limit();
    }

    /// Takes the next event, of a kind that is rare.
    #[inline(never)]
    fn push_rarely(&mut self, place: u64, event: &Event)
        ensures { TakesOn self.old self.new (placed_at place event.now ∷ []) }
    {
        self.push(place, event);
        self.settle();
    }

    /// Takes a select, which breaks no rule.
    #[inline(always)]
    fn push_select(&mut self, place: u64, register: u16)
        ensures { TakesOn self.old self.new (placed_at place (Step (Select register)) ∷ []) }
    {
        let _ = place;
        if self.finding.is_some() {
            return;
        }
        self.notes.select(register);
        if self.calm == 0 {
            self.settle();
        }
    }

    /// Takes a return. It breaks no rule unless it comes after a select, a definition or raster attributes.
    #[inline(always)]
    fn push_return(&mut self, place: u64)
        ensures { TakesOn self.old self.new (placed_at place (Step CarriageReturn) ∷ []) }
    {
        if self.finding.is_some() {
            return;
        }
        if self.notes.droppable {
            self.push_rarely(place, &Event::Step(Command::CarriageReturn));
        } else {
            self.notes.go_back();
        }
    }

    /// Whether that column may be another one in the next band.
    #[inline(always)]
    fn hangs_on_band(&self) -> bool
        ensures { result ≡ false → IsCalmBefore self.now.terminals self.now.notes self.now.calm
            → IsCalmBefore self.now.terminals (lowered self.now.notes) self.now.calm }
    {
        self.calm != 0 && self.terminals.asks_where()
    }

    /// Takes a new line. It breaks no rule unless it comes after a select, a definition or raster attributes.
    #[inline(always)]
    fn push_next_line(&mut self, place: u64)
        ensures { TakesOn self.old self.new (placed_at place (Step NextLine) ∷ []) }
    {
        if self.finding.is_some() {
            return;
        }
        if self.notes.droppable {
            self.push_rarely(place, &Event::Step(Command::NextLine));
        } else {
            let hangs = self.hangs_on_band();
            self.notes.go_down();
            if hangs {
                self.settle();
            }
        }
    }

    /// Whether none of so many sixels can break a rule that is asked for.
    #[inline(always)]
    fn is_calm(&self, columns: usize) -> bool
        requires { columns ≤ most_bytes }
        ensures { result ≡ nat_lt (self.now.notes.column + columns) self.now.calm }
    {
        self.notes.column as usize + columns < self.calm as usize
    }

    /// Takes a repeat.
    #[inline(always)]
    fn push_repeat(&mut self, place: u64, count: u16, bits: u8)
        ensures { TakesOn self.old self.new (placed_at place (Step (Repeat count bits)) ∷ []) }
    {
        if self.finding.is_some() {
            return;
        }
        if self.is_calm(count as usize) {
            self.notes.pass(u32::from(count));
        } else {
            self.push_rarely(place, &Event::Step(Command::Repeat { count, bits }));
        }
    }

    /// Takes a command. Each kind that is frequent gets its own inlined call, with the code for that kind alone.
    #[inline(always)]
    fn push_command(&mut self, place: u64, command: Command)
        ensures { TakesOn self.old self.new (placed_at place (Step command) ∷ []) }
    {
        match command {
            Command::CarriageReturn => self.push_return(place),
            Command::NextLine => self.push_next_line(place),
            Command::Select(register) => self.push_select(place, register),
            Command::Repeat { count, bits } => self.push_repeat(place, count, bits),
            other => self.push_rarely(place, &Event::Step(other)),
        }
    }

    /// Takes sixels one by one.
    #[inline(never)]
    fn push_each(&mut self, place: u64, stretch: &[u8])
        requires sixels { (k : ℕ) → k < length stretch.now → IsTrue (is_data (slice_index stretch.now k)) }
        requires place { place + length stretch.now ≤ most_bytes }
        ensures terminals { self.new.terminals ≡ self.old.terminals }
        ensures taken { (seen : List PlacedValue) → HasFound self.old seen
            → HasFound self.new (seen ++ sixels_from place stretch.now) }
    {
        for (index, byte) in stretch.iter().enumerate() {
            let event = Event::Step(Command::Sixel(byte - b'?'));
            self.push(place + index as u64, &event);
        }
    }

    /// Takes the sixels of the first `count` of these bytes.
    #[inline(always)]
    fn push_stretch(&mut self, place: u64, bytes: &[u8], count: usize)
        requires sixels { (k : ℕ) → k < count → IsTrue (is_data (slice_index bytes.now k)) }
        requires within { (0 < count) × (count ≤ length bytes.now) }
        requires limit { place + count ≤ most_bytes }
        ensures { TakesOn self.old self.new (sixels_from place (take count bytes.now)) }
    {
        if self.finding.is_some() {
            return;
        }
        if self.is_calm(count) {
            self.notes.pass(count as u32);
        } else {
            self.push_each(place, &bytes[..count]);
            self.settle();
        }
    }
}

impl Follower for Asking {
    type Stop = Infallible;

    ghost has_taken = { HasAskedOn };

    ghost may_stop = { λ first now stop seen. ⊥ };

    #[inline(never)]
    fn take(&mut self, placed: &Placed) -> Result<(), Infallible> {
        self.push_rarely(placed.place, &placed.event);
        Ok(())
    }

    #[inline(never)]
    fn take_command(&mut self, place: u64, command: Command) -> Result<(), Infallible> {
        self.push_command(place, command);
        Ok(())
    }

    #[inline(never)]
    fn take_select(&mut self, place: u64, register: u16) -> Result<(), Infallible> {
        self.push_select(place, register);
        Ok(())
    }

    #[inline(never)]
    fn take_repeat(&mut self, place: u64, count: u16, bits: u8) -> Result<(), Infallible> {
        self.push_repeat(place, count, bits);
        Ok(())
    }

    #[inline(never)]
    fn take_stretch(&mut self, place: u64, bytes: &[u8], count: usize) -> Result<(), Infallible> {
        self.push_stretch(place, bytes, count);
        Ok(())
    }
}
