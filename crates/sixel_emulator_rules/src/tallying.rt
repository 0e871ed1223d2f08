//! Counts how often each rule is broken that a set of terminals asks for, while a document is read.

ghost use Rattle.std.specs.Prelude.{◌≡◌, ◌++◌, ◌∷◌, ◌<◌, ◌+◌, ◌≤◌, [], ℕ, IsTrue, List, None, length, slice_index};
ghost use Rattle.std.specs.Prelude.{◌-◌, slice_set, take, true};
ghost use Rattle.sixel_grammar.specs.Bytes.{is_data};
ghost use Rattle.sixel_grammar.specs.Document.{Document, most_bytes};
ghost use Rattle.sixel_grammar.specs.Stretches.{sixels_from};
ghost use Rattle.sixel_grammar.specs.declared.command.Command.TheVariants.{Repeat};
ghost use Rattle.sixel_grammar.specs.declared.command.Event.TheVariants.{Step};
ghost use Rattle.sixel_grammar.specs.declared.command.Placed.{Placed as PlacedValue};
ghost use Rattle.sixel_model.specs.Events.{is_data_command};
ghost use Rattle.sixel_emulator_rules.specs.Asked.{number_of};
ghost use Rattle.sixel_emulator_rules.specs.Asking.{placed_at};
ghost use Rattle.sixel_emulator_rules.specs.Counts.{asked_in, first_in, is_calm_in};
ghost use Rattle.sixel_emulator_rules.specs.Tallies.{AreAskedEntries};
ghost use Rattle.sixel_emulator_rules.specs.Tallying.{HasTallied, HasTalliedOn, TalliesOn, next_tally, tallied};
ghost use Rattle.sixel_emulator_rules.specs.Tallying.{tallied_each};

use crate::events::columns_of;
use crate::notes::Notes;
use crate::rule::{ASKED_COUNT, AskedRule};
use crate::tally::{AskedEntries, AskedEntry, begun, counted, entries_of, put, tally_of};
use crate::terminals::Terminals;
use sixel_grammar::{Command, Event, Follower, Placed};
use std::convert::Infallible;

/// The most sixels that are taken in one step.
const MOST_AT_ONCE: usize = 32767;

/// Takes the events of a document, and counts for each rule that one of the terminals asks for.
#[derive(Debug, Drop)]
pub struct Tallying {
    terminals: Terminals,
    notes: Notes,
    /// For each rule, in order of number: where it counted first, and how often it counted.
    tallies: [Option<AskedEntry>; ASKED_COUNT],
}

impl Tallying {
    /// No event has come.
    pub fn new(terminals: Terminals) -> Tallying
        ensures tallied { HasTallied result [] }
        ensures terminals { result.terminals ≡ terminals }
    {
        Tallying {
            terminals,
            notes: Notes::new(),
            tallies: [None; ASKED_COUNT],
        }
    }

    /// The entries of the rules that are asked for and count anywhere in the document, in order of number.
    pub fn entries(&self) -> AskedEntries
        ensures { (placed : List PlacedValue) (bytes : List ℕ) → HasTallied self.now placed → Document placed bytes
            → AreAskedEntries self.now.terminals placed result.items }
    {
        entries_of(&self.tallies)
    }

    /// Whether the rule is asked for, and the event breaks it.
    #[inline(always)]
    fn counts(&self, rule: AskedRule, event: &Event) -> bool
        ensures { result ≡ asked_in self.now.terminals self.now.notes event.now rule }
    {
        self.terminals.asks_for(rule) && self.notes.breaks(rule, event)
    }

    /// Begins the tally of a rule, by an event with this offset. It is a call: so little is written for a rule that has
    /// counted before.
    #[inline(never)]
    fn begin(&mut self, rule: AskedRule, place: u64)
        ensures { self.new ≡ record self.old {
          tallies =
              slice_set self.old.tallies (number_of rule - 14) (next_tally rule place true None);
        } }
    {
        put(&mut self.tallies, rule, Some(begun(rule, place)));
    }

    /// Counts the event for the rule.
    #[inline(always)]
    fn count(&mut self, rule: AskedRule, place: u64, event: &Event)
        ensures { self.new ≡ record self.old {
          tallies = tallied self.old.terminals self.old.notes place event.now self.old.tallies rule;
        } }
    {
        if self.counts(rule, event) {
            match tally_of(&self.tallies, rule) {
                None => self.begin(rule, place),
                Some(tally) => put(&mut self.tallies, rule, Some(counted(tally))),
            }
        }
    }

    /// Counts the event for each rule.
    #[inline(always)]
    fn count_each(&mut self, place: u64, event: &Event)
        ensures { self.new ≡ record self.old {
          tallies = tallied_each self.old.terminals self.old.notes place event.now self.old.tallies;
        } }
    {
        self.count(AskedRule::RasterLate, place, event);
        self.count(AskedRule::Dropped, place, event);
        self.count(AskedRule::Stale, place, event);
        self.count(AskedRule::Large, place, event);
        self.count(AskedRule::Rows, place, event);
        self.count(AskedRule::Past, place, event);
        self.count(AskedRule::Hue, place, event);
        self.count(AskedRule::Far, place, event);
        self.count(AskedRule::Introducer, place, event);
        self.count(AskedRule::Bare, place, event);
        self.count(AskedRule::SpaceAfter, place, event);
    }

    /// Counts a sixel or a repeat for each rule. It can break only these three.
    #[inline(always)]
    fn count_data(&mut self, place: u64, event: &Event)
        requires { is_data_command event.now ≡ true }
        ensures { self.new ≡ record self.old {
          tallies = tallied_each self.old.terminals self.old.notes place event.now self.old.tallies;
        } }
    {
        self.count(AskedRule::Stale, place, event);
        self.count(AskedRule::Past, place, event);
        self.count(AskedRule::Far, place, event);
    }

    /// Takes a sixel or a repeat.
    #[inline(always)]
    fn push_data(&mut self, place: u64, event: &Event)
        requires { is_data_command event.now ≡ true }
        ensures terminals { self.new.terminals ≡ self.old.terminals }
        ensures taken { (seen : List PlacedValue) → HasTallied self.old seen
            → HasTallied self.new (seen ++ placed_at place event.now ∷ []) }
    {
        self.count_data(place, event);
        self.notes.pass(u32::from(columns_of(event)));
    }

    /// Takes a repeat that may break a rule.
    #[inline(never)]
    fn push_far_repeat(&mut self, place: u64, count: u16, bits: u8)
        ensures terminals { self.new.terminals ≡ self.old.terminals }
        ensures taken { (seen : List PlacedValue) → HasTallied self.old seen
            → HasTallied self.new (seen ++ placed_at place (Step (Repeat count bits)) ∷ []) }
    {
        self.push_data(place, &Event::Step(Command::Repeat { count, bits }));
    }

    /// Takes the next event.
    ///
    /// It is inlined, so that a caller that knows the kind of the event keeps only the code for that kind.
    #[inline(always)]
    fn push(&mut self, place: u64, event: &Event)
        ensures terminals { self.new.terminals ≡ self.old.terminals }
        ensures taken { (seen : List PlacedValue) → HasTallied self.old seen
            → HasTallied self.new (seen ++ placed_at place event.now ∷ []) }
    {
        self.count_each(place, event);
        self.notes.take(event);
    }

    /// Takes the next event, of a kind that is rare.
    #[inline(never)]
    fn push_rarely(&mut self, place: u64, event: &Event)
        ensures terminals { self.new.terminals ≡ self.old.terminals }
        ensures taken { (seen : List PlacedValue) → HasTallied self.old seen
            → HasTallied self.new (seen ++ placed_at place event.now ∷ []) }
    {
        self.push(place, event);
    }

    /// Takes an event at which no rule counts.
    #[inline(always)]
    fn pass_by(&mut self, event: &Event)
        requires { first_in self.old.terminals self.old.notes event.now ≡ None }
        ensures terminals { self.new.terminals ≡ self.old.terminals }
        ensures taken { (place : ℕ) (seen : List PlacedValue) → HasTallied self.old seen
            → HasTallied self.new (seen ++ placed_at place event.now ∷ []) }
    {
        self.notes.take(event);
    }

    /// Takes a repeat.
    #[inline(always)]
    fn push_repeat(&mut self, place: u64, count: u16, bits: u8)
        ensures terminals { self.new.terminals ≡ self.old.terminals }
        ensures taken { (seen : List PlacedValue) → HasTallied self.old seen
            → HasTallied self.new (seen ++ placed_at place (Step (Repeat count bits)) ∷ []) }
    {
        if self.is_calm(u32::from(count)) {
            self.pass_by(&Event::Step(Command::Repeat { count, bits }));
        } else {
            self.push_far_repeat(place, count, bits);
        }
    }

    /// Takes a command. Each kind that is frequent gets its own inlined call, with the code for that kind alone.
    #[inline(always)]
    fn push_command(&mut self, place: u64, command: Command)
        ensures terminals { self.new.terminals ≡ self.old.terminals }
        ensures taken { (seen : List PlacedValue) → HasTallied self.old seen
            → HasTallied self.new (seen ++ placed_at place (Step command) ∷ []) }
    {
        match command {
            Command::CarriageReturn if !self.notes.droppable => {
                self.pass_by(&Event::Step(Command::CarriageReturn));
            }
            Command::NextLine if !self.notes.droppable => {
                self.pass_by(&Event::Step(Command::NextLine));
            }
            Command::Select(register) => self.pass_by(&Event::Step(Command::Select(register))),
            Command::Repeat { count, bits } => self.push_repeat(place, count, bits),
            other => self.push_rarely(place, &Event::Step(other)),
        }
    }

    /// Takes sixels one by one.
    #[inline(never)]
    fn push_each(&mut self, place: u64, stretch: &[u8])
        requires sixels { (k : ℕ) → k < length stretch.now → IsTrue (is_data (slice_index stretch.now k)) }
        requires place { place + length stretch.now ≤ most_bytes }
        ensures { TalliesOn self.old self.new (sixels_from place stretch.now) }
    {
        for (index, byte) in stretch.iter().enumerate() {
            let event = Event::Step(Command::Sixel(byte - b'?'));
            self.push_data(place + index as u64, &event);
        }
    }

    /// Whether none of so many sixels can break a rule that is asked for.
    #[inline(always)]
    fn is_calm(&self, columns: u32) -> bool
        ensures { result ≡ is_calm_in self.now.terminals self.now.notes columns }
    {
        (!self.terminals.asks_where() || self.notes.is_near(columns))
            && !(self.terminals.asks_for(AskedRule::Stale) && self.notes.is_stale())
    }

    /// Takes the sixels of the first `count` of these bytes.
    #[inline(always)]
    fn push_stretch(&mut self, place: u64, bytes: &[u8], count: usize)
        requires sixels { (k : ℕ) → k < count → IsTrue (is_data (slice_index bytes.now k)) }
        requires within { (0 < count) × (count ≤ length bytes.now) }
        requires limit { place + count ≤ most_bytes }
        ensures { TalliesOn self.old self.new (sixels_from place (take count bytes.now)) }
    {
        if count <= MOST_AT_ONCE && self.is_calm(count as u32) {
            self.notes.pass(count as u32);
            return;
        }
        self.push_each(place, &bytes[..count]);
    }
}

impl Follower for Tallying {
    type Stop = Infallible;

    ghost has_taken = { HasTalliedOn };

    ghost may_stop = { λ first now stop seen. ⊥ };

    #[inline(never)]
    fn take(&mut self, placed: &Placed) -> Result<(), Infallible> {
        self.push(placed.place, &placed.event);
        Ok(())
    }

    #[inline(never)]
    fn take_command(&mut self, place: u64, command: Command) -> Result<(), Infallible> {
        self.push_command(place, command);
        Ok(())
    }

    #[inline(never)]
    fn take_select(&mut self, place: u64, register: u16) -> Result<(), Infallible> {
        self.push_command(place, Command::Select(register));
        Ok(())
    }

    #[inline(never)]
    fn take_repeat(&mut self, place: u64, count: u16, bits: u8) -> Result<(), Infallible> {
        self.push_repeat(place, count, bits);
        Ok(())
    }

    #[inline(never)]
    fn take_stretch(&mut self, place: u64, bytes: &[u8], count: usize) -> Result<(), Infallible> {
        self.push_stretch(place, bytes, count);
        Ok(())
    }
}
