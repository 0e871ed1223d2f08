//! Draws what a model makes of a document, while the document is read.

mod commands;
mod cutting;

ghost use Rattle.std.specs.Prelude.{◌≡◌, ◌<◌, ◌≤◌, ◌+◌, ◌++◌, ◌∷◌, [], ℕ, IfOk, IsTrue, List, None, Option};
ghost use Rattle.std.specs.Prelude.{Some, length, slice_index, take, true};
ghost use Rattle.sixel_grammar.specs.Bytes.{is_data};
ghost use Rattle.sixel_grammar.specs.Document.{most_bytes};
ghost use Rattle.sixel_grammar.specs.Stretches.{sixels_from};
ghost use Rattle.sixel_grammar.specs.declared.command.Command.TheVariants.{Repeat, Select};
ghost use Rattle.sixel_grammar.specs.declared.command.Event.{Event as AnEvent};
ghost use Rattle.sixel_grammar.specs.declared.command.Event.TheVariants.{Step};
ghost use Rattle.sixel_grammar.specs.declared.command.Placed.{Placed as Place};
ghost use Rattle.sixel_terminal.specs.Drawings.{HasDrawn};
ghost use Rattle.sixel_emulator.specs.Modelled.{AreUnsaidBy, HasFollowed, HasFollowedOn, ModelGives, opening_of};
ghost use Rattle.sixel_emulator.specs.Modelled.{first_at, placed_at, with_first, with_waiting};
ghost use Rattle.sixel_emulator.specs.declared.reading.Reads.TheVariants.{Draws};
ghost use Rattle.sixel_emulator.specs.Readings.{ArePlainSixels, Model as AModel, is_unsaid_control};

use crate::progress::Progress;
use crate::reading::{Reading, Reads};
use crate::waiting::Waiting;
use crate::words::{same, sixel};
use sixel_grammar::{Command, Event, Follower, Placed};
use sixel_terminal::Drawing;
use std::convert::Infallible;

/// The 8-bit controls that a model doesn't say.
#[derive(Clone, Copy, Debug, PartialEq, Eq)]
pub struct UnsaidControls {
    pub introducer: bool,
    pub terminator: bool,
}

impl UnsaidControls {
    /// Whether the event is one of them.
    fn has(self, event: &Event) -> bool
        ensures { (m : AModel) → AreUnsaidBy m self → result ≡ is_unsaid_control m event.now }
    {
        match event {
            Event::Start { eight, .. } => *eight & self.introducer,
            Event::Step(_) => false,
            Event::Finish { eight } => *eight & self.terminator,
        }
    }
}

/// A drawing of what a model makes of a document.
///
/// The event that came last waits for the next one. Once the model has ended, nothing more is drawn.
#[derive(Debug, Drop)]
pub struct Modelled<R> {
    waiting: Waiting<R>,
    /// The offset of the event that waits, if one does.
    place: u64,
    progress: Progress,
    controls: UnsaidControls,
}

impl<R: Reading> Modelled<R> {
    /// A drawing before any event, by a reading that has read none. It draws `opening` first: what the model draws
    /// before the first event. `controls` are the 8-bit controls that the model doesn't say.
    pub fn new(
        reading: R,
        controls: UnsaidControls,
        drawing: Drawing,
        opening: Option<Command>,
    ) -> Modelled<R>
        requires seen { R.has_seen reading [] }
        requires controls { AreUnsaidBy R.model controls }
        requires drawn { HasDrawn drawing [] }
        ensures terminal { result.progress.drawing.terminal ≡ drawing.terminal }
        ensures followed { HasFollowed R.model R.has_seen result (opening_of opening) [] }
    {
        Modelled {
            waiting: Waiting::new(reading),
            place: 0,
            progress: Progress::new(drawing, opening),
            controls,
        }
    }

    /// Whether the event that waits is an 8-bit control that the model doesn't say.
    fn waits_at_unsaid(&self) -> bool
        ensures { (m : AModel) (e : AnEvent) → AreUnsaidBy m self.now.controls → self.now.waiting.pending ≡ Some e
            → result ≡ is_unsaid_control m e }
    {
        match &self.waiting.pending {
            Some(event) => self.controls.has(event),
            None => false,
        }
    }

    /// Reads the event that waits, if there is one. `next` comes after it. None waits then.
    #[inline(never)]
    fn settle_waiting(&mut self, next: &Event)
        ensures terminal { self.new.progress.drawing.terminal ≡ self.old.progress.drawing.terminal }
        ensures pending { self.new.waiting.pending ≡ None }
        ensures followed { (opening : List AnEvent) (before : List Place) (place : ℕ)
            → HasFollowed R.model R.has_seen self.old opening before
            → HasFollowed R.model R.has_seen (with_waiting self.new place next.now) opening
            (before ++ placed_at place next.now ∷ []) }
    {
        let is_unsaid = self.waits_at_unsaid();
        let reads = self.waiting.settle(Some(next));
        self.progress.read_one(self.place, is_unsaid, reads);
    }

    /// The same, if this select waits. Most that wait are selects.
    #[inline(always)]
    fn read_select(&mut self, register: u16, next: &Event)
        requires { self.old.waiting.pending ≡ Some (Step (Select register)) }
        ensures terminal { self.new.progress.drawing.terminal ≡ self.old.progress.drawing.terminal }
        ensures pending { self.new.waiting.pending ≡ None }
        ensures followed { (opening : List AnEvent) (before : List Place) (place : ℕ)
            → HasFollowed R.model R.has_seen self.old opening before
            → HasFollowed R.model R.has_seen (with_waiting self.new place next.now) opening
            (before ++ placed_at place next.now ∷ []) }
    {
        let select = Event::Step(Command::Select(register));
        let reads = self.waiting.reading.read(&select, Some(next));
        self.waiting.pending = None;
        self.progress.read(self.place, false, reads);
    }

    /// The same, and not inlined.
    #[inline(never)]
    fn settle_select(&mut self, register: u16, next: &Event)
        requires { self.old.waiting.pending ≡ Some (Step (Select register)) }
        ensures terminal { self.new.progress.drawing.terminal ≡ self.old.progress.drawing.terminal }
        ensures pending { self.new.waiting.pending ≡ None }
        ensures followed { (opening : List AnEvent) (before : List Place) (place : ℕ)
            → HasFollowed R.model R.has_seen self.old opening before
            → HasFollowed R.model R.has_seen (with_waiting self.new place next.now) opening
            (before ++ placed_at place next.now ∷ []) }
    {
        self.read_select(register, next);
    }

    /// Reads the event that waits, if there is one. It is fast if that is a select.
    #[inline(always)]
    fn settle_behind(&mut self, next: &Event)
        ensures terminal { self.new.progress.drawing.terminal ≡ self.old.progress.drawing.terminal }
        ensures pending { self.new.waiting.pending ≡ None }
        ensures followed { (opening : List AnEvent) (before : List Place) (place : ℕ)
            → HasFollowed R.model R.has_seen self.old opening before
            → HasFollowed R.model R.has_seen (with_waiting self.new place next.now) opening
            (before ++ placed_at place next.now ∷ []) }
    {
        match &self.waiting.pending {
            Some(Event::Step(Command::Select(register))) => {
                let register = *register;
                self.read_select(register, next);
            }
            Some(_) => self.settle_waiting(next),
            None => {}
        }
    }

    /// The same, and fast if none waits.
    #[inline(always)]
    fn settle(&mut self, next: &Event)
        ensures terminal { self.new.progress.drawing.terminal ≡ self.old.progress.drawing.terminal }
        ensures pending { self.new.waiting.pending ≡ None }
        ensures followed { (opening : List AnEvent) (before : List Place) (place : ℕ)
            → HasFollowed R.model R.has_seen self.old opening before
            → HasFollowed R.model R.has_seen (with_waiting self.new place next.now) opening
            (before ++ placed_at place next.now ∷ []) }
    {
        match &self.waiting.pending {
            Some(Event::Step(Command::Select(register))) => {
                let register = *register;
                self.settle_select(register, next);
            }
            Some(_) => self.settle_waiting(next),
            None => {}
        }
    }

    /// Reads the event that comes next, with its offset, where none waits. What the terminal makes of it doesn't hang
    /// on the one after it.
    #[inline(always)]
    fn read_now(&mut self, place: u64, event: &Event)
        requires none { self.old.waiting.pending ≡ None }
        requires alone { (before : List AnEvent) (next : Option AnEvent)
            → R.model.rule before event.now next ≡ R.model.rule before event.now None }
        ensures terminal { self.new.progress.drawing.terminal ≡ self.old.progress.drawing.terminal }
        ensures followed { (opening : List AnEvent) (before : List Place)
            → HasFollowed R.model R.has_seen (with_waiting self.old place event.now) opening
            (before ++ placed_at place event.now ∷ [])
            → HasFollowed R.model R.has_seen self.new opening (before ++ placed_at place event.now ∷ []) }
    {
        let is_unsaid = self.controls.has(event);
        let reads = self.waiting.reading.read(event, None);
        self.progress.read(place, is_unsaid, reads);
    }

    /// Takes the event that comes next, with its offset, where none waits.
    #[inline(always)]
    fn add(&mut self, place: u64, event: Event)
        requires { self.old.waiting.pending ≡ None }
        ensures terminal { self.new.progress.drawing.terminal ≡ self.old.progress.drawing.terminal }
        ensures followed { (opening : List AnEvent) (before : List Place)
            → HasFollowed R.model R.has_seen (with_waiting self.old place event) opening
            (before ++ placed_at place event ∷ [])
            → HasFollowed R.model R.has_seen self.new opening (before ++ placed_at place event ∷ []) }
    {
        if self.waiting.reading.waits(&event) {
            self.waiting.pending = Some(event);
            self.place = place;
        } else {
            self.read_now(place, &event);
        }
    }

    /// Takes the event that comes next, with its offset.
    ///
    /// It is inlined, so that a caller that knows the kind of the event keeps only the code for that kind.
    #[inline(always)]
    pub(crate) fn push(&mut self, place: u64, event: Event)
        ensures terminal { self.new.progress.drawing.terminal ≡ self.old.progress.drawing.terminal }
        ensures followed { (opening : List AnEvent) (before : List Place)
            → HasFollowed R.model R.has_seen self.old opening before
            → HasFollowed R.model R.has_seen self.new opening (before ++ placed_at place event ∷ []) }
    {
        self.settle(&event);
        self.add(place, event);
    }

    /// Takes the first of these sixels, and those after it that are drawn as they are, or all if none of them paints.
    /// Gives how many it took.
    fn push_some(&mut self, place: u64, bytes: &[u8]) -> usize
        requires sixels { (k : ℕ) → k < length bytes.now → IsTrue (is_data (slice_index bytes.now k)) }
        requires some { 0 < length bytes.now }
        requires limit { place + length bytes.now ≤ most_bytes }
        ensures terminal { self.new.progress.drawing.terminal ≡ self.old.progress.drawing.terminal }
        ensures counts { (0 < result) × (result ≤ length bytes.now) }
        ensures followed { (opening : List AnEvent) (before : List Place)
            → HasFollowed R.model R.has_seen self.old opening before
            → HasFollowed R.model R.has_seen self.new opening (before ++ sixels_from place (take result bytes.now)) }
    {
        let first = sixel(bytes[0]);
        self.settle(&first);
        let plain = self.waiting.reading.plain_sixels().min(bytes.len());
        if plain == 0 {
            return self.add_some(place, bytes);
        }
        self.progress.read_sixels(&bytes[..plain]);
        self.waiting.reading.note_sixels(&bytes[..plain]);
        plain
    }

    /// Takes the sixels of these data bytes, in order. The first has the offset `place`.
    #[inline(never)]
    fn push_each(&mut self, place: u64, bytes: &[u8])
        requires sixels { (k : ℕ) → k < length bytes.now → IsTrue (is_data (slice_index bytes.now k)) }
        requires limit { place + length bytes.now ≤ most_bytes }
        ensures terminal { self.new.progress.drawing.terminal ≡ self.old.progress.drawing.terminal }
        ensures followed { (opening : List AnEvent) (before : List Place)
            → HasFollowed R.model R.has_seen self.old opening before
            → HasFollowed R.model R.has_seen self.new opening (before ++ sixels_from place bytes.now) }
    {
        let mut taken = 0;
        while taken < bytes.len() {
            taken += self.push_some(place + taken as u64, &bytes[taken..]);
        }
    }

    /// Whether the sixels of these data bytes are drawn as they are, if they come next. `false` says nothing.
    #[inline(always)]
    fn draws_sixels(&self, bytes: &[u8]) -> bool
        ensures { result ≡ true → (before : List AnEvent) → R.has_seen self.now.waiting.reading before
            → ArePlainSixels R.model.rule before bytes.now }
    {
        bytes.len() <= self.waiting.reading.plain_sixels()
    }

    /// Takes the sixels of these data bytes, at least one, where none waits.
    #[inline(never)]
    fn push_settled(&mut self, place: u64, bytes: &[u8])
        requires sixels { (k : ℕ) → k < length bytes.now → IsTrue (is_data (slice_index bytes.now k)) }
        requires some { 0 < length bytes.now }
        requires limit { place + length bytes.now ≤ most_bytes }
        requires none { self.old.waiting.pending ≡ None }
        ensures terminal { self.new.progress.drawing.terminal ≡ self.old.progress.drawing.terminal }
        ensures followed { (opening : List AnEvent) (before : List Place)
            → HasFollowed R.model R.has_seen (with_first self.old place bytes.now) opening
            (before ++ first_at place bytes.now)
            → HasFollowed R.model R.has_seen self.new opening (before ++ sixels_from place bytes.now) }
    {
        let taken = self.add_some(place, bytes);
        if taken < bytes.len() {
            self.push_each(place + taken as u64, &bytes[taken..]);
        }
    }

    /// The same, where all are drawn as they are.
    #[inline(always)]
    fn push_plain(&mut self, bytes: &[u8])
        requires sixels { (k : ℕ) → k < length bytes.now → IsTrue (is_data (slice_index bytes.now k)) }
        requires some { 0 < length bytes.now }
        requires none { self.old.waiting.pending ≡ None }
        requires plain { (before : List AnEvent) → R.has_seen self.old.waiting.reading before
            → ArePlainSixels R.model.rule before bytes.now }
        ensures terminal { self.new.progress.drawing.terminal ≡ self.old.progress.drawing.terminal }
        ensures followed { (opening : List AnEvent) (before : List Place) (place : ℕ)
            → HasFollowed R.model R.has_seen (with_first self.old place bytes.now) opening
            (before ++ first_at place bytes.now)
            → HasFollowed R.model R.has_seen self.new opening (before ++ sixels_from place bytes.now) }
    {
        self.waiting.reading.note_sixels(bytes);
        self.progress.read_sixels(bytes);
    }

    /// The same as `push_each` of at least one, and fast where all are drawn as they are.
    #[inline(never)]
    fn push_behind(&mut self, place: u64, bytes: &[u8])
        requires sixels { (k : ℕ) → k < length bytes.now → IsTrue (is_data (slice_index bytes.now k)) }
        requires some { 0 < length bytes.now }
        requires limit { place + length bytes.now ≤ most_bytes }
        ensures terminal { self.new.progress.drawing.terminal ≡ self.old.progress.drawing.terminal }
        ensures followed { (opening : List AnEvent) (before : List Place)
            → HasFollowed R.model R.has_seen self.old opening before
            → HasFollowed R.model R.has_seen self.new opening (before ++ sixels_from place bytes.now) }
    {
        self.settle_behind(&sixel(bytes[0]));
        if self.draws_sixels(bytes) {
            self.push_plain(bytes);
        } else {
            self.push_settled(place, bytes);
        }
    }

    /// The same, and faster where none waits.
    #[inline(always)]
    pub(crate) fn push_stretch(&mut self, place: u64, bytes: &[u8])
        requires sixels { (k : ℕ) → k < length bytes.now → IsTrue (is_data (slice_index bytes.now k)) }
        requires some { 0 < length bytes.now }
        requires limit { place + length bytes.now ≤ most_bytes }
        ensures terminal { self.new.progress.drawing.terminal ≡ self.old.progress.drawing.terminal }
        ensures followed { (opening : List AnEvent) (before : List Place)
            → HasFollowed R.model R.has_seen self.old opening before
            → HasFollowed R.model R.has_seen self.new opening (before ++ sixels_from place bytes.now) }
    {
        // There is one: the test spares others in what is inlined here.
        if !bytes.is_empty() && self.waiting.pending.is_none() && self.draws_sixels(bytes) {
            self.push_plain(bytes);
        } else {
            self.push_behind(place, bytes);
        }
    }

    /// Takes a repeat with its offset, where none waits and it is drawn as it is.
    #[inline(always)]
    fn push_plain_repeat(&mut self, place: u64, count: u16, bits: u8)
        requires none { self.old.waiting.pending ≡ None }
        requires plain { (before : List AnEvent) (next : Option AnEvent)
            → R.has_seen self.old.waiting.reading before
            → R.model.rule before (Step (Repeat count bits)) next ≡ Draws (Repeat count bits) }
        ensures terminal { self.new.progress.drawing.terminal ≡ self.old.progress.drawing.terminal }
        ensures followed { (opening : List AnEvent) (before : List Place)
            → HasFollowed R.model R.has_seen (with_waiting self.old place (Step (Repeat count bits))) opening
            (before ++ placed_at place (Step (Repeat count bits)) ∷ [])
            → HasFollowed R.model R.has_seen self.new opening
            (before ++ placed_at place (Step (Repeat count bits)) ∷ []) }
    {
        self.waiting.reading.note_repeat(count, bits);
        let reads = Reads::Draws(Command::Repeat { count, bits });
        self.progress.read(place, false, reads);
    }

    /// Takes any repeat, with its offset. It is fast for one that is drawn as it is.
    #[inline(never)]
    fn push_repeat(&mut self, place: u64, count: u16, bits: u8)
        ensures terminal { self.new.progress.drawing.terminal ≡ self.old.progress.drawing.terminal }
        ensures followed { (opening : List AnEvent) (before : List Place)
            → HasFollowed R.model R.has_seen self.old opening before
            → HasFollowed R.model R.has_seen self.new opening
            (before ++ placed_at place (Step (Repeat count bits)) ∷ []) }
    {
        self.settle_behind(&Event::Step(Command::Repeat { count, bits }));
        if self.waiting.reading.is_plain_repeat(count, bits) {
            self.push_plain_repeat(place, count, bits);
        } else {
            self.add_repeat(place, count, bits);
        }
    }

    /// The same, and faster for one without a set bit, where none waits. Most long repeats are blank.
    #[inline(always)]
    pub(crate) fn push_blank_or_other(&mut self, place: u64, count: u16, bits: u8)
        ensures terminal { self.new.progress.drawing.terminal ≡ self.old.progress.drawing.terminal }
        ensures followed { (opening : List AnEvent) (before : List Place)
            → HasFollowed R.model R.has_seen self.old opening before
            → HasFollowed R.model R.has_seen self.new opening
            (before ++ placed_at place (Step (Repeat count bits)) ∷ []) }
    {
        if bits % 64 == 0
            && self.waiting.pending.is_none()
            && self.waiting.reading.is_plain_repeat(count, bits)
        {
            self.push_plain_repeat(place, count, bits);
        } else {
            self.push_repeat(place, count, bits);
        }
    }
}

impl<R: Reading + Drop> Modelled<R> {
    /// The drawing of the document, or the offset of the event at which the model ends.
    pub fn finish(self) -> Result<Drawing, u64>
        ensures terminal { IfOk result (λ d. d.terminal ≡ self.progress.drawing.terminal) }
        ensures gives { (opening : List AnEvent) (placed : List Place)
            → HasFollowed R.model R.has_seen self opening placed → ModelGives R.model opening placed result }
    {
        let is_unsaid = self.waits_at_unsaid();
        let Modelled {
            mut waiting,
            place,
            mut progress,
            controls: _,
        } = self;
        let reads = waiting.settle(None);
        progress.read_one(place, is_unsaid, reads);
        progress.finish()
    }
}

impl<R: Reading> Follower for Modelled<R> {
    type Stop = Infallible;

    ghost has_taken = { HasFollowedOn R.model R.has_seen };

    ghost may_stop = { λ first now stop seen. ⊥ };

    fn take(&mut self, placed: &Placed) -> Result<(), Infallible> {
        self.push(placed.place, same(&placed.event));
        Ok(())
    }

    fn take_command(&mut self, place: u64, command: Command) -> Result<(), Infallible> {
        self.push_command(place, command);
        Ok(())
    }

    fn take_select(&mut self, place: u64, register: u16) -> Result<(), Infallible> {
        self.push(place, Event::Step(Command::Select(register)));
        Ok(())
    }

    fn take_repeat(&mut self, place: u64, count: u16, bits: u8) -> Result<(), Infallible> {
        self.push_blank_or_other(place, count, bits);
        Ok(())
    }

    fn take_stretch(&mut self, place: u64, bytes: &[u8], count: usize) -> Result<(), Infallible> {
        self.push_stretch(place, &bytes[..count]);
        Ok(())
    }
}
