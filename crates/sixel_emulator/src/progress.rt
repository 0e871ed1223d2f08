//! How far a model has come in a document, and what is drawn of it.

ghost use Rattle.std.specs.Prelude.{◌≡◌, ◌<◌, ◌+◌, ◌++◌, [], ℕ, IfOk, IsTrue, List, None, Some, length, slice_index};
ghost use Rattle.std.specs.Prelude.{false, suc, true};
ghost use Rattle.sixel_grammar.specs.Bytes.{is_data};
ghost use Rattle.sixel_grammar.specs.declared.command.Event.{Event as AnEvent};
ghost use Rattle.sixel_grammar.specs.declared.command.Placed.{Placed as Place};
ghost use Rattle.sixel_grammar.specs.Document.{events_of};
ghost use Rattle.sixel_terminal.specs.Blanks.{AreBlank};
ghost use Rattle.sixel_terminal.specs.Drawings.{HasDrawn};
ghost use Rattle.sixel_emulator.specs.declared.reading.Reads.{Reads as ReadsValue};
ghost use Rattle.sixel_emulator.specs.Courses.{AreDrawn, AreDrawnAs, AreSixels, IsAt};
ghost use Rattle.sixel_emulator.specs.Modelled.{HasCome, HasPlace, ModelGives, opening_of};
ghost use Rattle.sixel_emulator.specs.Readings.{Model as AModel, carries_on, drawn_by, is_unsaid_control};

use crate::course::Course;
use crate::reading::Reads;
use sixel_grammar::{Command, Event};
use sixel_terminal::Drawing;

/// How far a model has come in a document, and what is drawn of it.
#[derive(Debug, Drop)]
pub(crate) struct Progress {
    pub course: Course,
    /// The offset of the last event that was read. Once the model has ended, that of the event at which it ended.
    pub end: u64,
    pub drawing: Drawing,
}

/// Draws the command, if there is one.
fn open(drawing: &mut Drawing, opening: Option<Command>)
    ensures terminal { drawing.new.terminal ≡ drawing.old.terminal }
    ensures drawn { HasDrawn drawing.old [] → HasDrawn drawing.new (opening_of opening) }
{
    if let Some(command) = opening {
        drawing.push(&Event::Step(command));
    }
}

/// Draws what a terminal makes of an event.
#[inline(always)]
fn draw(drawing: &mut Drawing, reads: Reads)
    ensures terminal { drawing.new.terminal ≡ drawing.old.terminal }
    ensures drawn { (before : List AnEvent) → HasDrawn drawing.old before
        → HasDrawn drawing.new (before ++ drawn_by reads) }
{
    match reads {
        Reads::Draws(command) => drawing.push(&Event::Step(command)),
        Reads::DrawsTwo(first, second) => {
            drawing.push(&Event::Step(first));
            drawing.push(&Event::Step(second));
        }
        Reads::Nothing | Reads::Stops | Reads::Unsaid => {}
    }
}

/// What is drawn of an event of which the terminal makes this. The course is the one after the event.
fn drawn_in(course: Course, reads: Reads) -> Reads
    ensures goes { course ≡ Course.Goes → result ≡ reads }
    ensures otherwise { (course ≡ Course.Goes → ⊥) → drawn_by result ≡ [] }
{
    match course {
        Course::Goes => reads,
        Course::Stopped | Course::Ended => Reads::Nothing,
    }
}

impl Progress {
    /// No event is read. `opening` is drawn.
    pub(crate) fn new(mut drawing: Drawing, opening: Option<Command>) -> Progress
        requires { HasDrawn drawing [] }
        ensures terminal { result.drawing.terminal ≡ drawing.terminal }
        ensures come { (m : AModel) (placed : List Place) → HasCome m (opening_of opening) placed 0 result }
    {
        open(&mut drawing, opening);
        Progress {
            course: Course::new(),
            end: 0,
            drawing,
        }
    }

    /// Reads the event with this offset, where the model hasn't ended.
    #[inline(always)]
    fn go_on(&mut self, place: u64, is_unsaid: bool, reads: Reads)
        ensures terminal { self.new.drawing.terminal ≡ self.old.drawing.terminal }
        ensures come { (m : AModel) (opening : List AnEvent) (placed : List Place) (n : ℕ) (e : AnEvent)
            → (self.old.course ≡ Course.Ended → ⊥)
            → IsAt m (events_of placed) n e reads → is_unsaid ≡ is_unsaid_control m e → HasPlace placed n place
            → HasCome m opening placed n self.old → HasCome m opening placed (suc n) self.new }
    {
        self.course = self.course.after(is_unsaid, reads);
        self.end = place;
        draw(&mut self.drawing, drawn_in(self.course, reads));
    }

    /// Reads one more event, one with this offset, of which the terminal makes this. `is_unsaid` tells whether it is an
    /// 8-bit control that the model doesn't say.
    ///
    /// It is inlined, so that a caller that knows the kind of the event keeps only the code for that kind.
    #[inline(always)]
    pub(crate) fn read(&mut self, place: u64, is_unsaid: bool, reads: Reads)
        ensures terminal { self.new.drawing.terminal ≡ self.old.drawing.terminal }
        ensures come { (m : AModel) (opening : List AnEvent) (placed : List Place) (n : ℕ) (e : AnEvent)
            → IsAt m (events_of placed) n e reads → is_unsaid ≡ is_unsaid_control m e → HasPlace placed n place
            → HasCome m opening placed n self.old → HasCome m opening placed (suc n) self.new }
    {
        match self.course {
            Course::Goes | Course::Stopped => self.go_on(place, is_unsaid, reads),
            Course::Ended => {}
        }
    }

    /// The same, if an event is read.
    #[inline(always)]
    pub(crate) fn read_one(&mut self, place: u64, is_unsaid: bool, reads: Option<Reads>)
        ensures terminal { self.new.drawing.terminal ≡ self.old.drawing.terminal }
        ensures none { reads ≡ None → self.new ≡ self.old }
        ensures come { (made : ReadsValue) → reads ≡ Some made
            → (m : AModel) (opening : List AnEvent) (placed : List Place) (n : ℕ) (e : AnEvent)
            → IsAt m (events_of placed) n e made → is_unsaid ≡ is_unsaid_control m e → HasPlace placed n place
            → HasCome m opening placed n self.old → HasCome m opening placed (suc n) self.new }
    {
        if let Some(reads) = reads {
            self.read(place, is_unsaid, reads);
        }
    }

    /// Reads the sixels of these data bytes, which the terminal draws as they are where the course goes on.
    #[inline(always)]
    pub(crate) fn read_sixels(&mut self, bytes: &[u8])
        requires { (k : ℕ) → k < length bytes.now → IsTrue (is_data (slice_index bytes.now k)) }
        ensures terminal { self.new.drawing.terminal ≡ self.old.drawing.terminal }
        ensures come { (m : AModel) (opening : List AnEvent) (placed : List Place) (n : ℕ)
            → AreDrawn m (events_of placed) n bytes.now → HasCome m opening placed n self.old
            → HasCome m opening placed (n + length bytes.now) self.new }
    {
        match self.course {
            Course::Goes => self.drawing.push_stretch(bytes),
            Course::Stopped | Course::Ended => {}
        }
    }

    /// Reads sixels, or one other event. Where the course goes on, data commands that paint nothing are drawn in place of
    /// them, of so many columns together.
    #[inline(always)]
    pub(crate) fn read_blanks(&mut self, columns: usize)
        ensures terminal { self.new.drawing.terminal ≡ self.old.drawing.terminal }
        ensures one { (m : AModel) (opening : List AnEvent) (placed : List Place) (n : ℕ) (e : AnEvent)
            (reads : ReadsValue) → IsAt m (events_of placed) n e reads → is_unsaid_control m e ≡ false
            → carries_on reads ≡ true → AreBlank self.old.drawing.terminal.choices.zero columns (drawn_by reads)
            → HasCome m opening placed n self.old → HasCome m opening placed (suc n) self.new }
        ensures sixels { (m : AModel) (opening : List AnEvent) (placed : List Place) (n : ℕ) (bytes : List ℕ)
            (drawn : List AnEvent) → AreDrawnAs m (events_of placed) n bytes drawn
            → AreBlank self.old.drawing.terminal.choices.zero columns drawn → HasCome m opening placed n self.old
            → HasCome m opening placed (n + length bytes) self.new }
    {
        match self.course {
            Course::Goes => self.drawing.push_blanks(columns),
            Course::Stopped | Course::Ended => {}
        }
    }

    /// Whether nothing is drawn of sixels that come next, whatever they are: the model has stopped or ended.
    /// `false` says nothing.
    #[inline(always)]
    pub(crate) fn is_over(&self) -> bool
        ensures { result ≡ true → (m : AModel) (opening : List AnEvent) (placed : List Place) (n : ℕ)
            (bytes : List ℕ) → AreSixels (events_of placed) n bytes → HasCome m opening placed n self.now
            → HasCome m opening placed (n + length bytes) self.now }
    {
        match self.course {
            Course::Goes => false,
            Course::Stopped | Course::Ended => true,
        }
    }

    /// The drawing of all events, or the offset of the event at which the model ends.
    pub(crate) fn finish(self) -> Result<Drawing, u64>
        ensures terminal { IfOk result (λ d. d.terminal ≡ self.drawing.terminal) }
        ensures gives { (m : AModel) (opening : List AnEvent) (placed : List Place)
            → HasCome m opening placed (length placed) self → ModelGives m opening placed result }
    {
        let Progress {
            course,
            end,
            drawing,
        } = self;
        match course {
            Course::Goes | Course::Stopped => Ok(drawing),
            Course::Ended => Err(end),
        }
    }
}
