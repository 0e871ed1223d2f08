//! How far a model has come in a string.

ghost use Rattle.std.specs.Prelude.{◌≡◌, ℕ, List, suc};
ghost use Rattle.sixel_grammar.specs.declared.command.Event.{Event as AnEvent};
ghost use Rattle.sixel_emulator.specs.Courses.{IsAt, IsCourse, course_by, next_course};
ghost use Rattle.sixel_emulator.specs.Readings.{Model as AModel, is_unsaid_control};

use crate::reading::Reads;

/// How a model goes through a string.
#[derive(Clone, Copy, Debug, PartialEq, Eq)]
pub enum Course {
    /// It goes on.
    Goes,
    /// An event stopped the drawing.
    Stopped,
    /// The model doesn't say what the terminal does at an event.
    Ended,
}

/// The course after an event of which the terminal makes this, where no event before stopped.
fn course_by(reads: Reads) -> Course
    ensures { result ≡ course_by reads }
{
    match reads {
        Reads::Nothing | Reads::Draws(_) | Reads::DrawsTwo(_, _) => Course::Goes,
        Reads::Stops => Course::Stopped,
        Reads::Unsaid => Course::Ended,
    }
}

impl Course {
    /// The course before any event.
    pub fn new() -> Course
        ensures { (m : AModel) (events : List AnEvent) → IsCourse m events 0 result }
    {
        Course::Goes
    }

    fn next(self, is_unsaid: bool, reads: Reads) -> Course
        ensures { result ≡ next_course self is_unsaid reads }
    {
        match self {
            Course::Ended => Course::Ended,
            _ if is_unsaid => Course::Ended,
            Course::Stopped => Course::Stopped,
            Course::Goes => course_by(reads),
        }
    }

    /// The course with one more event, of which the terminal makes this. `is_unsaid` tells whether the event is an
    /// 8-bit control that the model doesn't say.
    pub fn after(self, is_unsaid: bool, reads: Reads) -> Course
        ensures { (m : AModel) (events : List AnEvent) (n : ℕ) (e : AnEvent) → IsAt m events n e reads
            → is_unsaid ≡ is_unsaid_control m e → IsCourse m events n self → IsCourse m events (suc n) result }
    {
        self.next(is_unsaid, reads)
    }
}
