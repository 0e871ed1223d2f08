//! Which part of a document the events have reached.

ghost use Rattle.std.specs.Prelude.{◌≡◌};
ghost use Rattle.sixel_judge.specs.Standing.{expects_from, is_whole_at, progress_with};

use crate::events::{is_finish, is_start};
use sixel_grammar::Event;

/// The part that the events have reached.
#[derive(Clone, Copy, Debug)]
pub(crate) enum Progress {
    /// No event yet.
    Fresh,
    /// A start, and any number of commands.
    Begun,
    /// The finish.
    Whole,
}

impl Progress {
    /// Whether the event may come next.
    pub(crate) fn expects(&self, event: &Event) -> bool
        ensures { result ≡ expects_from self.now event.now }
    {
        match self {
            Progress::Fresh => is_start(event),
            Progress::Begun => !is_start(event),
            Progress::Whole => false,
        }
    }

    pub(crate) fn is_whole(&self) -> bool
        ensures { result ≡ is_whole_at self.now }
    {
        matches!(self, Progress::Whole)
    }

    /// The progress after this event, which must have been expected.
    pub(crate) fn with(event: &Event) -> Progress
        ensures { result ≡ progress_with event.now }
    {
        if is_finish(event) {
            Progress::Whole
        } else {
            Progress::Begun
        }
    }
}
