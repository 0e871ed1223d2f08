//! Reads events once the one after them is known.

ghost use Rattle.std.specs.Prelude.{◌≡◌, ◌++◌, None, List};
ghost use Rattle.std.specs.Option.{option_map, option_to_list};
ghost use Rattle.sixel_grammar.specs.declared.command.Event.{Event as AnEvent};

use crate::reading::{Reading, Reads};
use sixel_grammar::Event;

/// A reading, and the event that it reads next, once the one after it has come.
#[derive(Debug, Drop)]
pub struct Waiting<R> {
    pub reading: R,
    pub pending: Option<Event>,
}

impl<R: Reading> Waiting<R> {
    /// No event has come.
    pub fn new(reading: R) -> Waiting<R>
        ensures reading { result.reading ≡ reading }
        ensures pending { result.pending ≡ None }
    {
        Waiting {
            reading,
            pending: None,
        }
    }

    /// Gives what the terminal makes of the event that waits, if there is one. `next` is the one after it, if there is
    /// one. None waits then.
    #[inline(always)]
    pub fn settle(&mut self, next: Option<&Event>) -> Option<Reads>
        ensures reads { (before : List AnEvent) → R.has_seen self.old.reading before
            → result ≡ option_map (λ last. R.model.rule before last (option_map (λ e. e.now) next.entry))
            self.old.pending }
        ensures seen { (before : List AnEvent) → R.has_seen self.old.reading before
            → R.has_seen self.new.reading (before ++ option_to_list self.old.pending) }
        ensures pending { self.new.pending ≡ None }
    {
        let reads = match &self.pending {
            Some(last) => Some(self.reading.read(last, next)),
            None => None,
        };
        self.pending = None;
        reads
    }
}
