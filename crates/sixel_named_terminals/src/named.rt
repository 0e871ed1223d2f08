//! The named terminals, and what each shows of a document.

ghost use Rattle.std.specs.Prelude.{◌≡◌, List};
ghost use Rattle.sixel_grammar.specs.declared.command.Placed.{Placed as Place};
ghost use Rattle.sixel_grammar.specs.Document.{Document, IsDocument, events_of};
ghost use Rattle.sixel_emulator.specs.Heard.{heard_in};
ghost use Rattle.sixel_emulator.specs.Modelled.{opening_of};
ghost use Rattle.sixel_konsole.specs.Konsole.{konsole_opening};
ghost use Rattle.sixel_named_terminals.specs.Named.{heard_on, hears_on, model_of};

use sixel_emulator::{Hearing, Hears, omitted_in};
use sixel_grammar::{Command, Halt, follow_document};
use sixel_konsole::Measuring;

/// A named terminal. Its model says what it shows.
#[derive(Clone, Copy, Debug, PartialEq, Eq)]
pub enum Named {
    /// xterm, started with `-ti vt340`.
    XTerm,
    MlTerm,
    Foot,
    Konsole,
}

impl Named {
    /// What the terminal hears that the events don't say.
    pub fn hears(self) -> Hears
        ensures { result ≡ hears_on self }
    {
        match self {
            Named::XTerm => Hears::SelectsAndRasters,
            Named::MlTerm => Hears::Selects,
            Named::Foot => Hears::Events,
            Named::Konsole => Hears::Boxes,
        }
    }

    /// What the terminal's model draws before the first event, by all events of the document of these bytes: konsole's
    /// rectangle, and on the others nothing.
    pub fn opening_of(self, bytes: &[u8]) -> Option<Command>
        requires { IsDocument bytes.now }
        ensures { (placed : List Place) → Document placed bytes.now
            → opening_of result ≡ (model_of self).opening (events_of (heard_on self bytes.now placed)) }
    {
        match self {
            Named::Konsole => rectangle_of(bytes),
            Named::XTerm | Named::MlTerm | Named::Foot => None,
        }
    }
}

/// konsole's rectangle.
fn rectangle_of(bytes: &[u8]) -> Option<Command>
    requires { IsDocument bytes.now }
    ensures { (placed : List Place) → Document placed bytes.now
        → opening_of result ≡ konsole_opening (events_of (heard_in Hears.Boxes bytes.now placed)) }
{
    let mut hearing = Hearing {
        listener: Measuring::new(),
        omitted: omitted_in(Hears::Boxes, bytes),
    };
    match follow_document(bytes, &mut hearing) {
        Ok(()) => hearing.listener.finish(),
        Err(Halt::Refused(_)) => unreachable!(),
        Err(Halt::Stopped(never)) => match never {},
    }
}
