//! Why a document isn't followed to its end.

use crate::fault::{Fault, InputFault};
use std::alloc::AllocError;
use std::convert::Infallible;

/// Why the bytes weren't followed to their end.
#[derive(Clone, Copy, Debug, PartialEq, Eq)]
pub enum Halt<S> {
    /// They are no document.
    Refused(Fault),
    /// The follower stopped.
    Stopped(S),
}

impl<S> From<Fault> for Halt<S> {
    ghost use Rattle.std.specs.Prelude.{◌≡◌};
    ghost use Rattle.sixel_grammar.specs.declared.halt.Halt.TheVariants.{Refused};

    ghost from_gives = { λ fault result. result ≡ Refused fault };

    fn from(fault: Fault) -> Halt<S> {
        Halt::Refused(fault)
    }
}

impl From<Halt<AllocError>> for InputFault {
    ghost use Rattle.std.specs.Prelude.{◌≡◌};
    ghost use Rattle.sixel_grammar.specs.Following.{input_fault_of};

    ghost from_gives = { λ halt result. result ≡ input_fault_of halt };

    fn from(halt: Halt<AllocError>) -> InputFault {
        match halt {
            Halt::Refused(fault) => InputFault::Grammar(fault),
            Halt::Stopped(_) => InputFault::OutOfMemory,
        }
    }
}

/// Where the follower never stops.
impl From<Halt<Infallible>> for Fault {
    ghost use Rattle.std.specs.Prelude.{◌≡◌};
    ghost use Rattle.sixel_grammar.specs.declared.halt.Halt.TheVariants.{Refused};

    ghost from_gives = { λ halt result. halt ≡ Refused result };

    fn from(halt: Halt<Infallible>) -> Fault {
        match halt {
            Halt::Refused(fault) => fault,
            Halt::Stopped(never) => match never {},
        }
    }
}
