//! Why nothing is compared.

ghost use Rattle.std.specs.Prelude.{◌≢◌, List, ℕ};

use sixel_grammar::{Fault, Halt};
use std::alloc::AllocError;
use std::convert::Infallible;

/// Why nothing is compared. If several of these apply, the first one in this order is reported.
#[derive(Clone, Copy, Debug, PartialEq, Eq)]
pub enum DifferFault {
    /// The bytes aren't a document.
    Grammar(Fault),
    /// A side of the picture is 0: the string paints nothing, and declares no box, or one with a side of 0.
    Empty,
    /// The picture has more than 2,048 columns or rows.
    TooLarge,
    /// An allocation failed.
    OutOfMemory,
}

impl From<Fault> for DifferFault {
    ghost use Rattle.std.specs.Prelude.{◌≡◌};
    ghost use Rattle.sixel_differ.specs.declared.fault.DifferFault.TheVariants.{Grammar};

    ghost from_gives = { λ fault result. result ≡ Grammar fault };

    fn from(fault: Fault) -> DifferFault {
        DifferFault::Grammar(fault)
    }
}

impl From<Halt<Infallible>> for DifferFault {
    ghost use Rattle.std.specs.Prelude.{◌≡◌};
    ghost use Rattle.sixel_grammar.specs.declared.fault.Fault.{Fault as AFault};
    ghost use Rattle.sixel_grammar.specs.declared.halt.Halt.TheVariants.{Refused};
    ghost use Rattle.sixel_differ.specs.declared.fault.DifferFault.TheVariants.{Grammar};

    ghost from_gives = { λ halt result. (fault : AFault) × (halt ≡ Refused fault) × (result ≡ Grammar fault) };

    fn from(halt: Halt<Infallible>) -> DifferFault {
        DifferFault::Grammar(halt.into())
    }
}

impl From<AllocError> for DifferFault {
    ghost use Rattle.std.specs.Prelude.{◌≡◌};
    ghost use Rattle.sixel_differ.specs.declared.fault.DifferFault.TheVariants.{OutOfMemory};

    ghost from_gives = { λ fault result. result ≡ OutOfMemory };

    fn from(_: AllocError) -> DifferFault {
        DifferFault::OutOfMemory
    }
}
