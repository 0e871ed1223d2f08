//! What is chosen of the terminal that shows a string, and why a string isn't mended.

use sixel_grammar::{Fault, Halt};
use sixel_model::{Colour, Picture};
use std::alloc::AllocError;
use std::convert::Infallible;

/// What is chosen of the terminal that shows the string. The rest is fixed: 256 registers that begin as the VT340's own
/// 16 colours, over and over; a screen of the picture's size; no ground.
#[derive(Clone, Copy, Debug, PartialEq, Eq)]
pub struct Mending {
    /// The colour of the pixels that the string doesn't paint.
    pub background: Colour,
    /// A pixel shows the colour that its register has at the end of the string, not when the pixel was painted.
    pub showing: bool,
    /// A definition of a register also selects it.
    pub selects: bool,
}

/// The mended picture of a string, and what it hides.
#[derive(Debug, Drop)]
pub struct Mended {
    pub picture: Picture,
    /// How many painted pixels look like those that aren't painted: as many as were painted in the background's colour,
    /// if some pixel isn't painted. 0 if each one is.
    pub hidden: u32,
}

/// Why a string isn't mended. If several of the first four reasons apply, the first one in this order is reported.
#[derive(Clone, Copy, Debug, PartialEq, Eq)]
pub enum MendFault {
    /// The bytes aren't a document.
    Grammar(Fault),
    /// A side of the picture is 0: the string paints nothing, and declares no box, or one with a side of 0.
    Empty,
    /// The picture has more than 2,048 columns or rows.
    TooLarge,
    /// The picture has more colours than the profile has registers.
    TooManyColours,
    /// An allocation failed: for the screen, or for the picture.
    OutOfMemory,
}

impl From<Fault> for MendFault {
    ghost use Rattle.std.specs.Prelude.{◌≡◌};
    ghost use Rattle.sixel_mend.specs.declared.mending.MendFault.TheVariants.{Grammar};

    ghost from_gives = { λ fault result. result ≡ Grammar fault };

    fn from(fault: Fault) -> MendFault {
        MendFault::Grammar(fault)
    }
}

impl From<Halt<Infallible>> for MendFault {
    ghost use Rattle.std.specs.Prelude.{◌≡◌};
    ghost use Rattle.sixel_grammar.specs.declared.fault.Fault.{Fault as AFault};
    ghost use Rattle.sixel_grammar.specs.declared.halt.Halt.TheVariants.{Refused};
    ghost use Rattle.sixel_mend.specs.declared.mending.MendFault.TheVariants.{Grammar};

    ghost from_gives = { λ halt result. (fault : AFault) × (halt ≡ Refused fault) × (result ≡ Grammar fault) };

    fn from(halt: Halt<Infallible>) -> MendFault {
        MendFault::Grammar(halt.into())
    }
}

impl From<AllocError> for MendFault {
    ghost use Rattle.std.specs.Prelude.{◌≡◌};
    ghost use Rattle.sixel_mend.specs.declared.mending.MendFault.TheVariants.{OutOfMemory};

    ghost from_gives = { λ fault result. result ≡ OutOfMemory };

    fn from(_: AllocError) -> MendFault {
        MendFault::OutOfMemory
    }
}
