//! Why bytes aren't a document.

use sixel_io::DeviceFault;
use std::alloc::AllocError;

/// What is wrong with the first invalid byte: no document continues with it.
#[derive(Clone, Copy, Debug, PartialEq, Eq)]
pub enum Reason {
    /// There is no introducer, or its parameters don't end in `q`.
    NotSixel = 1,
    /// A byte that has no meaning between commands, or in the fields of one.
    BadByte = 2,
    /// A digit that makes a number larger than 65,535.
    NumberTooLarge = 3,
    /// One field too many, or a colour command of two, three or four fields.
    FieldCount = 4,
    /// The number of a repeat isn't followed by a data byte.
    BadRepeat = 5,
    /// ESC in the picture data isn't followed by `\`.
    BadTerminator = 6,
    /// The input ends before the string does.
    Truncated = 7,
    /// The input is longer than 268,435,456 bytes, and valid up to there.
    TooLong = 8,
    /// Something other than filler follows the string.
    Trailing = 9,
}

/// Why bytes aren't a document, and where.
#[derive(Clone, Copy, Debug, PartialEq, Eq)]
pub struct Fault {
    pub reason: Reason,
    /// The offset of the first invalid byte, in bytes from 0; for `Truncated` the length of the input.
    pub place: u64,
}

/// Why no document was read.
#[derive(Clone, Copy, Debug, PartialEq, Eq)]
pub enum InputFault {
    /// The bytes aren't a document.
    Grammar(Fault),
    /// An allocation failed: for the events, or in a check for the pixels.
    OutOfMemory,
    /// A call of the source failed.
    Read,
}

impl From<Fault> for InputFault {
    ghost use Rattle.std.specs.Prelude.{◌≡◌};
    ghost use Rattle.sixel_grammar.specs.declared.fault.InputFault.TheVariants.{Grammar};

    ghost from_gives = { λ fault result. result ≡ Grammar fault };

    fn from(fault: Fault) -> InputFault {
        InputFault::Grammar(fault)
    }
}

impl From<AllocError> for InputFault {
    ghost use Rattle.std.specs.Prelude.{◌≡◌};
    ghost use Rattle.sixel_grammar.specs.declared.fault.InputFault.TheVariants.{OutOfMemory};

    ghost from_gives = { λ fault result. result ≡ OutOfMemory };

    fn from(_: AllocError) -> InputFault {
        InputFault::OutOfMemory
    }
}

/// A fault of the input's device is a failed read.
impl From<DeviceFault> for InputFault {
    ghost use Rattle.std.specs.Prelude.{◌≡◌};
    ghost use Rattle.sixel_grammar.specs.declared.fault.InputFault.TheVariants.{Read};

    ghost from_gives = { λ fault result. result ≡ Read };

    fn from(_: DeviceFault) -> InputFault {
        InputFault::Read
    }
}
