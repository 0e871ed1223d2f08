//! Why a run is refused.

use sixel_differ::DifferFault;
use sixel_fit::FitFault;
use sixel_grammar::{Fault, Halt, InputFault};
use sixel_io::DeviceFault;
use sixel_mend::MendFault;
use sixel_named_terminals::ShowFault;
use sixel_png::PngFault;
use sixel_ppm::{PpmFault, PpmReason};
use sixel_scan::ScanFault;
use std::alloc::AllocError;
use thiserror::Error;

/// Why a run gave no result. Its `Display` is the variant's name; `lines::fault_line` makes the line that the program
/// prints.
#[derive(Clone, Copy, Debug, PartialEq, Eq, Error)]
pub enum RunFault {
    /// The input is no document: why, and after how many bytes.
    #[error("Grammar")]
    Grammar(Fault),
    /// The input is no picture file: why, and after how many bytes.
    #[error("Ppm")]
    Ppm { reason: PpmReason, place: u64 },
    /// A pixel has a colour of hue, lightness and saturation, which a PPM or a PNG can't hold. Nothing was written.
    #[error("NotRgb")]
    NotRgb,
    /// A screen of the size of the declared box was asked for, but no box is declared, or a side of it isn't from 1 to
    /// 4,096 pixels. Nothing was written.
    #[error("NoBox")]
    NoBox,
    /// The model of the named terminal doesn't say what it does at an event: its offset in bytes. Nothing was written.
    #[error("Unmodelled")]
    Unmodelled { place: u64 },
    /// The stream has no sixel string. Nothing was written.
    #[error("NoString")]
    NoString,
    /// xterm is to show the picture, and it has more than 1,000 columns or 996 rows: its sides. Nothing was written.
    #[error("Large")]
    Large { width: u32, height: u32 },
    /// xterm is to show the picture, and a colour of it is given by hue, lightness and saturation. Nothing was written.
    #[error("Hue")]
    Hue,
    /// A side of the mended picture is 0: nothing is painted, and no box with both sides is declared. Nothing was
    /// written.
    #[error("Empty")]
    Empty,
    /// The mended picture, or a picture with the rows below it that konsole needs, has more than 2,048 columns or rows.
    /// Nothing was written.
    #[error("TooLarge")]
    TooLarge,
    /// The mended picture, or a picture with the rows below it that konsole needs, has more colours than the profile has
    /// registers. Nothing was written.
    #[error("TooManyColours")]
    TooManyColours,
    /// An allocation failed.
    #[error("OutOfMemory")]
    OutOfMemory,
    /// The input could not be read.
    #[error("Read")]
    Read,
    /// The output could not be written or flushed; a prefix of it was written.
    #[error("Write")]
    Write,
}

impl From<InputFault> for RunFault {
    ghost use Rattle.std.specs.Prelude.{◌≡◌};
    ghost use Rattle.sixel_report.specs.Conversions.{of_input};

    ghost from_gives = { λ fault result. result ≡ of_input fault };

    fn from(fault: InputFault) -> RunFault {
        match fault {
            InputFault::Grammar(fault) => RunFault::Grammar(fault),
            InputFault::OutOfMemory => RunFault::OutOfMemory,
            InputFault::Read => RunFault::Read,
        }
    }
}

impl From<PpmFault> for RunFault {
    ghost use Rattle.std.specs.Prelude.{◌≡◌};
    ghost use Rattle.sixel_report.specs.Conversions.{of_ppm};

    ghost from_gives = { λ fault result. result ≡ of_ppm fault };

    fn from(fault: PpmFault) -> RunFault {
        match fault {
            PpmFault::Format { reason, place } => RunFault::Ppm { reason, place },
            PpmFault::NotRgb => RunFault::NotRgb,
            PpmFault::OutOfMemory => RunFault::OutOfMemory,
            PpmFault::Read => RunFault::Read,
            PpmFault::Write => RunFault::Write,
        }
    }
}

impl From<PngFault> for RunFault {
    ghost use Rattle.std.specs.Prelude.{◌≡◌};
    ghost use Rattle.sixel_report.specs.Conversions.{of_png};

    ghost from_gives = { λ fault result. result ≡ of_png fault };

    fn from(fault: PngFault) -> RunFault {
        match fault {
            PngFault::NotRgb => RunFault::NotRgb,
            PngFault::Write => RunFault::Write,
        }
    }
}

impl From<MendFault> for RunFault {
    ghost use Rattle.std.specs.Prelude.{◌≡◌};
    ghost use Rattle.sixel_report.specs.Conversions.{of_mend};

    ghost from_gives = { λ fault result. result ≡ of_mend fault };

    fn from(fault: MendFault) -> RunFault {
        match fault {
            MendFault::Grammar(fault) => RunFault::Grammar(fault),
            MendFault::Empty => RunFault::Empty,
            MendFault::TooLarge => RunFault::TooLarge,
            MendFault::TooManyColours => RunFault::TooManyColours,
            MendFault::OutOfMemory => RunFault::OutOfMemory,
        }
    }
}

impl From<FitFault> for RunFault {
    ghost use Rattle.std.specs.Prelude.{◌≡◌};
    ghost use Rattle.sixel_report.specs.Conversions.{of_fit};

    ghost from_gives = { λ fault result. result ≡ of_fit fault };

    fn from(fault: FitFault) -> RunFault {
        match fault {
            FitFault::Large { width, height } => RunFault::Large { width, height },
            FitFault::Hue => RunFault::Hue,
            FitFault::TooHigh => RunFault::TooLarge,
            FitFault::NoRegister => RunFault::TooManyColours,
            FitFault::OutOfMemory => RunFault::OutOfMemory,
        }
    }
}

impl From<DifferFault> for RunFault {
    ghost use Rattle.std.specs.Prelude.{◌≡◌};
    ghost use Rattle.sixel_report.specs.Conversions.{of_differ};

    ghost from_gives = { λ fault result. result ≡ of_differ fault };

    fn from(fault: DifferFault) -> RunFault {
        match fault {
            DifferFault::Grammar(fault) => RunFault::Grammar(fault),
            DifferFault::Empty => RunFault::Empty,
            DifferFault::TooLarge => RunFault::TooLarge,
            DifferFault::OutOfMemory => RunFault::OutOfMemory,
        }
    }
}

impl From<ShowFault> for RunFault {
    ghost use Rattle.std.specs.Prelude.{◌≡◌};
    ghost use Rattle.sixel_report.specs.Conversions.{of_show};

    ghost from_gives = { λ fault result. result ≡ of_show fault };

    fn from(fault: ShowFault) -> RunFault {
        match fault {
            ShowFault::Grammar(fault) => RunFault::Grammar(fault),
            ShowFault::Unmodelled(place) => RunFault::Unmodelled { place },
            ShowFault::OutOfMemory => RunFault::OutOfMemory,
        }
    }
}

impl From<ScanFault> for RunFault {
    ghost use Rattle.std.specs.Prelude.{◌≡◌};
    ghost use Rattle.sixel_report.specs.Conversions.{of_scan};

    ghost from_gives = { λ fault result. result ≡ of_scan fault };

    fn from(fault: ScanFault) -> RunFault {
        match fault {
            ScanFault::OutOfMemory => RunFault::OutOfMemory,
            ScanFault::Read => RunFault::Read,
        }
    }
}

impl From<Halt<DeviceFault>> for RunFault {
    ghost use Rattle.std.specs.Prelude.{◌≡◌};
    ghost use Rattle.sixel_report.specs.Conversions.{fault_of_halt};

    ghost from_gives = { λ halt result. result ≡ fault_of_halt halt };

    fn from(halt: Halt<DeviceFault>) -> RunFault {
        match halt {
            Halt::Refused(fault) => RunFault::Grammar(fault),
            Halt::Stopped(_) => RunFault::Write,
        }
    }
}

impl From<AllocError> for RunFault {
    ghost use Rattle.std.specs.Prelude.{◌≡◌};
    ghost use Rattle.sixel_report.specs.declared.fault.RunFault.TheVariants.{OutOfMemory};

    ghost from_gives = { λ fault result. result ≡ OutOfMemory };

    fn from(_: AllocError) -> RunFault {
        RunFault::OutOfMemory
    }
}
