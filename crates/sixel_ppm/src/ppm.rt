//! Pictures as Netpbm PPM files.

mod colours;
mod header;
mod numbering;
mod pixel_cache;
mod read;
mod samples;
mod table;
mod write;

pub use numbering::Numbering;
pub use read::read_ppm;
use std::alloc::AllocError;
pub use table::ToRgbx;
pub use write::{write_ppm, write_ppm_colours, write_ppm_pixels};

/// What is wrong at the first invalid byte of a picture file.
///
/// The format is Netpbm's raw PPM (`P6`) with one picture of 1 to 2,048 by 1 to 2,048 pixels, a maximum of 1 to 255,
/// and a header of at most 65,536 bytes.
#[derive(Clone, Copy, Debug, PartialEq, Eq)]
pub enum PpmReason {
    /// A byte that isn't allowed at its offset in the header, or a header of more than 65,536 bytes.
    Header = 1,
    /// The width or the height isn't from 1 to 2,048 pixels. The offset is that of its first digit.
    Size = 2,
    /// The maximum isn't from 1 to 255. The offset is that of its first digit.
    Maxval = 3,
    /// A sample is above the maximum.
    Sample = 4,
    /// The input ends before the last sample. The offset is its length.
    Short = 5,
    /// A byte follows the last sample.
    Trailing = 6,
    /// There are more colours than the profile has registers. The offset is that of the first sample of the first pixel
    /// with the 17th colour, or the 257th.
    TooManyColours = 7,
}

/// Why a picture file wasn't written or read.
#[derive(Clone, Copy, Debug, PartialEq, Eq)]
pub enum PpmFault {
    /// The bytes aren't a picture file.
    Format {
        reason: PpmReason,
        /// The offset of the byte that the reason names, in bytes from 0.
        place: u64,
    },
    /// The colour of a pixel is HLS, and a PPM has only RGB colours.
    NotRgb,
    /// The allocation for the pixels failed.
    OutOfMemory,
    /// A call of the source failed.
    Read,
    /// A call of the sink failed.
    Write,
}

impl From<AllocError> for PpmFault {
    ghost use Rattle.std.specs.Prelude.{◌≡◌};
    ghost use Rattle.sixel_ppm.specs.declared.ppm.PpmFault.TheVariants.{OutOfMemory};

    ghost from_gives = { λ fault result. result ≡ OutOfMemory };

    fn from(_: AllocError) -> PpmFault {
        PpmFault::OutOfMemory
    }
}
