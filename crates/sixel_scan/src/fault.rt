//! Why a scan stops.

use sixel_io::DeviceFault;
use std::alloc::AllocError;

/// Why a scan stops before the end of the stream.
#[derive(Clone, Copy, Debug, PartialEq, Eq)]
pub enum ScanFault {
    /// An allocation failed: for the pixels of a string.
    OutOfMemory,
    /// A call of the source failed.
    Read,
}

impl From<AllocError> for ScanFault {
    ghost use Rattle.std.specs.Prelude.{◌≡◌};
    ghost use Rattle.sixel_scan.specs.declared.fault.ScanFault.TheVariants.{OutOfMemory};

    ghost from_gives = { λ fault result. result ≡ OutOfMemory };

    fn from(_: AllocError) -> ScanFault {
        ScanFault::OutOfMemory
    }
}

/// A fault of the source's device is a failed read.
impl From<DeviceFault> for ScanFault {
    ghost use Rattle.std.specs.Prelude.{◌≡◌};
    ghost use Rattle.sixel_scan.specs.declared.fault.ScanFault.TheVariants.{Read};

    ghost from_gives = { λ fault result. result ≡ Read };

    fn from(_: DeviceFault) -> ScanFault {
        ScanFault::Read
    }
}
