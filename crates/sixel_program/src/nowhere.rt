//! A sink that keeps nothing, for a quiet check.

ghost use Rattle.std.specs.Prelude.{◌≡◌, None, true};

use sixel_io::{DeviceFault, Sink};

/// Takes all bytes and keeps none, as `std::io::sink` does.
#[derive(Clone, Copy, Debug)]
pub struct Nowhere {
    is_flushed: bool,
}

impl Nowhere {
    pub fn new() -> Nowhere
        ensures { result.is_flushed ≡ true }
    {
        Nowhere { is_flushed: true }
    }
}

impl Sink for Nowhere {
    ghost state = { λ s. record { taken = None; failures = 0; is_flushed = s.is_flushed } };

    fn take(&mut self, piece: &[u8]) -> Result<usize, DeviceFault> {
        self.is_flushed = false;
        Ok(piece.len())
    }

    fn flush(&mut self) -> Result<(), DeviceFault> {
        self.is_flushed = true;
        Ok(())
    }

    fn failures(&self) -> u64 {
        0
    }
}
