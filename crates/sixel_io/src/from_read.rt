//! Any std reader as a source.

ghost use Rattle.std.specs.Prelude.{◌≡◌};

use crate::device::{DeviceFault, Source};
use std::io::Read;

/// Any reader as a source: each `fill` is one `read`. Any error counts as a failure, `Interrupted` too.
///
/// The contract of `Read` doesn't say when a read succeeds. So no contract says that `fill` fails only after a failed
/// read; tests show it.
#[derive(Debug, Drop)]
pub struct FromRead<R> {
    reader: R,
    failures: u64,
}

impl<R: Read> FromRead<R> {
    /// A source over the reader, with no failures yet.
    pub fn new(reader: R) -> FromRead<R>
        ensures { ⟦<FromRead<R> as Source>⟧.state result ≡ record { remaining = R.remaining reader; failures = 0 } }
    {
        FromRead {
            reader,
            failures: 0,
        }
    }
}

impl<R: Read> Source for FromRead<R> {
    ghost state = { λ s. record { remaining = R.remaining s.reader; failures = s.failures } };

    fn fill(&mut self, piece: &mut [u8]) -> Result<usize, DeviceFault> {
        match self.reader.read(piece) {
            Ok(count) => Ok(count),
            Err(_) => {
                self.failures = self.failures.saturating_add(1);
                Err(DeviceFault)
            }
        }
    }

    fn failures(&self) -> u64 {
        self.failures
    }
}
