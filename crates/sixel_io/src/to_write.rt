//! Any std writer as a sink.

ghost use Rattle.std.specs.Prelude.{◌≡◌, false};

use crate::device::{DeviceFault, Sink};
use std::io::Write;

/// Any writer as a sink: each `take` is one `write`. Any error counts as a failure, `Interrupted` too, and so does a
/// write of no bytes.
///
/// The contract of `Write` doesn't say when a write succeeds, nor what a flush does. So no contract says that a call
/// fails only if the writer did, or that `flush` flushes the writer; tests show it.
#[derive(Debug, Drop)]
pub struct ToWrite<W> {
    writer: W,
    failures: u64,
    flushed: bool,
}

impl<W: Write> ToWrite<W> {
    /// A sink over the writer, with no failures yet and not flushed.
    pub fn new(writer: W) -> ToWrite<W>
        ensures { ⟦<ToWrite<W> as Sink>⟧.state result ≡ record {
          taken = W.contents writer;
          failures = 0;
          is_flushed = false;
        } }
    {
        ToWrite {
            writer,
            failures: 0,
            flushed: false,
        }
    }
}

impl<W: Write> Sink for ToWrite<W> {
    ghost state = { λ s. record { taken = W.contents s.writer; failures = s.failures; is_flushed = s.flushed } };

    fn take(&mut self, piece: &[u8]) -> Result<usize, DeviceFault> {
        match self.writer.write(piece) {
            Ok(count) if count > 0 => {
                self.flushed = false;
                Ok(count)
            }
            _ => {
                self.failures = self.failures.saturating_add(1);
                Err(DeviceFault)
            }
        }
    }

    fn flush(&mut self) -> Result<(), DeviceFault> {
        match self.writer.flush() {
            Ok(()) => {
                self.flushed = true;
                Ok(())
            }
            Err(_) => {
                self.failures = self.failures.saturating_add(1);
                Err(DeviceFault)
            }
        }
    }

    fn failures(&self) -> u64 {
        self.failures
    }
}
