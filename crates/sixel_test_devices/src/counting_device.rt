//! A device that counts its calls, around any other.

use sixel_io::{DeviceFault, Sink, Source};

/// The number of calls of a device.
#[derive(Clone, Copy)]
pub struct Calls {
    pub fills: u64,
    pub takes: u64,
    pub flushes: u64,
}

/// A device, and the number of its calls.
#[derive(Drop)]
pub struct CountingDevice<D> {
    pub device: D,
    pub calls: Calls,
}

impl<D> CountingDevice<D> {
    /// The device, which has seen no call yet.
    pub fn new(device: D) -> CountingDevice<D> {
        CountingDevice {
            device,
            calls: Calls {
                fills: 0,
                takes: 0,
                flushes: 0,
            },
        }
    }
}

impl<D: Source> Source for CountingDevice<D> {
    ghost state = { λ w. D.state w.device };

    fn fill(&mut self, piece: &mut [u8]) -> Result<usize, DeviceFault> {
        self.calls.fills = self.calls.fills.saturating_add(1);
        self.device.fill(piece)
    }

    fn failures(&self) -> u64 {
        self.device.failures()
    }
}

impl<D: Sink> Sink for CountingDevice<D> {
    ghost state = { λ w. D.state w.device };

    fn take(&mut self, piece: &[u8]) -> Result<usize, DeviceFault> {
        self.calls.takes = self.calls.takes.saturating_add(1);
        self.device.take(piece)
    }

    fn flush(&mut self) -> Result<(), DeviceFault> {
        self.calls.flushes = self.calls.flushes.saturating_add(1);
        self.device.flush()
    }

    fn failures(&self) -> u64 {
        self.device.failures()
    }
}
