//! A source that gives its bytes in pieces, and a sink that keeps what it takes.

ghost use Rattle.std.specs.Prelude.{None};

use sixel_io::{DeviceFault, Sink, Source};
use std::alloc::Global;

/// How many bytes one call moves at most.
#[derive(Clone, Copy, Debug)]
pub struct Cutting {
    /// The most that the first call of the source gives, in bytes.
    pub first: usize,
    /// The most that each later call gives.
    pub later: usize,
    /// The most that a call of the sink takes.
    pub taken: usize,
}

/// Gives the bytes of a slice, in pieces of these sizes.
#[derive(Drop)]
pub struct CutSource<'a> {
    rest: &'a [u8],
    next: usize,
    later: usize,
}

impl<'a> CutSource<'a> {
    pub fn new(bytes: &'a [u8], cutting: Cutting) -> CutSource<'a> {
        CutSource {
            rest: bytes,
            next: cutting.first,
            later: cutting.later,
        }
    }
}

impl<'a> Source for CutSource<'a> {
    ghost state = { λ s. record { remaining = None; failures = 0 } };

    fn fill(&mut self, piece: &mut [u8]) -> Result<usize, DeviceFault> {
        let count = self.next.max(1).min(piece.len()).min(self.rest.len());
        let (prefix, rest) = self.rest.split_at(count);
        piece[..count].copy_from_slice(prefix);
        self.rest = rest;
        self.next = self.later;
        Ok(count)
    }

    fn failures(&self) -> u64 {
        0
    }
}

/// Keeps the bytes that it takes. It fails only if memory runs out.
#[derive(Drop)]
pub struct KeepingSink {
    pub bytes: Vec<u8>,
    pub flushes: u64,
    most: usize,
    failures: u64,
    is_flushed: bool,
}

impl KeepingSink {
    /// An empty sink that takes at most `most` bytes a call.
    pub fn new(alloc: Global, most: usize) -> KeepingSink {
        KeepingSink {
            bytes: Vec::new(alloc),
            flushes: 0,
            most,
            failures: 0,
            is_flushed: false,
        }
    }
}

impl Sink for KeepingSink {
    ghost state = { λ s. record { taken = None; failures = s.failures; is_flushed = s.is_flushed } };

    fn take(&mut self, piece: &[u8]) -> Result<usize, DeviceFault> {
        let count = self.most.max(1).min(piece.len());
        match self.bytes.extend_from_slice(&piece[..count]) {
            Ok(()) => {
                self.is_flushed = false;
                Ok(count)
            }
            Err(_) => {
                self.failures = self.failures.saturating_add(1);
                Err(DeviceFault)
            }
        }
    }

    fn flush(&mut self) -> Result<(), DeviceFault> {
        self.flushes = self.flushes.saturating_add(1);
        self.is_flushed = true;
        Ok(())
    }

    fn failures(&self) -> u64 {
        self.failures
    }
}
