//! Sources, which give bytes, and sinks, which take them.
//!
//! Contracts know the contents of some devices. Those of a file or a terminal are never known. Known contents stay
//! known, after a failure too. The count of failures, and whether a sink is flushed, are always known. A count of
//! failures saturates at `u64::MAX`.

ghost use Rattle.std.specs.Prelude.{◌≡◌, ◌<◌, ◌≤◌, true, false, length, IfOk, is_ok, if◌then◌else◌};
ghost use Rattle.std.specs.Io.KnownBytes.{Keeps, ReadConsumes, WriteAppends};
ghost use Rattle.sixel_io.specs.Devices.{CountsFailure, SinkState, SourceState, Writes};

/// How many bytes the readers of these crates ask for in one call.
pub const PIECE: usize = 65_536;

/// A call on a device failed. The device has counted the failure.
#[derive(Clone, Copy, Debug, PartialEq, Eq)]
pub struct DeviceFault;

/// Gives bytes piece by piece, as `std::io::Read` does.
pub trait Source {
    /// The bytes still to come, if they are known, and how many calls failed.
    ghost state: { Self → SourceState };

    /// Copies the next bytes to the beginning of `piece`, which must not be empty, and returns how many; 0 means the
    /// end. On an `Err` no byte was taken from the source.
    fn fill(&mut self, piece: &mut [u8]) -> Result<usize, DeviceFault>
        requires { 0 < length piece.old }
        ensures bound { IfOk result (λ n. n ≤ length piece.new) }
        ensures bytes { ReadConsumes (state self.old).remaining (state self.new).remaining result piece.new }
        ensures failures { CountsFailure result (state self.old).failures (state self.new).failures };

    /// How many calls failed.
    fn failures(&self) -> u64
        ensures { result ≡ (state self.now).failures };
}

/// Takes bytes piece by piece, as `std::io::Write` does.
pub trait Sink {
    /// The bytes taken so far, if they are known, how many calls failed, and whether the sink is flushed.
    ghost state: { Self → SinkState };

    /// Takes a prefix of `piece`, which must not be empty: at least one byte. Returns its length. On an `Err` it took
    /// none.
    fn take(&mut self, piece: &[u8]) -> Result<usize, DeviceFault>
        requires { 0 < length piece.now }
        ensures bound { IfOk result (λ n. (0 < n) × (n ≤ length piece.now)) }
        ensures bytes { WriteAppends (state self.old).taken (state self.new).taken result piece.now }
        ensures failures { CountsFailure result (state self.old).failures (state self.new).failures }
        ensures flushed { (state self.new).is_flushed ≡ (if is_ok result then false else (state self.old).is_flushed) };

    /// Passes on the bytes that the sink has buffered, if any.
    fn flush(&mut self) -> Result<(), DeviceFault>
        ensures bytes { Keeps (state self.old).taken (state self.new).taken }
        ensures failures { CountsFailure result (state self.old).failures (state self.new).failures }
        ensures flushed { (state self.new).is_flushed ≡ (if is_ok result then true else (state self.old).is_flushed) };

    /// How many calls failed.
    fn failures(&self) -> u64
        ensures { result ≡ (state self.now).failures };
}

/// Sends all the bytes to the sink. On an `Err` the sink has taken a prefix of them. It doesn't flush.
pub fn put_all<K: Sink>(out: &mut K, bytes: &[u8]) -> Result<(), DeviceFault>
    ensures { Writes result (K.state out.old) (K.state out.new) bytes.now }
{
    let mut at = 0;
    while at < bytes.len() {
        at += out.take(&bytes[at..])?;
    }
    Ok(())
}
