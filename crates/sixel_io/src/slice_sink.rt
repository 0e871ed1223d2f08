//! A slice as a sink, for tests: it takes a few bytes a call, and can be told which call fails.

ghost use Rattle.std.specs.Prelude.{◌≡◌, ◌<◌, ◌≤◌, Some, true, false, length, min, not, ◌||◌, ◌==◌, ◌-◌, IfOk, is_ok};
ghost use Rattle.std.specs.Prelude.{[], if◌then◌else◌};
ghost use Rattle.std.specs.Io.KnownBytes.{Keeps, WriteAppends};
ghost use Rattle.sixel_io.specs.Devices.{CountsFailure, one_more};
ghost use Rattle.sixel_io.specs.SliceDevices.{fails_at};

use crate::device::{DeviceFault, Sink};
use crate::slice_source::is_failing;
use std::marker::Model;

/// Copies bytes into a slice, at most `piece` of them a call.
#[derive(Drop)]
pub struct SliceSink<'a> {
    room: &'a mut [u8],
    at: usize,
    piece: usize,
    fail_at: Option<u64>,
    calls: u64,
    failures: u64,
    flushed: bool,
}

impl<'a> Model for SliceSink<'a> {
    ghost use Rattle.std.specs.Prelude.{◌<◌, ◌≤◌, length, take};
    ghost use Rattle.sixel_io.specs.SliceDevices.{SliceSinkState};

    ghost Value = { SliceSinkState };

    ghost view = { λ s. record {
      written = take s.at s.room.now;
      room = length s.room.now;
      piece = s.piece;
      fail_at = s.fail_at;
      calls = s.calls;
      failures = s.failures;
      flushed = s.flushed;
    } };

    ghost invariant = { λ s. (0 < s.piece) × (s.at ≤ length s.room.now) };
}

impl<'a> SliceSink<'a> {
    /// A sink into the slice. Call number `fail_at` fails: takes and flushes are counted together, from 0. A take also
    /// fails if the slice is full. No other call fails.
    pub fn new(room: &'a mut [u8], piece: usize, fail_at: Option<u64>) -> SliceSink<'a>
        requires { 0 < piece }
        ensures { result ≡ record {
          written = [];
          room = length room.old;
          piece = piece;
          fail_at = fail_at;
          calls = 0;
          failures = 0;
          flushed = false;
        } }
    {
        SliceSink {
            room,
            at: 0,
            piece,
            fail_at,
            calls: 0,
            failures: 0,
            flushed: false,
        }
    }

    /// The bytes taken so far.
    pub fn written(&self) -> &[u8]
        ensures { result.now ≡ self.now.written }
    {
        &self.room[..self.at]
    }
}

impl<'a> Sink for SliceSink<'a> {
    ghost state = { λ s. record { taken = Some s.written; failures = s.failures; is_flushed = s.flushed } };

    /// Copies as many bytes as `self.piece`, the argument and the free room allow. Fails if the slice is full, or if
    /// this call is chosen to fail.
    fn take(&mut self, piece: &[u8]) -> Result<usize, DeviceFault>
        requires { 0 < length piece.now }
        ensures bound { IfOk result (λ n. (0 < n) × (n ≤ length piece.now)) }
        ensures bytes { WriteAppends (Some self.old.written) (Some self.new.written) result piece.now }
        ensures failures { CountsFailure result self.old.failures self.new.failures }
        ensures flushed { self.new.flushed ≡ (if is_ok result then false else self.old.flushed) }
        ensures fails { let is_full = length self.old.written == self.old.room in
            is_ok result ≡ not (fails_at self.old.fail_at self.old.calls || is_full) }
        ensures count { let left = self.old.room - length self.old.written in
            IfOk result (λ n. n ≡ min (min self.old.piece (length piece.now)) left) }
        ensures calls { self.new.calls ≡ one_more self.old.calls }
        ensures same_piece { self.new.piece ≡ self.old.piece }
        ensures same_fail_at { self.new.fail_at ≡ self.old.fail_at }
        ensures same_room { self.new.room ≡ self.old.room }
    {
        let call = self.calls;
        self.calls = call.saturating_add(1);
        let is_full = self.at == self.room.len();
        if is_failing(self.fail_at, call) || is_full {
            self.failures = self.failures.saturating_add(1);
            return Err(DeviceFault);
        }
        let count = self.piece.min(piece.len()).min(self.room.len() - self.at);
        let start = self.at;
        self.room[start..start + count].copy_from_slice(&piece[..count]);
        self.at = start + count;
        self.flushed = false;
        Ok(count)
    }

    /// Marks the sink as flushed. Fails only if this call is chosen to fail.
    fn flush(&mut self) -> Result<(), DeviceFault>
        ensures bytes { Keeps (Some self.old.written) (Some self.new.written) }
        ensures failures { CountsFailure result self.old.failures self.new.failures }
        ensures flushed { self.new.flushed ≡ (if is_ok result then true else self.old.flushed) }
        ensures fails { is_ok result ≡ not (fails_at self.old.fail_at self.old.calls) }
        ensures calls { self.new.calls ≡ one_more self.old.calls }
        ensures same_piece { self.new.piece ≡ self.old.piece }
        ensures same_fail_at { self.new.fail_at ≡ self.old.fail_at }
        ensures same_room { self.new.room ≡ self.old.room }
    {
        let call = self.calls;
        self.calls = call.saturating_add(1);
        if is_failing(self.fail_at, call) {
            self.failures = self.failures.saturating_add(1);
            return Err(DeviceFault);
        }
        self.flushed = true;
        Ok(())
    }

    fn failures(&self) -> u64 {
        self.failures
    }
}
