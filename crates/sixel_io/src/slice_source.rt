//! A slice as a source, for tests: it gives a few bytes a call, and can be told which call fails.

ghost use Rattle.std.specs.Prelude.{◌≡◌, ◌<◌, ◌≤◌, Some, length, min, not, IfOk, is_ok};
ghost use Rattle.std.specs.Io.KnownBytes.{ReadConsumes};
ghost use Rattle.sixel_io.specs.Devices.{CountsFailure, one_more};
ghost use Rattle.sixel_io.specs.SliceDevices.{fails_at};

use crate::device::{DeviceFault, Source};
use std::marker::Model;

/// Whether the call with this number is chosen to fail. The count stops at `u64::MAX`, which never fails.
pub(crate) fn is_failing(fail_at: Option<u64>, call: u64) -> bool
    ensures { result ≡ fails_at fail_at call }
{
    match fail_at {
        None => false,
        Some(number) => call < u64::MAX && call == number,
    }
}

/// Gives the bytes of a slice, at most `piece` of them a call.
#[derive(Debug, Drop)]
pub struct SliceSource<'a> {
    rest: &'a [u8],
    piece: usize,
    fail_at: Option<u64>,
    calls: u64,
    failures: u64,
}

impl<'a> Model for SliceSource<'a> {
    ghost use Rattle.std.specs.Prelude.{◌<◌};
    ghost use Rattle.sixel_io.specs.SliceDevices.{SliceSourceState};

    ghost Value = { SliceSourceState };

    ghost view = { λ s. record {
      rest = s.rest.now;
      piece = s.piece;
      fail_at = s.fail_at;
      calls = s.calls;
      failures = s.failures;
    } };

    ghost invariant = { λ s. 0 < s.piece };
}

impl<'a> SliceSource<'a> {
    /// A source over the bytes. Only call number `fail_at` fails, counted from 0.
    pub fn new(bytes: &'a [u8], piece: usize, fail_at: Option<u64>) -> SliceSource<'a>
        requires { 0 < piece }
        ensures { result ≡ record { rest = bytes.now; piece = piece; fail_at = fail_at; calls = 0; failures = 0 } }
    {
        SliceSource {
            rest: bytes,
            piece,
            fail_at,
            calls: 0,
            failures: 0,
        }
    }
}

impl<'a> Source for SliceSource<'a> {
    ghost state = { λ s. record { remaining = Some s.rest; failures = s.failures } };

    /// Copies as many bytes as `self.piece`, the argument and the rest allow. Fails only if this call is chosen to
    /// fail.
    fn fill(&mut self, piece: &mut [u8]) -> Result<usize, DeviceFault>
        ensures bound { IfOk result (λ n. n ≤ length piece.new) }
        ensures bytes { ReadConsumes (Some self.old.rest) (Some self.new.rest) result piece.new }
        ensures failures { CountsFailure result self.old.failures self.new.failures }
        ensures fails { is_ok result ≡ not (fails_at self.old.fail_at self.old.calls) }
        ensures count { IfOk result (λ n. n ≡ min (min self.old.piece (length piece.old)) (length self.old.rest)) }
        ensures calls { self.new.calls ≡ one_more self.old.calls }
        ensures same_piece { self.new.piece ≡ self.old.piece }
        ensures same_fail_at { self.new.fail_at ≡ self.old.fail_at }
    {
        let call = self.calls;
        self.calls = call.saturating_add(1);
        if is_failing(self.fail_at, call) {
            self.failures = self.failures.saturating_add(1);
            return Err(DeviceFault);
        }
        let count = self.piece.min(piece.len()).min(self.rest.len());
        let (prefix, rest) = self.rest.split_at(count);
        piece[..count].copy_from_slice(prefix);
        self.rest = rest;
        Ok(count)
    }

    fn failures(&self) -> u64 {
        self.failures
    }
}
