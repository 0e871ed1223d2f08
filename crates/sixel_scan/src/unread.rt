//! The bytes that a source gave and that haven't been read.

ghost use Rattle.std.specs.Prelude.{◌≡◌, ◌<◌, ◌≤◌, ◌⊎◌, [], Ok, true, false, drop, length, OnErr, OnOk};
ghost use Rattle.std.specs.Io.KnownBytes.{Consumes, IsAtEnd, Keeps};
ghost use Rattle.sixel_io.specs.Devices.{CountsFailure};

use sixel_io::{DeviceFault, PIECE, Source};
use std::marker::Model;

/// The bytes that one call of a source gave, without those that have been read. A contract sees them as a list.
#[derive(Drop)]
pub(crate) struct Unread {
    piece: [u8; PIECE],
    start: usize,
    end: usize,
}

impl Model for Unread {
    ghost use Rattle.std.specs.Prelude.{◌≤◌, List, ℕ, drop, length, take};

    ghost Value = { List ℕ };

    ghost view = { λ u. drop u.start (take u.end u.piece) };

    ghost invariant = { λ u. (u.start ≤ u.end) × (u.end ≤ length u.piece) };
}

impl Unread {
    pub(crate) fn new() -> Unread
        ensures { result ≡ [] }
    {
        Unread {
            piece: [0; PIECE],
            start: 0,
            end: 0,
        }
    }

    pub(crate) fn as_slice(&self) -> &[u8]
        ensures { result.now ≡ self.now }
    {
        &self.piece[self.start..self.end]
    }

    /// Leaves out the first `count` bytes, which have been read.
    pub(crate) fn pass(&mut self, count: usize)
        requires { count ≤ length self.old }
        ensures { self.new ≡ drop count self.old }
    {
        self.start += count;
    }

    /// Takes bytes from the source, in one call, at most `room`. Returns whether there were any.
    pub(crate) fn refill<S: Source>(
        &mut self,
        input: &mut S,
        room: u64,
    ) -> Result<bool, DeviceFault>
        requires { self.old ≡ [] }
        ensures taken { OnOk result (Consumes (S.state input.old).remaining (S.state input.new).remaining self.new) }
        ensures within { length self.new ≤ room }
        ensures some { result ≡ Ok true → 0 < length self.new }
        ensures none { result ≡ Ok false → self.new ≡ [] }
        ensures over { result ≡ Ok false → IsAtEnd (S.state input.new).remaining ⊎ (room ≡ 0) }
        ensures kept { OnErr result (Keeps (S.state input.old).remaining (S.state input.new).remaining) }
        ensures nothing { OnErr result (self.new ≡ []) }
        ensures failures { CountsFailure result (S.state input.old).failures (S.state input.new).failures }
    {
        self.start = 0;
        self.end = 0;
        let most = room.min(PIECE as u64) as usize;
        if most == 0 {
            return Ok(false);
        }
        self.end = input.fill(&mut self.piece[..most])?;
        Ok(self.end > 0)
    }
}
