//! Reads several commands at once.

ghost use Rattle.std.specs.Prelude.{◌≡◌, ◌≢◌, ◌<◌, ◌≤◌, ◌+◌, ◌-◌, IfSome, IsNone, IsSome, IsTrue, length, slice_index};
ghost use Rattle.std.specs.Prelude.{take};
ghost use Rattle.std.specs.Prelude.{[], None, false, ℕ};
ghost use Rattle.sixel_grammar.specs.Bytes.{is_data as data_test};
ghost use Rattle.sixel_grammar.specs.Document.{most_bytes};
ghost use Rattle.sixel_grammar.specs.Faults.{ColourFields as ColourForm};
ghost use Rattle.sixel_grammar.specs.Pending.{form_of};
ghost use Rattle.sixel_grammar.specs.declared.command.Columns.TheVariants.{Missing as no_columns};
ghost use Rattle.sixel_grammar.specs.declared.command.Columns.TheVariants.{Sixels as single_sixels};

use super::{MOST_BYTES, Reader, ready_for};
use crate::command::{Columns, Run, TwoCommands};
use crate::run::{Found, Start, columns_in, select_in};

impl Reader {
    ghost use Rattle.sixel_grammar.specs.Standing.{Takes, fault_of};
    ghost use Rattle.sixel_grammar.specs.Runs.{IsNoRun, TakesRun, open_run, two_commands};
    ghost use Rattle.sixel_grammar.specs.Stretches.{IsNoSixel};

    /// Reads columns at the beginning of the bytes at once: single sixels (`~~~`) or a repeat (`!12~`), perhaps after a
    /// select (`#3~~~`, `#3!12~`). Of single sixels it reads all that may come. If the bytes begin with `#` and no
    /// columns follow its digits, it reads these, and the select or definition that they begin is open.
    ///
    /// `None`: the bytes begin with no such run or only with a part of a repeat, a command is open, or no byte may
    /// come. Then nothing was read, and nothing has changed: give the first byte to `feed`.
    #[inline(always)]
    pub fn feed_run(&mut self, bytes: &[u8]) -> Option<Run>
        ensures within { IfSome result (λ run. (run.start < run.length) × (run.length ≤ length bytes.now)) }
        ensures limit { IfSome result (λ run. run.place + run.length ≤ most_bytes) }
        ensures sixels { IfSome result (λ run. run.columns ≡ single_sixels → (k : ℕ) → run.start ≤ k → k < run.length
            → IsTrue (data_test (slice_index bytes.now k))) }
        ensures taken { IfSome result (λ run. TakesRun self.old self.new run bytes.now) }
        ensures still_open { IfSome result (λ run. run.columns ≡ no_columns → run.select ≡ None) }
        ensures longest { IfSome result (λ run. run.columns ≡ single_sixels → run.length < length bytes.now
            → IsNoSixel self.new (slice_index bytes.now run.length)) }
        ensures refused { IsNone result → IsNoRun self.old bytes.now }
        ensures kept { IsNone result → self.new ≡ self.old }
        ensures stopped { IsSome (fault_of self.old) → IsNone result }
    {
        if self.sixels == 0 || bytes.is_empty() || !begins_run(bytes[0]) {
            return None;
        }
        let seen = first_bytes(bytes, self.left);
        let start = select_in(seen);
        match columns_in(seen, start.end) {
            Some(found) => Some(self.take_columns(start, found)),
            None => match start.register {
                Some(register) => Some(self.open_select(register, start.end)),
                None => None,
            },
        }
    }

    /// Takes the bytes of these columns and of the select before them.
    #[inline(always)]
    fn take_columns(&mut self, start: Start, found: Found) -> Run
        requires some { start.end < found.end }
        requires few { found.end ≤ self.old.left }
        ensures run { result ≡ record {
          place = most_bytes - self.old.left;
          select = start.register;
          start = start.end;
          length = found.end;
          columns = found.columns;
        } }
        ensures pending { self.new.pending ≡ self.old.pending }
        ensures fault { self.new.fault ≡ self.old.fault }
        ensures left { self.new.left ≡ self.old.left - found.end }
    {
        let run = Run {
            place: MOST_BYTES - self.left,
            select: start.register,
            start: start.end,
            length: found.end,
            columns: found.columns,
        };
        self.left -= found.end as u64;
        if self.left == 0 {
            self.sixels = 0;
        }
        run
    }

    /// Takes the first `end` bytes: the introducer and the digits of a select, which is open then. It isn't inlined, or
    /// the loops that read runs with columns would keep more values in memory.
    #[cold]
    #[inline(never)]
    fn open_select(&mut self, register: u16, end: usize) -> Run
        requires some { 0 < end }
        requires few { end ≤ self.old.left }
        ensures run { result ≡ open_run (most_bytes - self.old.left) end }
        ensures form { form_of self.new.pending ≡ ColourForm [] register }
        ensures fault { self.new.fault ≡ self.old.fault }
        ensures left { self.new.left ≡ self.old.left - end }
        ensures opened { self.new.opened ≡ most_bytes - self.old.left }
    {
        let place = MOST_BYTES - self.left;
        self.pending.open_select(register);
        self.opened = place;
        self.left -= end as u64;
        self.sixels = 0;
        Run {
            place,
            select: None,
            start: 0,
            length: end,
            columns: Columns::Missing,
        }
    }

    /// Reads one byte as `feed` does, if it ends a command and is one itself (`#3~`, `#3$`, `#3-`).
    ///
    /// `None` means that it does something else, or is invalid. Then it wasn't read, and nothing has changed: give it to
    /// `feed`, which takes every byte. This method is faster.
    pub fn feed_two(&mut self, byte: u8) -> Option<TwoCommands>
        ensures accepted { IfSome result (λ two. Takes self.old self.new byte (two_commands two)) }
        ensures kept { IsNone result → self.new ≡ self.old }
        ensures stopped { IsSome (fault_of self.old) → IsNone result }
    {
        if self.left == 0 {
            return None;
        }
        let ending = self.pending.end_with_command(byte)?;
        let own_place = MOST_BYTES - self.left;
        self.left -= 1;
        self.sixels = ready_for(self.left, &self.pending);
        Some(TwoCommands {
            place: self.opened,
            ended: ending.ended,
            own_place,
            own: ending.own,
        })
    }
}

/// Whether a run may begin with the byte. The search for a run is long code, and this test spares it other bytes.
#[inline(always)]
fn begins_run(byte: u8) -> bool
    ensures { result ≡ false → (data_test byte ≡ false) × (byte ≢ 33) × (byte ≢ 35) }
{
    byte >= b'?' || byte == b'#' || byte == b'!'
}

/// The bytes that may come still, if `most` may come.
#[inline(always)]
fn first_bytes(bytes: &[u8], most: u64) -> &[u8]
    ensures { result.now ≡ take most bytes.now }
{
    if (bytes.len() as u64) < most {
        bytes
    } else {
        &bytes[..most as usize]
    }
}
