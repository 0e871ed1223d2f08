//! Where xterm's next sixel goes, and when there is no room for it.

ghost use Rattle.std.specs.Prelude.{◌≡◌, ◌<◌, ◌≤◌, ◌+◌, ◌-◌, ◌++◌, ℕ, IsTrue, List, false, length, min, slice_index};
ghost use Rattle.sixel_grammar.specs.Bytes.{is_data};
ghost use Rattle.sixel_grammar.specs.declared.command.Event.{Event as AnEvent};
ghost use Rattle.sixel_terminal.specs.Stretches.{sixels_of};
ghost use Rattle.sixel_xterm.specs.XTerm.{is_past_rows, is_single, pen_at, pen_after, pen_after_data, runs_out};
ghost use Rattle.sixel_xterm.specs.XTerm.{xterm_pen, xterm_side};

use sixel_emulator::words::{
    columns_of, has_painting, is_data_command, is_painting, is_return, sixel,
};
use sixel_grammar::{Command, Event};

/// The largest side of a box, and how many columns and rows are painted.
pub(crate) const SIDE: u16 = 1000;

/// Where the next sixel goes in its band.
#[derive(Clone, Copy, Debug, PartialEq, Eq)]
pub struct Pen {
    /// The column. Those past the last one are all 1,000.
    pub column: u16,
    /// A repeat ran out of room and went to the left margin, and no data command or return has come since.
    pub returned: bool,
    /// A single sixel ran out of room, and ended the string.
    pub ended: bool,
}

/// Whether it is a single sixel.
#[inline(always)]
fn is_single(event: &Event) -> bool
    ensures { result ≡ is_single event.now }
{
    matches!(event, Event::Step(Command::Sixel(_)))
}

impl Pen {
    /// At the left margin of a band.
    #[inline(always)]
    pub(crate) fn at_margin() -> Pen
        ensures { result ≡ pen_at 0 }
    {
        Pen {
            column: 0,
            returned: false,
            ended: false,
        }
    }

    /// So many columns further right.
    #[inline(always)]
    fn right(self, columns: u16) -> Pen
        ensures { result ≡ pen_at (min (self.column + columns) xterm_side) }
    {
        Pen {
            column: self.column.saturating_add(columns).min(SIDE),
            ..Pen::at_margin()
        }
    }

    /// Whether a data command runs out of room. `is_past`: its band reaches past the last row.
    #[inline(always)]
    fn runs_out(self, is_past: bool, event: &Event) -> bool
        ensures { result ≡ runs_out self.column is_past event.now }
    {
        is_painting(event)
            && (is_past || u32::from(self.column) + u32::from(columns_of(event)) > u32::from(SIDE))
    }

    /// After a data command.
    #[inline(always)]
    fn after_data(self, is_past: bool, event: &Event) -> Pen
        ensures { result ≡ pen_after_data self is_past event.now }
    {
        if !self.runs_out(is_past, event) {
            self.right(columns_of(event))
        } else if is_single(event) {
            Pen {
                ended: true,
                ..self
            }
        } else {
            Pen {
                returned: true,
                ..Pen::at_margin()
            }
        }
    }

    /// After an event.
    #[inline(always)]
    pub(crate) fn after(self, is_past: bool, event: &Event) -> Pen
        ensures { result ≡ pen_after self is_past event.now }
    {
        if self.ended {
            self
        } else if is_return(event) {
            Pen::at_margin()
        } else if is_data_command(event) {
            self.after_data(is_past, event)
        } else {
            self
        }
    }

    /// After these sixels, one by one.
    fn after_each(self, is_past: bool, bytes: &[u8]) -> Pen
        requires { (k : ℕ) → k < length bytes.now → IsTrue (is_data (slice_index bytes.now k)) }
        ensures { (before : List AnEvent) → self ≡ xterm_pen before → is_past ≡ is_past_rows before
            → result ≡ xterm_pen (before ++ sixels_of bytes.now) }
    {
        let mut pen = self;
        for byte in bytes {
            pen = pen.after(is_past, &sixel(*byte));
        }
        pen
    }

    /// How many columns are left.
    #[inline(always)]
    pub(crate) fn columns_left(self) -> u16
        ensures { result ≡ xterm_side - self.column }
    {
        SIDE.saturating_sub(self.column)
    }

    /// After these sixels.
    #[inline(always)]
    pub(crate) fn after_sixels(self, is_past: bool, bytes: &[u8]) -> Pen
        requires { (k : ℕ) → k < length bytes.now → IsTrue (is_data (slice_index bytes.now k)) }
        ensures { (before : List AnEvent) → self ≡ xterm_pen before → is_past ≡ is_past_rows before
            → result ≡ xterm_pen (before ++ sixels_of bytes.now) }
    {
        if self.ended {
            return self;
        }
        if bytes.is_empty() {
            return self;
        }
        if !is_past && bytes.len() <= usize::from(self.columns_left()) {
            self.right(bytes.len() as u16)
        } else {
            self.after_far(is_past, bytes)
        }
    }

    /// After these sixels, at least one, which may have no room.
    #[inline(never)]
    fn after_far(self, is_past: bool, bytes: &[u8]) -> Pen
        requires sixels { (k : ℕ) → k < length bytes.now → IsTrue (is_data (slice_index bytes.now k)) }
        requires some { 0 < length bytes.now }
        requires goes { self.ended ≡ false }
        ensures { (before : List AnEvent) → self ≡ xterm_pen before → is_past ≡ is_past_rows before
            → result ≡ xterm_pen (before ++ sixels_of bytes.now) }
    {
        if has_painting(bytes) {
            self.after_each(is_past, bytes)
        } else {
            self.right(bytes.len().min(usize::from(SIDE)) as u16)
        }
    }
}
