//! The rules, one by one.

ghost use Rattle.std.specs.Prelude.{◌≡◌, ◌<◌, ◌+◌, ◌*◌, ℕ, true};
ghost use Rattle.sixel_emulator_rules.specs.Asked as of;
ghost use Rattle.sixel_emulator_rules.specs.Counts as by_notes;

use crate::events::{columns_of, is_data_command, is_painting, is_raster, is_return};
use crate::notes::{Declared, Notes};
use crate::rule::AskedRule;
use sixel_grammar::{Command, Event};
use sixel_mlterm::may_mix;
use sixel_model::BAND_ROWS;

/// The greatest width of a box for xterm.
const MOST_WIDTH: u16 = 1000;

/// Its greatest height: that of whole bands within 1,000 rows.
const MOST_HEIGHT: u16 = 996;

/// The last column for mlterm.
const MOST_COLUMN: u64 = 32767;

/// How far below the box a band may end for mlterm, in rows.
const MARGIN: u64 = 512;

/// The greatest first parameter of an introducer for xterm.
const MOST_FIRST: u16 = 9;

/// The colour system of hue, lightness and saturation.
const HLS: u16 = 1;

impl Notes {
    /// The column after so many more.
    #[inline(always)]
    fn column_after(&self, columns: u32) -> u64
        ensures { result ≡ self.now.column + columns }
    {
        u64::from(self.column) + u64::from(columns)
    }

    /// The top row of the band.
    #[inline(always)]
    fn top(&self) -> u64
        ensures { result ≡ 6 * self.now.band }
    {
        u64::from(BAND_ROWS) * u64::from(self.band)
    }

    /// Whether the event ends right of the box.
    #[inline(always)]
    fn ends_right(&self, declared: Declared, event: &Event) -> bool
        ensures { result ≡ by_notes.ends_right_in self.now declared event.now }
    {
        u64::from(declared.width) < self.column_after(u32::from(columns_of(event)))
    }

    /// Whether the band begins below the box.
    #[inline(always)]
    fn is_below(&self, declared: Declared) -> bool
        ensures { result ≡ by_notes.is_below_in self.now declared }
    {
        u64::from(declared.height) <= self.top()
    }

    /// Whether the event is a data command that leaves the box.
    #[inline(always)]
    fn leaves(&self, declared: Declared, event: &Event) -> bool
        ensures { result ≡ by_notes.leaves_in self.now declared event.now }
    {
        is_data_command(event) && (self.ends_right(declared, event) || self.is_below(declared))
    }

    /// Whether the band ends more than 512 rows below the box.
    #[inline(always)]
    fn is_deep(&self, declared: Declared) -> bool
        ensures { result ≡ by_notes.is_deep_in self.now declared }
    {
        u64::from(declared.height) + MARGIN < self.top() + u64::from(BAND_ROWS)
    }

    /// Whether the event ends right of the box, or in a band far below it.
    #[inline(always)]
    fn leaves_far(&self, declared: Declared, event: &Event) -> bool
        ensures { result ≡ by_notes.leaves_far_in self.now declared event.now }
    {
        self.ends_right(declared, event) || self.is_deep(declared)
    }

    /// The first raster attributes after a select or a definition.
    #[inline(always)]
    fn breaks_raster_late(&self, event: &Event) -> bool
        ensures { result ≡ by_notes.late_in self.now event.now }
    {
        is_raster(event) && self.declared.is_none() && self.named.is_some()
    }

    /// A return or a new line right after a select, a definition or raster attributes.
    #[inline(always)]
    fn breaks_dropped(&self, event: &Event) -> bool
        ensures { result ≡ by_notes.dropped_in self.now event.now }
    {
        is_return(event) && self.droppable
    }

    /// Painting in a register that had another colour when it was selected.
    #[inline(always)]
    fn breaks_stale(&self, event: &Event) -> bool
        ensures { result ≡ by_notes.paints_stale_in self.now event.now }
    {
        is_painting(event) && self.is_stale()
    }

    /// A data command without a set bit right of the box or below it.
    #[inline(always)]
    fn breaks_past(&self, event: &Event) -> bool
        ensures { result ≡ by_notes.past_in self.now event.now }
    {
        match self.declared {
            Some(declared) => !is_painting(event) && self.leaves(declared, event),
            None => false,
        }
    }

    /// A data command that leaves the box too far.
    #[inline(always)]
    fn strays(&self, event: &Event) -> bool
        ensures { result ≡ by_notes.strays_in self.now event.now }
    {
        match self.declared {
            Some(declared) => self.leaves_far(declared, event),
            None => false,
        }
    }

    /// A data command that mlterm may not draw.
    #[inline(always)]
    fn breaks_far(&self, event: &Event) -> bool
        ensures { result ≡ by_notes.far_in self.now event.now }
    {
        is_data_command(event)
            && (self.column_after(u32::from(columns_of(event))) > MOST_COLUMN || self.strays(event))
    }

    /// Whether the event breaks the rule.
    #[inline(always)]
    pub(crate) fn breaks(&self, rule: AskedRule, event: &Event) -> bool
        ensures { result ≡ by_notes.counts_in self.now event.now rule }
    {
        match rule {
            AskedRule::RasterLate => self.breaks_raster_late(event),
            AskedRule::Dropped => self.breaks_dropped(event),
            AskedRule::Stale => self.breaks_stale(event),
            AskedRule::Large => breaks_large(event),
            AskedRule::Rows => breaks_rows(event),
            AskedRule::Past => self.breaks_past(event),
            AskedRule::Hue => breaks_hue(event),
            AskedRule::Far => self.breaks_far(event),
            AskedRule::Introducer => breaks_introducer(event),
            AskedRule::Bare | AskedRule::SpaceAfter => false,
        }
    }

    /// Data commands that end before this column of the band stay in the box, and are not too far out for mlterm.
    #[inline(always)]
    pub(crate) fn near_limit(&self) -> u32
        ensures { (end : ℕ) → end < result → by_notes.is_near_at self.now end ≡ true }
    {
        match self.declared {
            None => 32768,
            Some(declared) if self.top() < u64::from(declared.height) => {
                u32::from(declared.width.min(32767)) + 1
            }
            Some(_) => 0,
        }
    }

    /// Whether so many sixels end in the box, in a band that begins in it.
    #[inline(always)]
    fn fits(&self, columns: u32) -> bool
        ensures { result ≡ by_notes.fits_box_in self.now columns }
    {
        match self.declared {
            Some(declared) => {
                self.column_after(columns) <= u64::from(declared.width)
                    && self.top() < u64::from(declared.height)
            }
            None => true,
        }
    }

    /// The same, and whether they are not too far right for mlterm.
    #[inline(always)]
    pub(crate) fn is_near(&self, columns: u32) -> bool
        ensures { result ≡ by_notes.is_near_in self.now columns }
    {
        self.fits(columns) && self.column_after(columns) <= MOST_COLUMN
    }
}

/// A declared width above 1,000, or a height above 996.
#[tactic(auto, unfolding(crate::specs::Asked::breaks_large))]
#[inline(always)]
fn breaks_large(event: &Event) -> bool
    ensures { result ≡ of.breaks_large event.now }
{
    match event {
        Event::Step(Command::Raster { width, height, .. }) => {
            *width > MOST_WIDTH || *height > MOST_HEIGHT
        }
        _ => false,
    }
}

/// A declared height that is no multiple of six.
#[tactic(auto, unfolding(crate::specs::Asked::breaks_rows))]
#[inline(always)]
fn breaks_rows(event: &Event) -> bool
    ensures { result ≡ of.breaks_rows event.now }
{
    match event {
        Event::Step(Command::Raster { height, .. }) => u32::from(*height) % BAND_ROWS != 0,
        _ => false,
    }
}

/// A definition by hue, lightness and saturation.
#[tactic(auto, unfolding(crate::specs::Asked::breaks_hue))]
#[inline(always)]
fn breaks_hue(event: &Event) -> bool
    ensures { result ≡ of.breaks_hue event.now }
{
    match event {
        Event::Step(Command::Define { system, .. }) => *system == HLS,
        _ => false,
    }
}

/// An introducer of which xterm draws nothing, or by which mlterm may mix colours.
#[tactic(auto, unfolding(crate::specs::Asked::breaks_introducer))]
#[inline(always)]
fn breaks_introducer(event: &Event) -> bool
    ensures { result ≡ of.breaks_introducer event.now }
{
    match event {
        Event::Start { parameters, .. } => {
            let first = parameters.first().copied().unwrap_or(0);
            first > MOST_FIRST || may_mix(first, parameters.get(1).copied().unwrap_or(0))
        }
        _ => false,
    }
}
