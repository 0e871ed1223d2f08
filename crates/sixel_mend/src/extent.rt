//! How far the data commands of a string reach.

ghost use Rattle.std.specs.Prelude.{◌≡◌, ◌++◌, ◌∷◌, [], ◌<◌, ◌≤◌, ◌+◌, ◌-◌, ◌*◌, ◌%◌, ◌^◌, List, ℕ, IsTrue, length};
ghost use Rattle.std.specs.Prelude.{max, min};
ghost use Rattle.std.specs.Prelude.{slice_index};
ghost use Rattle.sixel_grammar.specs.declared.command.Event.{Event as AnEvent};
ghost use Rattle.sixel_grammar.specs.declared.command.Event.TheVariants.{Step};
ghost use Rattle.sixel_grammar.specs.Bytes.{is_data};
ghost use Rattle.sixel_grammar.specs.Document.{events_of};
ghost use Rattle.sixel_model.specs.Geometry.{band_rows};
ghost use Rattle.sixel_terminal.specs.Stretches.{sixels_of};
ghost use Rattle.sixel_mend.specs.Extents.{depth, reached};
ghost use Rattle.sixel_mend.specs.declared.mending.Mending.{Mending as AMending};
ghost use Rattle.sixel_mend.specs.Measures.{IsSized, Measures, most, next_band, next_column, next_declared};
ghost use Rattle.sixel_mend.specs.Measures.{next_has_hls};
ghost use Rattle.sixel_mend.specs.Measures.{reached_column};
ghost use Rattle.sixel_mend.specs.Measures.{reached_row};

use sixel_grammar::{Command, Event, Follower, Placed};
use sixel_model::BAND_ROWS;
use std::convert::Infallible;

/// The sides of a declared box, in pixels.
#[derive(Clone, Copy, Debug, PartialEq, Eq)]
pub(crate) struct Sides {
    pub width: u16,
    pub height: u16,
}

/// Measures the picture that `mend` makes of a document, event by event: how far its data commands reach. Numbers stop
/// at `u32::MAX`, which is more than any picture has.
#[derive(Clone, Copy, Debug, PartialEq, Eq)]
pub struct Extent {
    /// The column of the next sixel.
    pub(crate) column: u32,
    /// The band of the next sixel.
    pub(crate) band: u32,
    /// One more than the greatest column of a touched point; 0 if no point is touched.
    pub(crate) width: u32,
    /// The same for rows.
    pub(crate) height: u32,
    /// The box of the first raster attributes.
    pub(crate) declared: Option<Sides>,
    /// Whether some definition gives an HLS colour.
    pub(crate) has_hls: bool,
}

/// How many rows of its band a sixel reaches down.
#[inline(always)]
fn depth(bits: u8) -> u32
    ensures value { result ≡ depth bits }
    ensures few { result ≤ BAND_ROWS }
    ensures above { bits % 64 < 2 ^ result }
{
    u32::BITS - u32::from(bits % 64).leading_zeros()
}

/// The greatest of these data bytes, or `?` if there is none.
fn greatest(bytes: &[u8]) -> u8
    requires { (k : ℕ) → k < length bytes.now → IsTrue (is_data (slice_index bytes.now k)) }
    ensures most { (k : ℕ) → k < length bytes.now → slice_index bytes.now k ≤ result }
    ensures sixel { (63 ≤ result) × (result ≤ 126) }
{
    let mut greatest = b'?';
    for byte in bytes {
        greatest = greatest.max(*byte);
    }
    greatest
}

/// The greater of a side and a declared one.
fn greater(side: u32, declared: u16) -> u32
    ensures value { result ≡ max side declared }
    ensures small { declared ≤ most }
{
    side.max(u32::from(declared))
}

impl Extent {
    /// The extent before any event.
    pub fn new() -> Extent
        ensures { Measures result [] }
    {
        Extent {
            column: 0,
            band: 0,
            width: 0,
            height: 0,
            declared: None,
            has_hls: false,
        }
    }

    /// The extent after a data command of so many columns.
    #[inline(always)]
    fn reaching(self, columns: u16, bits: u8) -> Extent
        ensures { result ≡ record self {
          column = min (self.column + columns) most;
          width = reached self.width (depth bits) (min (self.column + columns) most);
          height = reached self.height (depth bits) (min (band_rows * self.band + depth bits) most);
        } }
    {
        let column = self.column.saturating_add(u32::from(columns));
        let rows = depth(bits);
        if rows == 0 {
            return Extent { column, ..self };
        }
        let bottom = self.band.saturating_mul(BAND_ROWS).saturating_add(rows);
        Extent {
            column,
            width: self.width.max(column),
            height: self.height.max(bottom),
            ..self
        }
    }

    /// The extent after a command.
    #[inline(always)]
    fn after(self, command: Command) -> Extent
        ensures column { result.column ≡ next_column self (Step command) }
        ensures band { result.band ≡ next_band self (Step command) }
        ensures width { result.width ≡ reached_column self (Step command) }
        ensures height { result.height ≡ reached_row self (Step command) }
        ensures declared { result.declared ≡ next_declared self (Step command) }
        ensures hls { result.has_hls ≡ next_has_hls self (Step command) }
    {
        match command {
            Command::Sixel(bits) => self.reaching(1, bits),
            Command::Repeat { count, bits } => self.reaching(count.max(1), bits),
            Command::Raster { width, height, .. } => Extent {
                declared: self.declared.or(Some(Sides { width, height })),
                ..self
            },
            Command::Define { system, .. } => Extent {
                has_hls: self.has_hls || system == 1,
                ..self
            },
            Command::CarriageReturn => Extent { column: 0, ..self },
            Command::NextLine => Extent {
                column: 0,
                band: self.band.saturating_add(1),
                ..self
            },
            Command::Select(_) => self,
        }
    }

    /// The extent after one more event. It is inlined, so that a caller that knows the kind keeps only its code.
    #[inline(always)]
    fn with(self, event: &Event) -> Extent
        ensures { (before : List AnEvent) → Measures self before → Measures result (before ++ event.now ∷ []) }
    {
        match event {
            Event::Step(command) => self.after(*command),
            _ => self,
        }
    }

    /// Whether a stretch of these sixels reaches no further than the commands before.
    #[inline(always)]
    fn has_room(&self, bytes: &[u8]) -> bool
        requires { (k : ℕ) → k < length bytes.now → IsTrue (is_data (slice_index bytes.now k)) }
        ensures across { IsTrue result → self.now.column + length bytes.now ≤ self.now.width }
        ensures down { IsTrue result → (k : ℕ) → k < length bytes.now
            → band_rows * self.now.band + depth (slice_index bytes.now k - 63) ≤ self.now.height }
    {
        self.column <= self.width
            && bytes.len() <= (self.width - self.column) as usize
            && (self.has_band() || self.has_rows(bytes))
    }

    /// Whether no sixel of the band reaches further down than the commands before.
    #[inline(always)]
    fn has_band(&self) -> bool
        ensures { IsTrue result → band_rows * self.now.band + band_rows ≤ self.now.height }
    {
        u64::from(BAND_ROWS) * (u64::from(self.band) + 1) <= u64::from(self.height)
    }

    /// Whether none of these sixels reaches further down than the commands before. The greatest byte has the lowest bit
    /// of all.
    fn has_rows(&self, bytes: &[u8]) -> bool
        requires { (k : ℕ) → k < length bytes.now → IsTrue (is_data (slice_index bytes.now k)) }
        ensures { IsTrue result → (k : ℕ) → k < length bytes.now
            → band_rows * self.now.band + depth (slice_index bytes.now k - 63) ≤ self.now.height }
    {
        let rows = depth(greatest(bytes) - b'?');
        u64::from(BAND_ROWS) * u64::from(self.band) + u64::from(rows) <= u64::from(self.height)
    }

    /// Follows the sixels of these data bytes one by one.
    fn follow_each(&mut self, bytes: &[u8])
        requires { (k : ℕ) → k < length bytes.now → IsTrue (is_data (slice_index bytes.now k)) }
        ensures { (before : List AnEvent) → Measures self.old before
            → Measures self.new (before ++ sixels_of bytes.now) }
    {
        for byte in bytes {
            *self = self.with(&Event::Step(Command::Sixel(byte - b'?')));
        }
    }

    /// Follows the sixels of these data bytes, in order.
    fn follow_stretch(&mut self, bytes: &[u8])
        requires { (k : ℕ) → k < length bytes.now → IsTrue (is_data (slice_index bytes.now k)) }
        ensures { (before : List AnEvent) → Measures self.old before
            → Measures self.new (before ++ sixels_of bytes.now) }
    {
        if self.has_room(bytes) {
            self.column += bytes.len() as u32;
        } else {
            self.follow_each(bytes);
        }
    }

    /// The width and the height of the picture, in pixels.
    pub(crate) fn size(self) -> (u32, u32)
        ensures { (mending : AMending) (events : List AnEvent) → Measures self events
            → IsSized mending events result.0 result.1 }
    {
        match self.declared {
            None => (self.width, self.height),
            Some(sides) => (
                greater(self.width, sides.width),
                greater(self.height, sides.height),
            ),
        }
    }
}

impl Follower for Extent {
    type Stop = Infallible;

    ghost has_taken = { λ first now seen. Measures now (events_of seen) };

    ghost may_stop = { λ first now stop seen. ⊥ };

    #[tactic(auto, using(crate::proofs::MeasureLemmas::measures_one))]
    fn take(&mut self, placed: &Placed) -> Result<(), Infallible> {
        *self = self.with(&placed.event);
        Ok(())
    }

    #[inline(always)]
    #[tactic(auto, using(crate::proofs::MeasureLemmas::measures_one))]
    fn take_command(&mut self, _place: u64, command: Command) -> Result<(), Infallible> {
        *self = self.with(&Event::Step(command));
        Ok(())
    }

    #[inline(always)]
    #[tactic(auto, using(crate::proofs::MeasureLemmas::measures_one))]
    fn take_select(&mut self, _place: u64, register: u16) -> Result<(), Infallible> {
        *self = self.with(&Event::Step(Command::Select(register)));
        Ok(())
    }

    #[inline(always)]
    #[tactic(auto, using(crate::proofs::MeasureLemmas::measures_one))]
    fn take_repeat(&mut self, _place: u64, count: u16, bits: u8) -> Result<(), Infallible> {
        *self = self.with(&Event::Step(Command::Repeat { count, bits }));
        Ok(())
    }

    fn take_stretch(&mut self, _place: u64, bytes: &[u8], count: usize) -> Result<(), Infallible> {
        self.follow_stretch(&bytes[..count]);
        Ok(())
    }
}
