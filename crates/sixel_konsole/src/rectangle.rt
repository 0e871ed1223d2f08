//! The rectangle that konsole fills before it draws.

ghost use Rattle.std.specs.Prelude.{◌≡◌, ◌<◌, ◌+◌, ◌-◌, ◌*◌, ◌++◌, ◌∷◌, [], ℕ, IsTrue, List, None, Option, Some};
ghost use Rattle.std.specs.Prelude.{length, min, slice_index, true};
ghost use Rattle.std.specs.Option.{option_map, option_to_list};
ghost use Rattle.sixel_grammar.specs.Bytes.{is_data};
ghost use Rattle.sixel_grammar.specs.declared.command.Command.TheVariants.{Repeat, Select, Sixel};
ghost use Rattle.sixel_grammar.specs.declared.command.Event.{Event as AnEvent};
ghost use Rattle.sixel_grammar.specs.declared.command.Event.TheVariants.{Step as AStep};
ghost use Rattle.sixel_terminal.specs.Stretches.{sixels_of};
ghost use Rattle.sixel_konsole.specs.Konsole as rule;
ghost use Rattle.sixel_konsole.specs.KonsoleMeasured.{HasMeasured, IsReach, drawn_sixels, reached_columns};
ghost use Rattle.sixel_konsole.specs.KonsoleMeasured.{reached_rows};
ghost use Rattle.sixel_konsole.specs.KonsoleMeasured.{rectangle_in};
ghost use Rattle.sixel_emulator.specs.Places.{most};
ghost use Rattle.sixel_emulator.specs.Readings.{drawn_by};

use crate::konsole::{Konsole, Stated, drops};
use sixel_emulator::words::is_data_command;
use sixel_emulator::{Place, Reading, Reads};
use sixel_grammar::{Command, Event};
use sixel_model::BAND_ROWS;

/// How far the data commands of a drawing reach. Numbers stop at `u32::MAX`.
#[derive(Clone, Copy, Debug, PartialEq, Eq)]
pub(crate) struct Reach {
    place: Place,
    /// The greatest column where a data command ends.
    columns: u32,
    /// The greatest row where the band of one ends.
    rows: u32,
}

/// Measures the rectangle that konsole fills, event by event.
#[derive(Clone, Copy, Debug, PartialEq, Eq)]
pub struct KonsoleMeasure {
    reading: Konsole,
    reach: Reach,
}

impl Reach {
    /// Of no commands.
    fn new() -> Reach
        ensures { IsReach result [] }
    {
        Reach {
            place: Place::new(),
            columns: 0,
            rows: 0,
        }
    }

    /// The columns that are reached with one more event, if the next sixel stands in this column then.
    #[inline(always)]
    fn reached_columns(self, event: &Event, column: u32) -> u32
        ensures { result ≡ reached_columns self event.now column }
    {
        if is_data_command(event) {
            self.columns.max(column)
        } else {
            self.columns
        }
    }

    /// The row where the band ends.
    #[inline(always)]
    fn band_end(self) -> u32
        ensures { result ≡ min (6 * self.place.band + 6) most }
    {
        let end = u64::from(self.place.band) * u64::from(BAND_ROWS) + u64::from(BAND_ROWS);
        end.min(u64::from(u32::MAX)) as u32
    }

    /// The rows that are reached with one more event.
    #[inline(always)]
    fn reached_rows(self, event: &Event) -> u32
        ensures { result ≡ reached_rows self event.now }
    {
        if is_data_command(event) {
            self.rows.max(self.band_end())
        } else {
            self.rows
        }
    }

    /// With so many sixels more, at least one.
    #[inline(always)]
    fn with_sixels(self, count: usize) -> Reach
        requires { 0 < count }
        ensures { (drawing : List AnEvent) (bytes : List ℕ) → length bytes ≡ count → IsReach self drawing
            → IsReach result (drawing ++ sixels_of bytes) }
    {
        let place = self.place.after_sixels(count);
        Reach {
            place,
            columns: self.columns.max(place.column),
            rows: self.rows.max(self.band_end()),
        }
    }

    /// With one more command.
    #[inline(always)]
    fn with(self, command: Command) -> Reach
        ensures { (drawing : List AnEvent) → IsReach self drawing → IsReach result (drawing ++ AStep command ∷ []) }
    {
        let event = Event::Step(command);
        let place = self.place.after(&event, 1);
        Reach {
            place,
            columns: self.reached_columns(&event, place.column),
            rows: self.reached_rows(&event),
        }
    }

    /// With what is drawn of one more event.
    #[inline(always)]
    fn with_drawn(self, reads: Reads) -> Reach
        ensures { (drawing : List AnEvent) → IsReach self drawing → IsReach result (drawing ++ drawn_by reads) }
    {
        match reads {
            Reads::Draws(command) => self.with(command),
            Reads::DrawsTwo(first, second) => self.with(first).with(second),
            Reads::Nothing | Reads::Stops | Reads::Unsaid => self,
        }
    }
}

impl KonsoleMeasure {
    /// Of no events.
    pub fn new() -> KonsoleMeasure
        ensures { (next : Option AnEvent) → HasMeasured result [] next }
    {
        KonsoleMeasure {
            reading: Konsole::new(),
            reach: Reach::new(),
        }
    }

    /// Measures one more event. `next` is the one after it, if there is one.
    #[inline(always)]
    pub fn take(&mut self, event: &Event, next: Option<&Event>)
        ensures { (before : List AnEvent) → HasMeasured self.old before (Some event.now)
            → HasMeasured self.new (before ++ event.now ∷ []) (option_map (λ e. e.now) next.entry) }
    {
        self.take_before(event, drops(next));
    }

    /// The same, if the event after it drops or doesn't.
    #[inline(always)]
    pub(crate) fn take_before(&mut self, event: &Event, dropped: bool)
        ensures { (before : List AnEvent) (next : Option AnEvent) → rule.moves_or_ends next ≡ dropped
            → HasMeasured self.old before (Some event.now) → HasMeasured self.new (before ++ event.now ∷ []) next }
    {
        let reads = self.reading.read_before(event, dropped);
        self.reach = self.reach.with_drawn(reads);
    }

    /// The same, whatever follows: what konsole makes of the event doesn't hang on the one after it.
    #[inline(always)]
    pub(crate) fn take_alone(&mut self, event: &Event)
        requires { (before : List AnEvent) (next : Option AnEvent)
            → rule.konsole before event.now next ≡ rule.konsole before event.now None }
        ensures { (before : List AnEvent) (next : Option AnEvent) → HasMeasured self.old before (Some event.now)
            → HasMeasured self.new (before ++ event.now ∷ []) next }
    {
        let reads = self.reading.read(event, None);
        self.reach = self.reach.with_drawn(reads);
    }

    /// Measures a select. Whether it is drawn or dropped, nothing reaches further.
    #[inline(always)]
    pub(crate) fn take_select(&mut self, register: u16)
        ensures { (before : List AnEvent) (next : Option AnEvent)
            → HasMeasured self.old before (Some (AStep (Select register)))
            → HasMeasured self.new (before ++ AStep (Select register) ∷ []) next }
    {
        self.reading.see(&Event::Step(Command::Select(register)));
    }

    /// Measures a repeat, whatever follows.
    #[inline(always)]
    pub(crate) fn take_repeat(&mut self, count: u16, bits: u8)
        ensures { (before : List AnEvent) (next : Option AnEvent)
            → HasMeasured self.old before (Some (AStep (Repeat count bits)))
            → HasMeasured self.new (before ++ AStep (Repeat count bits) ∷ []) next }
    {
        let drawn = Command::Repeat {
            count: count.max(1),
            bits,
        };
        self.reach = self.reach_with(drawn);
        self.reading.see_repeat(count, bits);
    }

    /// How far this data command reaches, too.
    #[inline(always)]
    fn reach_with(&self, command: Command) -> Reach
        ensures { (drawing : List AnEvent) → IsReach self.now.reach drawing
            → IsReach result (drawing ++ drawn_by (rule.konsole_data self.now.reading.stuck command)) }
    {
        if self.reading.stuck {
            self.reach
        } else {
            self.reach.with(command)
        }
    }

    /// Measures the sixels of these data bytes, at least one, whatever follows.
    #[inline(always)]
    pub fn take_sixels(&mut self, bytes: &[u8])
        requires sixels { (k : ℕ) → k < length bytes.now → IsTrue (is_data (slice_index bytes.now k)) }
        requires some { 0 < length bytes.now }
        ensures { (before : List AnEvent) (next : Option AnEvent)
            → HasMeasured self.old before (Some (AStep (Sixel (slice_index bytes.now 0 - 63))))
            → HasMeasured self.new (before ++ sixels_of bytes.now) next }
    {
        self.reach = self.reach_after(bytes.len());
        self.reading.note_sixels(bytes);
    }

    /// How far so many sixels more reach, at least one.
    #[inline(always)]
    fn reach_after(&self, count: usize) -> Reach
        requires { 0 < count }
        ensures { (drawing : List AnEvent) (bytes : List ℕ) → length bytes ≡ count → IsReach self.now.reach drawing
            → IsReach result (drawing ++ drawn_sixels self.now.reading.stuck bytes) }
    {
        if self.reading.stuck {
            self.reach
        } else {
            self.reach.with_sixels(count)
        }
    }

    /// Whether sixel pixels are one pixel high, whatever follows. `false` says nothing.
    pub fn stays_low(&self) -> bool
        ensures { result ≡ true → (events : List AnEvent) (next : Option AnEvent) → HasMeasured self.now events next
            → rule.StaysLow events }
    {
        self.reading.stays_low()
    }

    /// The rectangle of the events of a whole string, as raster attributes; none if the picture hasn't begun.
    pub fn opening(&self) -> Option<Command>
        ensures { (events : List AnEvent) → HasMeasured self.now events None
            → rule.konsole_opening events ≡ option_to_list (option_map AStep result) }
    {
        if self.reading.has_begun(false) {
            Some(self.rectangle())
        } else {
            None
        }
    }

    /// The rectangle of a picture that has begun.
    fn rectangle(&self) -> Command
        ensures { result ≡ rectangle_in self.now }
    {
        let (width, height, tall) = match self.reading.counting(false) {
            Some(stated) => (stated.width, stated.height, stated.tall()),
            None => (30, 6, 1),
        };
        let columns = self.reach.columns.max(u32::from(width));
        let rows = self.reach.rows.max(u32::from(height));
        Command::Raster {
            pan: tall,
            pad: 1,
            width: side(u64::from(columns)),
            height: side(u64::from(rows) * u64::from(tall)),
        }
    }
}

/// A side as raster attributes can say it.
fn side(n: u64) -> u16
    ensures { result ≡ rule.side n }
{
    n.min(65535) as u16
}
