//! What foot makes of events.

mod colours;
mod size;

ghost use Rattle.std.specs.Prelude.{◌≡◌, ◌<◌, ◌||◌, ◌++◌, ◌∷◌, [], ℕ, IfOk, IsTrue, List, Option, length, slice_index};
ghost use Rattle.std.specs.List.{list_any};
ghost use Rattle.std.specs.Option.{option_map};
ghost use Rattle.sixel_grammar.specs.Bytes.{is_data};
ghost use Rattle.sixel_grammar.specs.declared.command.Event.{Event as AnEvent};
ghost use Rattle.sixel_model.specs.Events.{is_painting};
ghost use Rattle.sixel_terminal.specs.Stretches.{sixels_of};
ghost use Rattle.sixel_foot.specs.Foot.{foot, foot_data, foot_introducer, foot_model, foot_raster, foot_select};
ghost use Rattle.sixel_foot.specs.Foot.{has_begun_on_foot, is_last, spoils_on_foot};
ghost use Rattle.sixel_foot.specs.FootSeen.{HasSeenFoot};

use crate::foot::colours::Colours;
use crate::foot::size::Growing;
use sixel_emulator::words::{defining, has_painting, is_painting, is_raster, kept};
use sixel_emulator::{Reading, Reads};
use sixel_grammar::{Command, Event};
use sixel_model::BAND_ROWS;
use std::alloc::{AllocError, Global};

/// The register of the pen, and the one that stands for what was never defined.
const PEN: u16 = 0;

pub(crate) const UNDEFINED: u16 = 1;

/// What foot needs to know of the events that it has read.
#[derive(Debug, Drop)]
pub struct Foot {
    colours: Colours,
    size: Growing,
    /// Whether something is painted.
    has_painted: bool,
}

/// Whether the terminator is next.
fn is_last(next: Option<&Event>) -> bool
    ensures { result ≡ is_last (option_map (λ e. e.now) next.entry) }
{
    matches!(next, Some(Event::Finish { .. }))
}

/// What the introducer draws. `second` is its second parameter.
fn read_introducer(second: u16) -> Reads
    ensures { result ≡ foot_introducer second }
{
    if second == 1 {
        Reads::Nothing
    } else {
        Reads::Draws(Command::Define {
            register: UNDEFINED,
            system: 2,
            x: 0,
            y: 0,
            z: 0,
        })
    }
}

impl Foot {
    /// Nothing has been read.
    pub fn new(alloc: Global) -> Result<Foot, AllocError>
        ensures { IfOk result (λ foot. HasSeenFoot foot []) }
    {
        Ok(Foot {
            colours: Colours::new(alloc)?,
            size: Growing::new(),
            has_painted: false,
        })
    }

    /// Whether something is painted, or the next sixel isn't in the first band.
    fn has_begun(&self) -> bool
        ensures { (before : List AnEvent) → HasSeenFoot self.now before → result ≡ has_begun_on_foot before }
    {
        self.has_painted || self.size.place.band > 0
    }

    /// Whether raster attributes with these sides count, and cut off what is painted.
    fn spoils(&self, width: u16, height: u16) -> bool
        ensures { (before : List AnEvent) → HasSeenFoot self.now before
            → result ≡ spoils_on_foot before width height }
    {
        self.size.counts(width, height) && self.size.cuts(width, height) && self.has_begun()
    }

    fn read_raster(&self, width: u16, height: u16, next: Option<&Event>) -> Reads
        ensures { (before : List AnEvent) → HasSeenFoot self.now before
            → result ≡ foot_raster before width height (option_map (λ e. e.now) next.entry) }
    {
        if is_last(next) {
            Reads::Nothing
        } else if self.spoils(width, height) {
            Reads::Unsaid
        } else {
            Reads::Nothing
        }
    }

    #[inline(always)]
    fn read_select(&self, register: u16) -> Reads
        ensures { (before : List AnEvent) → HasSeenFoot self.now before → result ≡ foot_select before register }
    {
        match self.colours.colour_of(register) {
            Some(colour) => Reads::DrawsTwo(defining(PEN, colour), Command::Select(PEN)),
            None => Reads::Draws(Command::Select(UNDEFINED)),
        }
    }

    #[inline(always)]
    fn read_data(&self, command: Command, count: u16, bits: u8) -> Reads
        ensures { (before : List AnEvent) → HasSeenFoot self.now before
            → result ≡ foot_data before command count bits }
    {
        Reads::Draws(kept(count, self.size.rows, command, count, bits))
    }

    /// What it makes of the event.
    #[inline(always)]
    fn read_event(&self, event: &Event, next: Option<&Event>) -> Reads
        ensures { (before : List AnEvent) → HasSeenFoot self.now before
            → result ≡ foot before event.now (option_map (λ e. e.now) next.entry) }
    {
        match event {
            Event::Step(Command::Sixel(bits)) => self.read_data(Command::Sixel(*bits), 1, *bits),
            Event::Step(Command::Repeat { count, bits }) => {
                let count = (*count).max(1);
                let command = Command::Repeat { count, bits: *bits };
                self.read_data(command, count, *bits)
            }
            Event::Step(Command::Raster { width, height, .. }) => {
                self.read_raster(*width, *height, next)
            }
            Event::Step(Command::Select(register)) => self.read_select(*register),
            Event::Step(Command::CarriageReturn) => Reads::Draws(Command::CarriageReturn),
            Event::Step(Command::NextLine) => Reads::Draws(Command::NextLine),
            Event::Step(Command::Define { .. }) => Reads::Nothing,
            Event::Start { parameters, .. } => {
                read_introducer(parameters.get(1).copied().unwrap_or(0))
            }
            Event::Finish { .. } => Reads::Nothing,
        }
    }

    /// Whether something is painted, or one of the sixels of these data bytes paints.
    #[inline(always)]
    fn paints_with(&self, bytes: &[u8]) -> bool
        requires { (k : ℕ) → k < length bytes.now → IsTrue (is_data (slice_index bytes.now k)) }
        ensures { result ≡ (self.now.has_painted || list_any is_painting (sixels_of bytes.now)) }
    {
        self.has_painted || has_painting(bytes)
    }

    /// Notes one more event.
    #[inline(always)]
    fn note(&mut self, event: &Event)
        ensures { (before : List AnEvent) → HasSeenFoot self.old before
            → HasSeenFoot self.new (before ++ event.now ∷ []) }
    {
        self.colours.note(event);
        self.size = self.size.after(event);
        self.has_painted |= is_painting(event);
    }
}

impl Reading for Foot {
    ghost model = { foot_model };

    ghost has_seen = { HasSeenFoot };

    #[inline(always)]
    fn read(&mut self, event: &Event, next: Option<&Event>) -> Reads {
        let reads = self.read_event(event, next);
        self.note(event);
        reads
    }

    fn waits(&self, event: &Event) -> bool {
        is_raster(event)
    }

    fn plain_sixels(&self) -> usize {
        if self.size.rows < BAND_ROWS {
            0
        } else {
            usize::MAX
        }
    }

    fn draws_blanks(&self) -> bool {
        false
    }

    fn note_sixels(&mut self, bytes: &[u8]) {
        let has_painted = self.paints_with(bytes);
        self.size = self.size.after_sixels(bytes.len());
        self.has_painted = has_painted;
    }

    fn kept_columns(&self, _zero_columns: u8) -> Option<usize> {
        None
    }

    #[inline(always)]
    fn is_plain_repeat(&self, count: u16, _bits: u8) -> bool {
        count != 0 && self.size.rows >= BAND_ROWS
    }

    #[inline(always)]
    fn note_repeat(&mut self, count: u16, bits: u8) {
        self.note(&Event::Step(Command::Repeat { count, bits }));
    }
}
