//! A drawing by a model of a terminal that may hear a select without a number, and raster attributes, otherwise.

ghost use Rattle.std.specs.Prelude.{◌≡◌, ◌∷◌, [], List, ℕ};
ghost use Rattle.std.specs.Option.{option_to_list};
ghost use Rattle.sixel_grammar.specs.Following.{TakesEvents};
ghost use Rattle.sixel_grammar.specs.declared.command.Command.TheVariants.{Select};
ghost use Rattle.sixel_grammar.specs.declared.command.Event.TheVariants.{Step};
ghost use Rattle.sixel_emulator.specs.Heard.{HasHeardOn, heard_event, heard_raster, heard_select, is_taken};
ghost use Rattle.sixel_emulator.specs.Heard.{is_without_height, nothing_omitted};
ghost use Rattle.sixel_emulator.specs.Modelled.{placed_at};

use crate::listener::Listener;
use crate::words::same;
use sixel_grammar::{Command, Event, Follower, Placed};
use sixel_omissions::WrittenRaster;
use std::convert::Infallible;

/// The greatest number of a ratio that is taken.
const GREATEST_RATIO: u16 = 32767;

/// What a terminal hears of a document that its events don't say.
#[derive(Clone, Copy, Debug, PartialEq, Eq)]
pub enum Hears {
    /// The events as they are.
    Events,
    /// A select without a number, as raster attributes of zeros.
    Selects,
    /// That too, and of raster attributes whether their height is written. If it is written as 0 they are heard as
    /// zeros, and if it isn't they aren't heard, as long as their ratio is taken.
    SelectsAndRasters,
    /// Raster attributes of two numbers, as those of a box of 8 by 6 pixels.
    Boxes,
}

/// How the first raster attributes are heard, by what is written of them.
#[derive(Clone, Copy, Debug, PartialEq, Eq)]
pub enum RasterHeard {
    AsTheyAre,
    /// As `Hears::SelectsAndRasters` says.
    Ratio(WrittenRaster),
    /// As `Hears::Boxes` says.
    Box(WrittenRaster),
}

/// What is heard otherwise.
#[derive(Clone, Copy, Debug, PartialEq, Eq)]
pub struct Omitted {
    /// The offset of the first select without a number.
    pub bare: Option<u64>,
    pub raster: RasterHeard,
}

impl Omitted {
    /// Nothing is heard otherwise.
    pub fn nothing() -> Omitted
        ensures { result ≡ nothing_omitted }
    {
        Omitted {
            bare: None,
            raster: RasterHeard::AsTheyAre,
        }
    }
}

/// What is heard of a select at this offset, if the one at `bare` has no number.
#[inline(always)]
fn heard_select(bare: Option<u64>, place: u64, register: u16) -> Event
    ensures { result ≡ heard_select bare place register }
{
    match bare {
        Some(first) if place == first => raster(0, 0, 0, 0),
        _ => Event::Step(Command::Select(register)),
    }
}

/// Whether a ratio is taken.
fn is_taken(pan: u16, pad: u16) -> bool
    ensures { result ≡ is_taken pan pad }
{
    !(pan == 0 || pad == 0) && !(pan > GREATEST_RATIO || pad > GREATEST_RATIO)
}

/// Whether raster attributes at this offset are those of which this is written, and have a height of 0.
fn is_without_height(
    written: WrittenRaster,
    place: u64,
    pan: u16,
    pad: u16,
    width: u16,
    height: u16,
) -> bool
    ensures { result
        ≡ is_without_height written place (record { pan = pan; pad = pad; width = width; height = height }) }
{
    place == written.place && height == 0
}

/// Raster attributes.
fn raster(pan: u16, pad: u16, width: u16, height: u16) -> Event
    ensures { result ≡ Step (Command.Raster pan pad width height) }
{
    Event::Step(Command::Raster {
        pan,
        pad,
        width,
        height,
    })
}

/// What is heard of raster attributes at this offset.
fn heard_raster(
    heard: RasterHeard,
    place: u64,
    pan: u16,
    pad: u16,
    width: u16,
    height: u16,
) -> Option<Event>
    ensures { option_to_list result
        ≡ heard_raster heard place (record { pan = pan; pad = pad; width = width; height = height }) }
{
    match heard {
        RasterHeard::AsTheyAre => Some(raster(pan, pad, width, height)),
        RasterHeard::Ratio(written) => {
            if !(is_without_height(written, place, pan, pad, width, height) && is_taken(pan, pad)) {
                Some(raster(pan, pad, width, height))
            } else if written.has_four() {
                Some(raster(0, 0, 0, 0))
            } else {
                None
            }
        }
        RasterHeard::Box(written) => {
            if is_without_height(written, place, pan, pad, width, height) && written.has_two() {
                Some(raster(pan, pad, 8, 6))
            } else {
                Some(raster(pan, pad, width, height))
            }
        }
    }
}

/// What is heard of an event at this offset.
#[inline(always)]
fn heard(omitted: Omitted, place: u64, event: Event) -> Option<Event>
    ensures { option_to_list result ≡ heard_event omitted place event }
{
    match event {
        Event::Step(Command::Select(register)) => Some(heard_select(omitted.bare, place, register)),
        Event::Step(
            Command::Raster {
                pan,
                pad,
                width,
                height,
            },
        ) => heard_raster(omitted.raster, place, pan, pad, width, height),
        other => Some(other),
    }
}

/// What takes the events of a document, of which the terminal hears some commands otherwise.
#[derive(Debug, Drop)]
pub struct Hearing<F> {
    pub listener: F,
    pub omitted: Omitted,
}

impl<F: Listener> Hearing<F> {
    /// Takes what is heard of an event.
    #[inline(always)]
    fn push(&mut self, place: u64, event: Event)
        ensures { TakesEvents (HasHeardOn F.has_taken) self.old self.new (placed_at place event ∷ []) }
    {
        if let Some(event) = heard(self.omitted, place, event) {
            self.listener.hear(place, event);
        }
    }

    /// Takes what is heard of a select without columns behind it. `take_select` hears others, and alone calls
    /// `hear_select`: so that is inlined there.
    #[inline(never)]
    fn push_lone_select(&mut self, place: u64, register: u16)
        ensures { TakesEvents (HasHeardOn F.has_taken) self.old self.new
            (placed_at place (Step (Select register)) ∷ []) }
    {
        match self.omitted.bare {
            Some(first) if place == first => self.listener.hear(place, raster(0, 0, 0, 0)),
            _ => self.listener.hear_command(place, Command::Select(register)),
        }
    }

    /// Takes what is heard of a command of a kind that is rare.
    #[inline(never)]
    fn push_rarely(&mut self, place: u64, command: Command)
        ensures { TakesEvents (HasHeardOn F.has_taken) self.old self.new (placed_at place (Step command) ∷ []) }
    {
        self.push(place, Event::Step(command));
    }
}

impl<F: Listener> Follower for Hearing<F> {
    type Stop = Infallible;

    ghost has_taken = { HasHeardOn F.has_taken };

    ghost may_stop = { λ first now stop seen. ⊥ };

    fn take(&mut self, placed: &Placed) -> Result<(), Infallible> {
        self.push(placed.place, same(&placed.event));
        Ok(())
    }

    fn take_command(&mut self, place: u64, command: Command) -> Result<(), Infallible> {
        match command {
            Command::Select(register) => self.push_lone_select(place, register),
            Command::Raster { .. } => self.push_rarely(place, command),
            other => self.listener.hear_command(place, other),
        }
        Ok(())
    }

    fn take_select(&mut self, place: u64, register: u16) -> Result<(), Infallible> {
        match self.omitted.bare {
            Some(first) if place == first => self.listener.hear(place, raster(0, 0, 0, 0)),
            _ => self.listener.hear_select(place, register),
        }
        Ok(())
    }

    fn take_repeat(&mut self, place: u64, count: u16, bits: u8) -> Result<(), Infallible> {
        self.listener.hear_repeat(place, count, bits);
        Ok(())
    }

    fn take_stretch(&mut self, place: u64, bytes: &[u8], count: usize) -> Result<(), Infallible> {
        self.listener.hear_stretch(place, &bytes[..count]);
        Ok(())
    }
}
