//! What a document says, as events. Titles in parentheses are sections of DEC EK-VT3XX-GP-002.

ghost use Rattle.std.specs.Prelude.{◌≡◌, ◌↔◌, IsTrue, Some, None};
ghost use Rattle.sixel_grammar.specs.Spelling.{IsSpellable};
ghost use Rattle.sixel_grammar.specs.Plain.{plain_of};

use arrayvec::ArrayVec;

/// One command of the picture data.
#[derive(Clone, Copy, Debug, PartialEq, Eq)]
pub enum Command {
    /// One column of six pixels. Bit 0 is the top one, and a set bit paints. Values above 63 can't be spelled.
    Sixel(u8),
    /// `!`: the same column, `count` times side by side (Graphics Repeat Introducer).
    Repeat {
        count: u16,
        bits: u8,
    },
    /// The pixel aspect ratio `pan` to `pad`, and the picture's width and height in pixels (Raster Attributes). Missing
    /// fields are 0.
    Raster {
        pan: u16,
        pad: u16,
        width: u16,
        height: u16,
    },
    /// `#` with one field: selects a colour register (Graphics Color Introducer).
    Select(u16),
    /// `#` with five fields: defines the colour of a register. System 1 is HLS: hue in degrees, then lightness and
    /// saturation in percent. System 2 is RGB, each in percent.
    Define {
        register: u16,
        system: u16,
        x: u16,
        y: u16,
        z: u16,
    },
    /// `$`: back to the left margin of the same band of six rows (Graphics Carriage Return).
    CarriageReturn,
    /// `-`: to the left margin of the next band (Graphics New Line).
    NextLine,
}

/// One event of a document: a document is a start, then commands, then a finish.
#[derive(Clone, Debug, PartialEq, Eq, Drop)]
pub enum Event {
    /// The introducer, 8-bit (90) or 7-bit (ESC P), and its parameters. A start without parameters can't be spelled.
    Start {
        eight: bool,
        parameters: ArrayVec<u16, 3>,
    },
    Step(Command),
    /// The terminator, 8-bit (9C) or 7-bit (ESC \).
    Finish {
        eight: bool,
    },
}

/// An event, and the offset of its first byte, in bytes from 0.
#[derive(Clone, Debug, PartialEq, Eq, Drop)]
pub struct Placed {
    pub place: u64,
    pub event: Event,
}

/// The events that one byte completed, in order. Two are a command that the byte ended, and the byte's own event.
#[derive(Clone, Debug, PartialEq, Eq, Drop)]
pub struct Completed {
    pub first: Option<Placed>,
    pub second: Option<Placed>,
}

/// What one byte completed: nothing, or one command.
#[derive(Clone, Copy, Debug, PartialEq, Eq)]
pub enum Plain {
    Nothing,
    /// A command, and the offset of its first byte, in bytes from 0.
    Command { place: u64, command: Command },
}

/// Columns that were read at once, perhaps after a select; or the bytes of a select that is open still.
#[derive(Clone, Copy, Debug, PartialEq, Eq)]
pub struct Run {
    /// The offset of the first byte, in bytes from 0.
    pub place: u64,
    /// The register, if a select comes before the columns.
    pub select: Option<u16>,
    /// How many bytes come before the columns: those of the select.
    pub start: usize,
    /// How many bytes there are in all.
    pub length: usize,
    pub columns: Columns,
}

/// The columns of a run.
#[derive(Clone, Copy, Debug, PartialEq, Eq)]
pub enum Columns {
    /// Each byte is a single sixel.
    Sixels,
    /// The bytes are one repeat.
    Repeat { count: u16, bits: u8 },
    /// None were seen: the run is a select's `#` and its digits, which complete nothing. What follows ends the select,
    /// or makes it a definition.
    Missing,
}

/// Two commands that one byte completed: one that it ended, and its own.
#[derive(Clone, Copy, Debug, PartialEq, Eq)]
pub struct TwoCommands {
    /// The offset of the ended command, in bytes from 0.
    pub place: u64,
    pub ended: Command,
    /// The offset of the byte, in bytes from 0.
    pub own_place: u64,
    pub own: Command,
}

impl Completed {
    #[inline]
    pub(crate) fn of_none() -> Completed
        ensures { result ≡ record { first = None; second = None } }
    {
        Completed {
            first: None,
            second: None,
        }
    }

    #[inline]
    pub(crate) fn of_one(place: u64, event: Event) -> Completed
        ensures { result ≡ record { first = Some (record { place = place; event = event }); second = None } }
    {
        Completed {
            first: Some(Placed { place, event }),
            second: None,
        }
    }

    #[inline]
    pub(crate) fn of_plain(plain: Plain) -> Completed
        ensures { result ≡ plain_of plain }
    {
        match plain {
            Plain::Nothing => Completed::of_none(),
            Plain::Command { place, command } => Completed::of_one(place, Event::Step(command)),
        }
    }

    #[inline]
    pub(crate) fn of_two(place: u64, event: Event, next_place: u64, next: Event) -> Completed
        ensures { result ≡ record {
          first = Some (record { place = place; event = event });
          second = Some (record { place = next_place; event = next });
        } }
    {
        Completed {
            first: Some(Placed { place, event }),
            second: Some(Placed {
                place: next_place,
                event: next,
            }),
        }
    }
}

impl Event {
    /// Whether some bytes spell it: sixel bits are at most 63, and a start has a parameter.
    pub fn is_spellable(&self) -> bool
        ensures { IsTrue result ↔ IsSpellable self.now }
    {
        match self {
            Event::Start {
                eight: _,
                parameters,
            } => !parameters.is_empty(),
            Event::Step(Command::Sixel(bits)) => *bits <= 63,
            Event::Step(Command::Repeat { count: _, bits }) => *bits <= 63,
            _ => true,
        }
    }
}
