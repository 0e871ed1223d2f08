//! Documents made of known commands; most of them break a rule.

use sixel_grammar::{Command, Event, Placed};
use std::alloc::{AllocError, Global};

/// A document in bytes and in events. The events are those that it was made from; they aren't read from the bytes.
#[derive(Debug, Drop)]
pub struct Made {
    pub bytes: Vec<u8>,
    pub events: Vec<Placed>,
}

/// `"1;1;2;6`, and others.
const fn raster(pan: u16, width: u16) -> Command {
    Command::Raster {
        pan,
        pad: 1,
        width,
        height: 6,
    }
}

/// `#0;2;0;0;0`, and others.
const fn blue(register: u16, percent: u16) -> Command {
    Command::Define {
        register,
        system: 2,
        x: 0,
        y: 0,
        z: percent,
    }
}

/// `#1;1;360;50;100`
const HUE: Command = Command::Define {
    register: 1,
    system: 1,
    x: 360,
    y: 50,
    z: 100,
};

/// `!count~`: all six bits, `count` times.
const fn full(count: u16) -> Command {
    Command::Repeat { count, bits: 63 }
}

/// The first command of a document, by a number: mostly a box of 2 by 6 pixels.
fn first_of(number: u64) -> Command {
    match number % 8 {
        0 => raster(2, 2),
        1 => raster(1, 0),
        2 => Command::Select(0),
        _ => raster(1, 2),
    }
}

/// A command that mostly keeps a document portable.
fn usual(number: u64) -> Command {
    match number {
        0..=1 => Command::Select(0),
        2..=3 => Command::Select(1),
        4..=6 => Command::Sixel(63),
        7..=9 => full(2),
        10..=11 => Command::CarriageReturn,
        12 => Command::Sixel(0),
        13 => Command::Sixel(3),
        _ => Command::Sixel(1),
    }
}

/// A later command, by a number.
fn more_of(number: u64) -> Command {
    match number % 27 {
        15 => Command::NextLine,
        16 => blue(0, 0),
        17 => HUE,
        18 => blue(1, 0),
        19 => blue(1, 101),
        20 => full(0),
        21 => Command::Select(2),
        22 => Command::Select(16),
        23 => blue(16, 0),
        24 => Command::Select(256),
        25 => blue(272, 0),
        26 => raster(1, 2),
        number => usual(number),
    }
}

impl Made {
    /// A document that has only a start.
    fn started(alloc: Global, eight: bool) -> Result<Made, AllocError> {
        let mut made = Made {
            bytes: Vec::new(alloc),
            events: Vec::new(alloc),
        };
        let start: &[u8] = if eight { b"\x90q" } else { b"\x1bPq" };
        let parameters = Default::default();
        made.push_event(Event::Start { eight, parameters }, start)?;
        Ok(made)
    }

    /// Appends an event and its bytes.
    fn push_event(&mut self, event: Event, bytes: &[u8]) -> Result<(), AllocError> {
        let place = self.bytes.len() as u64;
        self.events.push(Placed { place, event })?;
        self.bytes.extend_from_slice(bytes)
    }

    /// Appends a command and the text that spells it.
    fn push_text(&mut self, command: Command, text: &str) -> Result<(), AllocError> {
        self.push_event(Event::Step(command), text.as_bytes())
    }

    /// Appends a sixel of these six bits.
    fn push_sixel(&mut self, bits: u8) -> Result<(), AllocError> {
        let byte = bits.min(63) + b'?';
        self.push_event(Event::Step(Command::Sixel(bits)), &[byte])
    }

    /// Appends a command. The sixel of a repeat is spelled with all six bits.
    fn push(&mut self, alloc: Global, command: Command) -> Result<(), AllocError> {
        let text = match command {
            Command::Sixel(bits) => return self.push_sixel(bits),
            Command::CarriageReturn => return self.push_text(command, "$"),
            Command::NextLine => return self.push_text(command, "-"),
            Command::Repeat { count, .. } => format!(in alloc; "!{count}~")?,
            Command::Raster {
                pan,
                pad,
                width,
                height,
            } => format!(in alloc; "\"{pan};{pad};{width};{height}")?,
            Command::Select(register) => format!(in alloc; "#{register}")?,
            Command::Define {
                register,
                system,
                x,
                y,
                z,
            } => format!(in alloc; "#{register};{system};{x};{y};{z}")?,
        };
        self.push_text(command, &text)
    }

    /// Appends an end.
    fn end(&mut self, eight: bool) -> Result<(), AllocError> {
        let end: &[u8] = if eight { b"\x9c" } else { b"\x1b\\" };
        self.push_event(Event::Finish { eight }, end)
    }
}

/// Makes one document after another, from the numbers of a generator.
#[derive(Debug, Drop)]
pub struct Documents {
    state: u64,
}

impl Documents {
    /// A generator with this first state.
    pub fn new(state: u64) -> Documents {
        Documents { state }
    }

    /// The next number.
    fn number(&mut self) -> u64 {
        self.state = self
            .state
            .wrapping_mul(6_364_136_223_846_793_005)
            .wrapping_add(1_442_695_040_888_963_407);
        self.state
    }

    /// A document: a first command, two definitions, a select, five more commands, an end. One start in eight and one
    /// end in four is an 8-bit control.
    pub fn next_document(&mut self, alloc: Global) -> Result<Made, AllocError> {
        let number = self.number();
        let mut made = Made::started(alloc, (number >> 20) % 8 == 0)?;
        made.push(alloc, first_of(number >> 40))?;
        made.push(alloc, blue(0, 0))?;
        made.push(alloc, HUE)?;
        made.push(alloc, Command::Select(1))?;
        for _ in 0..5u32 {
            let number = self.number();
            made.push(alloc, more_of(number >> 40))?;
        }
        let number = self.number();
        made.end((number >> 20) % 4 == 0)?;
        Ok(made)
    }
}
