//! What xterm makes of events.

ghost use Rattle.std.specs.Prelude.{◌≡◌, ◌<◌, ◌++◌, ◌∷◌, [], ℕ, IsTrue, List, length, slice_index, slice_index_or};
ghost use Rattle.sixel_grammar.specs.Bytes.{is_data};
ghost use Rattle.sixel_grammar.specs.declared.command.Event.{Event as AnEvent};
ghost use Rattle.sixel_terminal.specs.Stretches.{sixels_of};
ghost use Rattle.sixel_xterm.specs.XTerm.{ends_xterm, fills_xterm, has_long_ratio, has_no_ratio, height_of};
ghost use Rattle.sixel_xterm.specs.XTerm.{is_beyond_xterm, is_past_rows, is_xterm_colour, width_of, xterm, xterm_box};
ghost use Rattle.sixel_xterm.specs.XTerm.{xterm_columns, xterm_data, xterm_define, xterm_introducer, xterm_model};
ghost use Rattle.sixel_xterm.specs.XTerm.{xterm_painting, xterm_raster, xterm_reads, xterm_rows, xterm_select, xterm_x};
ghost use Rattle.sixel_xterm.specs.XTermSeen.{HasSeenXTerm, has_room, is_free, next_rows};

use crate::pen::{Pen, SIDE};
use sixel_emulator::words::{is_data_command, kept, second_of};
use sixel_emulator::{Reading, Reads};
use sixel_grammar::{Command, Event};
use sixel_model::BAND_ROWS;

/// How many registers there are. A greater number is taken modulo this.
const REGISTERS: u16 = 1024;

/// The greatest number of which the model says what xterm reads.
const NUMBER: u16 = 32767;

/// What xterm needs to know of the events that it has read.
#[derive(Clone, Copy, Debug, PartialEq, Eq)]
pub struct XTerm {
    pen: Pen,
    /// How many rows are left.
    rows: u16,
    /// The greatest width that raster attributes declared.
    width: u16,
    /// The greatest height.
    height: u16,
    /// Whether a data command came.
    has_data: bool,
    /// The second parameter of the introducer.
    second: u16,
}

/// What it makes of an introducer with this first parameter.
fn read_introducer(first: u16) -> Reads
    ensures { (parameters : List ℕ) → first ≡ slice_index_or parameters 0 0 → result ≡ xterm_introducer parameters }
{
    if first > 9 {
        Reads::Stops
    } else {
        Reads::Nothing
    }
}

/// Whether a ratio has a 0.
fn has_no_ratio(pan: u16, pad: u16) -> bool
    ensures { result ≡ has_no_ratio pan pad }
{
    pan == 0 || pad == 0
}

/// Whether a number of a ratio is above those of which the model speaks.
fn has_long_ratio(pan: u16, pad: u16) -> bool
    ensures { result ≡ has_long_ratio pan pad }
{
    pan > NUMBER || pad > NUMBER
}

/// Whether the sides that raster attributes give end the string.
fn ends(width: u16, height: u16) -> bool
    ensures { result ≡ ends_xterm width height }
{
    width > SIDE || height > SIDE || width == 0
}

fn read_raster(pan: u16, pad: u16, width: u16, height: u16) -> Reads
    ensures { result ≡ xterm_raster (record { pan = pan; pad = pad; width = width; height = height }) }
{
    if has_no_ratio(pan, pad) {
        Reads::Stops
    } else if has_long_ratio(pan, pad) || height == 0 {
        Reads::Unsaid
    } else if ends(width, height) {
        Reads::Stops
    } else {
        Reads::Nothing
    }
}

/// Whether one of the numbers of a definition is above those of which the model speaks.
fn is_beyond(register: u16, system: u16, x: u16, y: u16, z: u16) -> bool
    ensures { result ≡ is_beyond_xterm register (record { system = system; x = x; y = y; z = z }) }
{
    register > NUMBER || system > NUMBER || x > NUMBER || y > NUMBER || z > NUMBER
}

/// Whether a definition gives a colour in range, in a system that there is.
fn is_colour(system: u16, x: u16, y: u16, z: u16) -> bool
    ensures { result ≡ is_xterm_colour (record { system = system; x = x; y = y; z = z }) }
{
    match system {
        1 => x <= 360 && y <= 100 && z <= 100,
        2 => x <= 100 && y <= 100 && z <= 100,
        _ => false,
    }
}

/// The first coordinate of a colour. A hue is taken down to a multiple of 60.
fn first_coordinate(system: u16, x: u16) -> u16
    ensures { result ≡ xterm_x system x }
{
    if system == 1 { x / 60 * 60 } else { x }
}

fn read_definition(register: u16, system: u16, x: u16, y: u16, z: u16) -> Reads
    ensures { result ≡ xterm_define register (record { system = system; x = x; y = y; z = z }) }
{
    if is_beyond(register, system, x, y, z) {
        return Reads::Unsaid;
    }
    if !is_colour(system, x, y, z) {
        return Reads::Stops;
    }
    Reads::Draws(Command::Define {
        register: register % REGISTERS,
        system,
        x: first_coordinate(system, x),
        y,
        z,
    })
}

#[inline(always)]
fn read_select(register: u16) -> Reads
    ensures { result ≡ xterm_select register }
{
    if register > NUMBER {
        Reads::Unsaid
    } else {
        Reads::Draws(Command::Select(register % REGISTERS))
    }
}

/// The width that the event declares, or 0.
fn width_of(event: &Event) -> u16
    ensures { result ≡ width_of event.now }
{
    match event {
        Event::Step(Command::Raster { width, .. }) => *width,
        _ => 0,
    }
}

/// The height that the event declares, or 0.
fn height_of(event: &Event) -> u16
    ensures { result ≡ height_of event.now }
{
    match event {
        Event::Step(Command::Raster { height, .. }) => *height,
        _ => 0,
    }
}

/// How many rows are left after an event.
#[inline(always)]
fn rows_after(rows: u16, event: &Event) -> u16
    ensures { result ≡ next_rows rows event.now }
{
    match event {
        Event::Step(Command::NextLine) => rows.saturating_sub(6),
        _ => rows,
    }
}

impl XTerm {
    /// No event is read.
    pub fn new() -> XTerm
        ensures { HasSeenXTerm result [] }
    {
        XTerm {
            pen: Pen::at_margin(),
            rows: SIDE,
            width: 0,
            height: 0,
            has_data: false,
            second: 0,
        }
    }

    /// Whether a data command fills the box.
    #[inline(always)]
    fn fills(&self) -> bool
        ensures { (before : List AnEvent) → HasSeenXTerm self.now before → result ≡ fills_xterm before }
    {
        !self.has_data && self.second != 1
    }

    /// The box, as raster attributes.
    fn declared(&self) -> Command
        ensures { (before : List AnEvent) → HasSeenXTerm self.now before → result ≡ xterm_box before }
    {
        Command::Raster {
            pan: 1,
            pad: 1,
            width: self.width,
            height: self.height,
        }
    }

    /// Whether the band of the next sixel reaches past the last row.
    #[inline(always)]
    fn is_past_rows(&self) -> bool
        ensures { (before : List AnEvent) → HasSeenXTerm self.now before → result ≡ is_past_rows before }
    {
        u32::from(self.rows) < BAND_ROWS
    }

    /// How many columns are left for a data command.
    fn columns_left(&self) -> u16
        ensures { (before : List AnEvent) → HasSeenXTerm self.now before → result ≡ xterm_columns before }
    {
        let most = if self.is_past_rows() { 1 } else { SIDE };
        self.pen.columns_left().min(most)
    }

    /// Whether a data command that comes next is drawn as it is, if it has room.
    #[inline(always)]
    fn is_free(&self) -> bool
        ensures { (before : List AnEvent) → HasSeenXTerm self.now before → result ≡ is_free before }
    {
        !(self.pen.ended || self.pen.returned || self.fills())
    }

    /// Whether a data command of so many columns with these bits has room, or needs none.
    #[inline(always)]
    fn has_room(&self, count: u16, bits: u8) -> bool
        ensures { (before : List AnEvent) → HasSeenXTerm self.now before → result ≡ has_room before count bits }
    {
        bits % 64 == 0 || (!self.is_past_rows() && count <= self.pen.columns_left())
    }

    /// What a data command paints.
    fn painting(&self, command: Command, count: u16, bits: u8) -> Command
        ensures { (before : List AnEvent) → HasSeenXTerm self.now before
            → result ≡ xterm_painting before command count bits }
    {
        if bits % 64 == 0 {
            command
        } else {
            kept(
                self.columns_left(),
                u32::from(self.rows),
                command,
                count,
                bits,
            )
        }
    }

    #[inline(always)]
    fn read_data(&self, command: Command, count: u16, bits: u8) -> Reads
        ensures { (before : List AnEvent) → HasSeenXTerm self.now before
            → result ≡ xterm_data before command count bits }
    {
        if count == 0 {
            return Reads::Unsaid;
        }
        let painting = self.painting(command, count, bits);
        if self.fills() {
            Reads::DrawsTwo(self.declared(), painting)
        } else if self.pen.returned {
            Reads::DrawsTwo(Command::CarriageReturn, painting)
        } else {
            Reads::Draws(painting)
        }
    }

    /// What it makes of the event if the string goes on.
    #[inline(always)]
    fn read_event(&self, event: &Event) -> Reads
        ensures { (before : List AnEvent) → HasSeenXTerm self.now before
            → result ≡ xterm_reads before event.now }
    {
        match event {
            Event::Step(Command::Sixel(bits)) => self.read_data(Command::Sixel(*bits), 1, *bits),
            Event::Step(Command::Repeat { count, bits }) => {
                let command = Command::Repeat {
                    count: *count,
                    bits: *bits,
                };
                self.read_data(command, *count, *bits)
            }
            Event::Step(
                Command::Raster {
                    pan,
                    pad,
                    width,
                    height,
                },
            ) => read_raster(*pan, *pad, *width, *height),
            Event::Step(Command::Select(register)) => read_select(*register),
            Event::Step(
                Command::Define {
                    register,
                    system,
                    x,
                    y,
                    z,
                },
            ) => read_definition(*register, *system, *x, *y, *z),
            Event::Step(Command::CarriageReturn) => Reads::Draws(Command::CarriageReturn),
            Event::Step(Command::NextLine) => Reads::Draws(Command::NextLine),
            Event::Start { parameters, .. } => {
                read_introducer(parameters.get(0).copied().unwrap_or(0))
            }
            Event::Finish { .. } => Reads::Nothing,
        }
    }

    /// With one more event read.
    #[inline(always)]
    fn after(self, event: &Event) -> XTerm
        ensures { (before : List AnEvent) → HasSeenXTerm self before
            → HasSeenXTerm result (before ++ event.now ∷ []) }
    {
        XTerm {
            pen: self.pen.after(self.is_past_rows(), event),
            rows: rows_after(self.rows, event),
            width: self.width.max(width_of(event)),
            height: self.height.max(height_of(event)),
            has_data: self.has_data | is_data_command(event),
            second: second_of(event).unwrap_or(self.second),
        }
    }
}

impl XTerm {
    /// With these sixels read.
    #[inline(always)]
    fn after_sixels(self, bytes: &[u8]) -> XTerm
        requires { (k : ℕ) → k < length bytes.now → IsTrue (is_data (slice_index bytes.now k)) }
        ensures { (before : List AnEvent) → HasSeenXTerm self before
            → HasSeenXTerm result (before ++ sixels_of bytes.now) }
    {
        XTerm {
            pen: self.pen.after_sixels(self.is_past_rows(), bytes),
            has_data: self.has_data | (bytes.len() > 0),
            ..self
        }
    }
}

impl Reading for XTerm {
    ghost model = { xterm_model };

    ghost has_seen = { HasSeenXTerm };

    #[inline(always)]
    fn read(&mut self, event: &Event, _next: Option<&Event>) -> Reads {
        let reads = if self.pen.ended {
            Reads::Stops
        } else {
            self.read_event(event)
        };
        *self = self.after(event);
        reads
    }

    fn waits(&self, _event: &Event) -> bool {
        false
    }

    fn plain_sixels(&self) -> usize {
        if !self.is_free() {
            0
        } else if self.is_past_rows() {
            0
        } else {
            usize::from(self.pen.columns_left())
        }
    }

    fn draws_blanks(&self) -> bool {
        self.is_free()
    }

    #[inline(always)]
    fn note_sixels(&mut self, bytes: &[u8]) {
        *self = self.after_sixels(bytes);
    }

    fn kept_columns(&self, _zero_columns: u8) -> Option<usize> {
        None
    }

    #[inline(always)]
    fn is_plain_repeat(&self, count: u16, bits: u8) -> bool {
        count != 0 && self.is_free() && self.has_room(count, bits)
    }

    #[inline(always)]
    fn note_repeat(&mut self, count: u16, bits: u8) {
        *self = self.after(&Event::Step(Command::Repeat { count, bits }));
    }
}
