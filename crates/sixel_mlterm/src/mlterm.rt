//! What mlterm makes of the events of a string.

mod buffer;

ghost use Rattle.std.specs.Prelude.{◌≡◌, ◌<◌, ◌≤◌, ◌+◌, ◌++◌, ◌∷◌, [], ℕ, IfSome, IsTrue, List, Option, length};
ghost use Rattle.std.specs.Prelude.{slice_index, true};
ghost use Rattle.sixel_grammar.specs.Bytes.{is_data};
ghost use Rattle.sixel_grammar.specs.declared.command.Command.TheVariants.{Repeat};
ghost use Rattle.sixel_grammar.specs.declared.command.Event.{Event as AnEvent};
ghost use Rattle.sixel_grammar.specs.declared.command.Event.TheVariants.{Step as AStep};
ghost use Rattle.sixel_terminal.specs.Stretches.{sixels_of};
ghost use Rattle.sixel_mlterm.specs.MlTerm as rule;
ghost use Rattle.sixel_mlterm.specs.MlTermSeen.{HasSeenMlTerm, buffer_of, free_columns, next_buffer, next_said};
ghost use Rattle.sixel_mlterm.specs.MlTermSeen.{next_selected, said_in};

use crate::mlterm::buffer::{Buffer, is_past_all};
use sixel_emulator::words::{
    columns_of, defining, is_painting, is_repeat_of_zero, named_by, nearest,
};
use sixel_emulator::{Place, Reading, Reads};
use sixel_grammar::{Command, Event};
use sixel_model::{BAND_ROWS, Colour};

/// How many registers mlterm has. A greater number is register 0.
const REGISTERS: usize = 1024;

/// The reading of mlterm: what its rule needs to know of the events so far.
#[derive(Debug, Drop)]
pub struct MlTerm {
    place: Place,
    /// The selected register.
    selected: u16,
    /// Whether the model says the colour that a definition gave last, for each register that has one.
    said: [Option<bool>; REGISTERS],
    buffer: Buffer,
}

/// The register that mlterm takes for a number.
fn register_of(number: u16) -> u16
    ensures value { result ≡ rule.mlterm_register number }
    ensures below { result < 1024 }
{
    if number < 1024 { number } else { 0 }
}

/// The colour of a definition.
fn colour_of(system: u16, x: u16, y: u16, z: u16) -> Option<Colour>
    ensures { result ≡ rule.mlterm_colour system x y z }
{
    nearest(if system == 9 { 2 } else { system }, x, y, z)
}

/// The register to which the event gives a colour, and whether the model says which.
fn given_by(event: &Event) -> Option<(u16, bool)>
    ensures value { result ≡ rule.given_by event.now }
    ensures below { IfSome result (λ given. given.0 < 1024) }
{
    match event {
        Event::Step(
            Command::Define {
                register,
                system: 3,
                ..
            },
        ) => Some((register_of(*register), false)),
        Event::Step(
            Command::Define {
                register,
                system,
                x,
                y,
                z,
            },
        ) if colour_of(*system, *x, *y, *z).is_some() => Some((register_of(*register), true)),
        _ => None,
    }
}

/// Whether the first digit of a number is 5.
fn begins_with_five(number: u16) -> bool
    ensures { result ≡ rule.begins_with_five number }
{
    number == 5
        || number / 10 == 5
        || number / 100 == 5
        || number / 1000 == 5
        || number / 10000 == 5
}

/// The first two digits of a number of two digits or more.
fn first_two(number: u16) -> u16
    ensures { result ≡ rule.first_two number }
{
    match number {
        0..=99 => number,
        100..=999 => number / 10,
        1000..=9999 => number / 100,
        _ => number / 1000,
    }
}

/// Whether an introducer with these first parameters may mix colours.
pub fn may_mix(first: u16, second: u16) -> bool
    ensures { result ≡ rule.may_mix first second }
{
    if begins_with_five(first) {
        true
    } else if first <= 9 {
        begins_with_five(second)
    } else {
        first_two(first) % 10 == 5
    }
}

impl MlTerm {
    /// Before any event.
    pub fn new() -> MlTerm
        ensures { HasSeenMlTerm result [] }
    {
        MlTerm {
            place: Place::new(),
            selected: 0,
            said: [None; REGISTERS],
            buffer: Buffer::new(),
        }
    }

    /// The column at which the event ends.
    #[inline(always)]
    fn end(&self, event: &Event) -> u64
        ensures { result ≡ rule.end_of self.now.place.column event.now }
    {
        u64::from(self.place.column) + u64::from(columns_of(event))
    }

    /// The rows down to the end of the band.
    #[inline(always)]
    fn rows(&self) -> u64
        ensures { result ≡ rule.rows_to self.now.place.band }
    {
        u64::from(BAND_ROWS) * u64::from(self.place.band) + u64::from(BAND_ROWS)
    }

    /// Notes the register that the event names, and whether it gives that a colour.
    #[inline(always)]
    fn name(&mut self, event: &Event)
        ensures { self.new ≡ record self.old {
          selected = next_selected self.old event.now;
          said = next_said self.old.said event.now;
        } }
    {
        if let Some(number) = named_by(event) {
            self.selected = register_of(number);
        }
        if let Some((register, is_said)) = given_by(event) {
            self.said[register as usize] = Some(is_said);
        }
    }

    /// Whether the model says the colour of the selected register.
    #[inline(always)]
    fn is_said(&self) -> bool
        ensures { result ≡ said_in self.now }
    {
        self.said
            .get(usize::from(self.selected))
            .copied()
            .flatten()
            .unwrap_or(self.selected <= 255)
    }

    /// Whether it paints in a register of which the model doesn't say the colour.
    #[inline(always)]
    fn is_chance(&self, event: &Event) -> bool
        ensures { result ≡ rule.is_chance (said_in self.now) event.now }
    {
        is_painting(event) && !self.is_said()
    }

    /// Whether the model doesn't say what mlterm does at a data command.
    #[inline(always)]
    fn is_unsaid_data(&self, event: &Event) -> bool
        ensures { result ≡ rule.is_unsaid_data (buffer_of self.now.buffer) self.now.place.column self.now.place.band
            (said_in self.now) event.now }
    {
        let (end, rows) = (self.end(event), self.rows());
        is_repeat_of_zero(event)
            || is_past_all(end, rows)
            || self.buffer.is_lost(end, rows, event)
            || self.is_chance(event)
    }

    /// What it makes of a sixel or a repeat.
    #[inline(always)]
    fn data(&self, command: Command) -> Reads
        ensures { (before : List AnEvent) → HasSeenMlTerm self.now before → result ≡ rule.mlterm_data before command }
    {
        if self.is_unsaid_data(&Event::Step(command)) {
            Reads::Unsaid
        } else {
            Reads::Draws(command)
        }
    }

    /// Whether pixels are copied past a block of memory at raster attributes of these sides.
    fn copies_past(&self, width: u16, height: u16) -> bool
        ensures { (before : List AnEvent) → HasSeenMlTerm self.now before
            → result ≡ rule.raster_copies_past before width height }
    {
        let sides = self.buffer.raster_sides(width, height);
        self.buffer.copies_past(self.rows(), sides)
    }

    /// What it makes of a command.
    #[inline(always)]
    fn command(&self, command: Command) -> Reads
        ensures { (before : List AnEvent) (next : Option AnEvent) → HasSeenMlTerm self.now before
            → result ≡ rule.mlterm before (AStep command) next }
    {
        match command {
            Command::Sixel(_) | Command::Repeat { .. } => self.data(command),
            Command::Raster {
                pan: 0,
                pad: 0,
                width: 0,
                height: 0,
            } => Reads::Unsaid,
            Command::Raster { width, height, .. } if self.copies_past(width, height) => {
                Reads::Unsaid
            }
            Command::Raster { .. } => Reads::Nothing,
            Command::Select(number) => Reads::Draws(Command::Select(register_of(number))),
            Command::Define {
                register,
                system,
                x,
                y,
                z,
            } => define_and_select(register_of(register), colour_of(system, x, y, z)),
            Command::CarriageReturn | Command::NextLine => Reads::Draws(command),
        }
    }

    /// What it makes of an event.
    #[inline(always)]
    fn reads(&self, event: &Event) -> Reads
        ensures { (before : List AnEvent) (next : Option AnEvent) → HasSeenMlTerm self.now before
            → result ≡ rule.mlterm before event.now next }
    {
        match event {
            Event::Step(command) => self.command(*command),
            Event::Start { parameters, .. } => read_introducer(
                parameters.first().copied().unwrap_or(0),
                parameters.get(1).copied().unwrap_or(0),
            ),
            Event::Finish { .. } => Reads::Nothing,
        }
    }

    /// The buffer with one more event.
    #[inline(always)]
    fn buffer_with(&self, event: &Event) -> Buffer
        ensures { buffer_of result ≡ next_buffer self.now event.now }
    {
        match event {
            Event::Step(Command::Raster { width, height, .. }) => self
                .buffer
                .resized(self.buffer.raster_sides(*width, *height)),
            Event::Step(Command::Sixel(_) | Command::Repeat { .. }) => {
                self.buffer.with_data(self.end(event), self.rows())
            }
            Event::Step(Command::NextLine) => self.buffer.with_line(),
            _ => self.buffer,
        }
    }

    /// Notes one more event.
    #[inline(always)]
    fn see(&mut self, event: &Event)
        ensures { (before : List AnEvent) → HasSeenMlTerm self.old before
            → HasSeenMlTerm self.new (before ++ event.now ∷ []) }
    {
        let buffer = self.buffer_with(event);
        self.name(event);
        self.buffer = buffer;
        self.place = self.place.after(event, 0);
    }

    /// Up to how many columns further right a sixel leaves the sides of the buffer as they are.
    #[inline(always)]
    fn free_columns(&self) -> u32
        ensures { result ≡ free_columns (buffer_of self.now.buffer) self.now.place.column
            (rule.rows_to self.now.place.band) }
    {
        self.buffer.free_columns(self.place.column, self.rows())
    }

    /// Notes so many sixels that leave the sides of the buffer as they are.
    #[inline(always)]
    fn see_free(&mut self, count: u32)
        requires { count ≤ free_columns (buffer_of self.old.buffer) self.old.place.column
            (rule.rows_to self.old.place.band) }
        ensures { (before : List AnEvent) (bytes : List ℕ) → length bytes ≡ count → HasSeenMlTerm self.old before
            → HasSeenMlTerm self.new (before ++ sixels_of bytes) }
    {
        if count > 0 {
            self.buffer
                .reach_to(u64::from(self.place.column) + u64::from(count));
            self.place = self.place.after_sixels(count as usize);
        }
    }

    /// Whether the next sixel is past all: the buffer stays as it is then.
    #[inline(always)]
    fn is_past_next(&self) -> bool
        ensures { result ≡ rule.is_past_all (self.now.place.column + 1) (rule.rows_to self.now.place.band) }
    {
        is_past_all(u64::from(self.place.column) + 1, self.rows())
    }

    /// Notes so many sixels, of which the first is past all.
    #[inline(always)]
    fn see_past(&mut self, count: usize)
        requires { rule.is_past_all (self.old.place.column + 1) (rule.rows_to self.old.place.band) ≡ true }
        ensures { (before : List AnEvent) (bytes : List ℕ) → length bytes ≡ count → HasSeenMlTerm self.old before
            → HasSeenMlTerm self.new (before ++ sixels_of bytes) }
    {
        self.place = self.place.after_sixels(count);
    }

    /// Whether a repeat of so many columns has one or more, and leaves the sides of the buffer as they are.
    #[inline(always)]
    fn is_free(&self, count: u16) -> bool
        ensures { result ≡ true → (0 < count) × (count ≤ free_columns (buffer_of self.now.buffer)
            self.now.place.column (rule.rows_to self.now.place.band)) }
    {
        count != 0 && u32::from(count) <= self.free_columns()
    }

    /// Notes a repeat that leaves the sides of the buffer as they are.
    #[inline(always)]
    fn see_free_repeat(&mut self, count: u16, bits: u8)
        requires some { 0 < count }
        requires free { count ≤ free_columns (buffer_of self.old.buffer) self.old.place.column
            (rule.rows_to self.old.place.band) }
        ensures { (before : List AnEvent) → HasSeenMlTerm self.old before
            → HasSeenMlTerm self.new (before ++ AStep (Repeat count bits) ∷ []) }
    {
        self.buffer
            .reach_to(u64::from(self.place.column) + u64::from(count));
        self.place = self
            .place
            .after(&Event::Step(Command::Repeat { count, bits }), 0);
    }

    /// Notes sixels one by one.
    #[inline(never)]
    fn see_each(&mut self, bytes: &[u8])
        requires { (k : ℕ) → k < length bytes.now → IsTrue (is_data (slice_index bytes.now k)) }
        ensures { (before : List AnEvent) → HasSeenMlTerm self.old before
            → HasSeenMlTerm self.new (before ++ sixels_of bytes.now) }
    {
        for byte in bytes {
            self.see(&Event::Step(Command::Sixel(byte - b'?')));
        }
    }
}

impl Reading for MlTerm {
    ghost model = { rule.mlterm_model };

    ghost has_seen = { HasSeenMlTerm };

    #[inline(always)]
    fn read(&mut self, event: &Event, _next: Option<&Event>) -> Reads {
        let reads = self.reads(event);
        self.see(event);
        reads
    }

    fn waits(&self, _event: &Event) -> bool {
        false
    }

    fn plain_sixels(&self) -> usize {
        if self.is_said() {
            self.free_columns() as usize
        } else {
            0
        }
    }

    fn draws_blanks(&self) -> bool {
        false
    }

    fn note_sixels(&mut self, bytes: &[u8]) {
        if bytes.len() <= self.free_columns() as usize {
            self.see_free(bytes.len() as u32);
        } else if self.is_past_next() {
            self.see_past(bytes.len());
        } else {
            self.see_each(bytes);
        }
    }

    fn kept_columns(&self, _zero_columns: u8) -> Option<usize> {
        None
    }

    #[inline(always)]
    fn is_plain_repeat(&self, count: u16, bits: u8) -> bool {
        self.is_free(count) && (bits % 64 == 0 || self.is_said())
    }

    #[inline(always)]
    fn note_repeat(&mut self, count: u16, bits: u8) {
        if self.is_free(count) {
            self.see_free_repeat(count, bits);
        } else {
            self.see(&Event::Step(Command::Repeat { count, bits }));
        }
    }
}

/// What it makes of an introducer with these first parameters.
fn read_introducer(first: u16, second: u16) -> Reads
    ensures { result ≡ rule.mlterm_introducer first second }
{
    if may_mix(first, second) {
        Reads::Unsaid
    } else {
        Reads::Nothing
    }
}

/// The definition of a register, if it gives a colour, and its select.
fn define_and_select(register: u16, colour: Option<Colour>) -> Reads
    ensures { result ≡ rule.define_and_select register colour }
{
    match colour {
        Some(colour) => Reads::DrawsTwo(defining(register, colour), Command::Select(register)),
        None => Reads::Draws(Command::Select(register)),
    }
}
