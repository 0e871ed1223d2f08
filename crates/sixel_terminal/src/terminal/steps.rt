//! What one command does.

ghost use Rattle.std.specs.Prelude.{◌≡◌, ◌==◌, ◌&&◌, ◌<◌, ◌*◌, ◌/◌, ◌%◌, EachIndex, length, slice_index_or, unwrap_or};
ghost use Rattle.std.specs.Prelude.{if◌then◌else◌};
ghost use Rattle.std.specs.Option.{option_and_then, option_map_or};
ghost use Rattle.sixel_grammar.specs.declared.command.Event.TheVariants.{Step};
ghost use Rattle.sixel_model.specs.declared.colour.Parts.TheVariants.{Rgb, Hls};
ghost use Rattle.sixel_model.specs.Colours.{colour_in};
ghost use Rattle.sixel_model.specs.Events.{named_by, select_of};
ghost use Rattle.sixel_terminal.specs.Canvases.{black};
ghost use Rattle.sixel_terminal.specs.Displays.{registers_of};
ghost use Rattle.sixel_terminal.specs.Drawing.{defined_on, taken_on};
ghost use Rattle.sixel_terminal.specs.Steps.{ink_after_event, ink_by_colours, next_band, next_column, next_declared};
ghost use Rattle.sixel_terminal.specs.Steps.{next_height, next_selected, pen_covers};

use crate::choices::Ground;
use crate::pen::{Pen, Sides};
use crate::pixel::Pixel;
use crate::registers::Registers;
use crate::terminal::Terminal;
use sixel_grammar::Command;
use sixel_model::Colour;

impl Terminal {
    /// The register with this number, taken modulo the count of registers.
    #[inline(always)]
    fn register_of(&self, number: u16) -> u16
        ensures value { result ≡ number % registers_of self.now }
        ensures below { result < registers_of self.now }
    {
        // Nearly all numbers are below the count, and a division is slow.
        if (number as usize) < self.colours.len() {
            return number;
        }
        (number as usize % self.colours.len()) as u16
    }

    /// The columns of a repeat: a repeat of 0 has as many as the terminal chose.
    fn columns_of(&self, count: u16) -> u16
        ensures { result ≡ (if count == 0 then self.now.choices.zero else count) }
    {
        if count == 0 {
            self.choices.zero as u16
        } else {
            count
        }
    }

    /// An HLS colour as the terminal takes it: out of range, it is clamped or gives none.
    fn hls(&self, hue: u16, lightness: u16, saturation: u16) -> Option<Colour>
        ensures { result ≡ taken_on self.now (Hls hue lightness saturation) }
    {
        let is_in_range = hue <= 360 && lightness <= 100 && saturation <= 100;
        if is_in_range || self.choices.clamps {
            Colour::hls(
                hue.min(360),
                lightness.min(100) as u8,
                saturation.min(100) as u8,
            )
        } else {
            None
        }
    }

    /// An RGB colour as the terminal takes it: out of range, it is clamped or gives none.
    fn rgb(&self, red: u16, green: u16, blue: u16) -> Option<Colour>
        ensures { result ≡ taken_on self.now (Rgb red green blue) }
    {
        let is_in_range = red <= 100 && green <= 100 && blue <= 100;
        if is_in_range || self.choices.clamps {
            Colour::rgb(
                red.min(100) as u8,
                green.min(100) as u8,
                blue.min(100) as u8,
            )
        } else {
            None
        }
    }

    /// The colour that a definition gives, if it gives one.
    fn colour_of(&self, system: u16, x: u16, y: u16, z: u16) -> Option<Colour>
        ensures { result ≡ option_and_then (taken_on self.now) (colour_in system x y z) }
    {
        match system {
            1 => self.hls(x, y, z),
            2 => self.rgb(x, y, z),
            _ => None,
        }
    }

    /// The register that is selected after the command.
    #[inline(always)]
    fn next_selected(&self, selected: u16, command: Command) -> u16
        ensures { result ≡ option_map_or (λ r. r % registers_of self.now)
            ((if self.now.choices.selects then named_by else select_of) (Step command)) selected }
    {
        match selected_by(self.choices.selects, command) {
            Some(number) => self.register_of(number),
            None => selected,
        }
    }

    /// The height of a sixel pixel at this ratio.
    fn height_at(&self, pan: u16, pad: u16) -> u16
        ensures { result ≡ (if pan == 1 && pad == 1 then 1 else self.now.choices.tall) }
    {
        if pan == 1 && pad == 1 {
            1
        } else {
            self.choices.tall
        }
    }

    /// Where the next data command paints after this command.
    #[inline(always)]
    fn next_place(&self, pen: Pen, command: Command) -> Pen
        ensures column { result.column ≡ next_column self.now pen (Step command) }
        ensures band { result.band ≡ next_band pen (Step command) }
        ensures height { result.height ≡ next_height self.now pen (Step command) }
        ensures declared { result.declared ≡ next_declared pen (Step command) }
    {
        match command {
            Command::Sixel(_) => pen.moved(1),
            Command::Repeat { count, .. } => pen.moved(self.columns_of(count) as usize),
            Command::Raster {
                pan,
                pad,
                width,
                height,
            } => pen.in_box(self.height_at(pan, pad), Sides { width, height }),
            Command::CarriageReturn => pen.at_margin(pen.band),
            Command::NextLine => pen.at_margin(pen.band.saturating_add(1)),
            _ => pen,
        }
    }

    /// The pen after the command.
    #[inline(always)]
    pub(crate) fn next_pen(&self, pen: Pen, command: Command) -> Pen
        ensures column { result.column ≡ next_column self.now pen (Step command) }
        ensures band { result.band ≡ next_band pen (Step command) }
        ensures height { result.height ≡ next_height self.now pen (Step command) }
        ensures declared { result.declared ≡ next_declared pen (Step command) }
        ensures selected { result.selected ≡ next_selected self.now pen (Step command) }
    {
        let selected = self.next_selected(pen.selected, command);
        self.next_place(pen, command).with_selected(selected)
    }

    /// Sets the colour of a definition's register, if the definition gives a colour.
    #[inline(always)]
    pub(crate) fn define(&self, colours: &mut Registers, command: Command)
        requires { length colours.old ≡ registers_of self.now }
        ensures long { length colours.new ≡ length colours.old }
        ensures defined { EachIndex colours.old (λ r. slice_index_or colours.new r (Rgb 0 0 0)
            ≡ unwrap_or (defined_on self.now r (Step command)) (slice_index_or colours.old r (Rgb 0 0 0))) }
    {
        if let Command::Define {
            register,
            system,
            x,
            y,
            z,
        } = command
            && let Some(colour) = self.colour_of(system, x, y, z)
        {
            colours.set(self.register_of(register), colour);
        }
    }

    /// The ink for painting in this register.
    #[inline(always)]
    pub(crate) fn ink(&self, colours: &Registers, register: u16) -> Pixel
        requires { register < length colours.now }
        ensures { result ≡ ink_by_colours self.now colours.now register }
    {
        if self.choices.binds_at_showing {
            Pixel::bound(register)
        } else {
            colours.pixel(register)
        }
    }

    /// Paints the set bits of `count` columns, from the pen on, in the selected register. Most long repeats are blank.
    #[inline(always)]
    fn paint_selected(
        &self,
        pen: Pen,
        colours: &Registers,
        inks: &mut [Pixel],
        count: u16,
        bits: u8,
    )
        requires selected { pen.selected < length colours.now }
        requires screen { length inks.old ≡ self.now.choices.screen_width * self.now.choices.screen_height }
        ensures { EachIndex inks.old (λ i. slice_index_or inks.new i black
            ≡ (if pen_covers self.now pen count bits (i % self.now.choices.screen_width)
            (i / self.now.choices.screen_width)
            then ink_by_colours self.now colours.now pen.selected else slice_index_or inks.old i black)) }
    {
        if bits % 64 == 0 {
            return;
        }
        self.paint_columns(pen, count, bits, &self.ink(colours, pen.selected), inks);
    }

    /// Paints what the command paints, with the pen and the colours before the command.
    #[inline(always)]
    pub(crate) fn paint(&self, pen: Pen, colours: &Registers, inks: &mut [Pixel], command: Command)
        requires selected { pen.selected < length colours.now }
        requires colours_are { length colours.now ≡ registers_of self.now }
        requires screen { length inks.old ≡ self.now.choices.screen_width * self.now.choices.screen_height }
        ensures { EachIndex inks.old (λ i. slice_index_or inks.new i black
            ≡ ink_after_event self.now pen colours.now (Step command) (i % self.now.choices.screen_width)
            (i / self.now.choices.screen_width) (slice_index_or inks.old i black)) }
    {
        match command {
            Command::Sixel(bits) => self.paint_selected(pen, colours, inks, 1, bits),
            Command::Repeat { count, bits } => {
                self.paint_selected(pen, colours, inks, self.columns_of(count), bits);
            }
            Command::Raster { width, height, .. } => {
                if let Ground::Filled(register) = self.choices.ground {
                    self.paint_box(width, height, &self.ink(colours, register), inks);
                }
            }
            _ => {}
        }
    }
}

/// The register that the command selects. `selects` says whether a definition selects.
#[inline(always)]
fn selected_by(selects: bool, command: Command) -> Option<u16>
    ensures { result ≡ (if selects then named_by else select_of) (Step command) }
{
    match command {
        Command::Select(register) => Some(register),
        Command::Define { register, .. } => selects.then_some(register),
        _ => None,
    }
}
