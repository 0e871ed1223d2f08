//! What a drawing does on its terminal, and drawing a whole list.

ghost use Rattle.std.specs.Prelude.{◌≡◌, ◌<◌, ◌≤◌, ◌+◌, ◌*◌, ◌++◌, ◌∷◌, [], ℕ, EachIndex, List, IfOk, IfSome, IsNone};
ghost use Rattle.std.specs.Prelude.{IsTrue, length, map, replicate, slice_index, slice_index_or, slice_set};
ghost use Rattle.std.specs.List.{list_any};
ghost use Rattle.sixel_grammar.specs.declared.command.Event.{Event};
ghost use Rattle.sixel_grammar.specs.Bytes.{is_data};
ghost use Rattle.sixel_grammar.specs.Document.{events_of};
ghost use Rattle.sixel_model.specs.declared.colour.Parts.{Parts};
ghost use Rattle.sixel_model.specs.Events.{is_eight_bit};
ghost use Rattle.sixel_terminal.specs.declared.pen.Pen.{Pen as APen};
ghost use Rattle.sixel_terminal.specs.declared.pixel.Ink.{Ink as AnInk};
ghost use Rattle.sixel_terminal.specs.declared.pixel.Ink.TheVariants.{Fixed};
ghost use Rattle.sixel_terminal.specs.Blanks.{AreBlank};
ghost use Rattle.sixel_terminal.specs.Canvases.{black};
ghost use Rattle.sixel_terminal.specs.Drawing.{screen_on};
ghost use Rattle.sixel_terminal.specs.Screens.{IsAllFixed, colour_in_ink};
ghost use Rattle.sixel_terminal.specs.Stretches.{sixels_of};
ghost use Rattle.sixel_terminal.specs.Pixels.{IsBoundAt};
ghost use Rattle.sixel_terminal.specs.Standing.{AreInksBelow, IsPenAfter, StandsAfter, fixed_at, fixed_below, shown_in};

use crate::choices::Ground;
use crate::drawing::Drawing;
use crate::fixing::fix;
use crate::pen::Pen;
use crate::pixel::{Pixel, fixed_pixels};
use crate::registers::Registers;
use crate::terminal::{Backdrop, Terminal};
use sixel_grammar::{Event, Placed};
use sixel_model::Colour;
use std::alloc::{AllocError, Global};

/// Makes all pixels the same.
fn lay_plain(pixels: &mut [Pixel], ground: &Pixel)
    ensures { EachIndex pixels.old (λ i. slice_index_or pixels.new i black ≡ ground.now) }
{
    pixels.fill(*ground);
}

/// Gives each pixel its colour in the list.
fn lay_colours(pixels: &mut [Pixel], colours: &[Colour])
    requires { length pixels.old ≡ length colours.now }
    ensures { pixels.new ≡ map (λ c. Fixed c) colours.now }
{
    for index in 0..pixels.len() {
        pixels[index] = Pixel::fixed(colours[index]);
    }
}

/// Pixels of this colour.
fn plain_pixels(alloc: Global, count: usize, colour: Colour) -> Result<Vec<Pixel>, AllocError>
    ensures { IfOk result (λ pixels. pixels.items ≡ replicate count (Fixed colour)) }
{
    vec![in alloc; Pixel::fixed(colour); count]
}

impl Terminal {
    /// The state before any event.
    pub(crate) fn first_pen(&self) -> Pen
        ensures { IsPenAfter self.now [] result }
    {
        Pen {
            column: 0,
            band: 0,
            height: self.choices.tall,
            declared: None,
            selected: self.choices.selected,
        }
    }

    /// Gives each pixel the colour that it has before the drawing.
    pub(crate) fn lay(&self, pixels: &mut [Pixel])
        requires { length pixels.old ≡ self.now.choices.screen_width * self.now.choices.screen_height }
        ensures { pixels.new ≡ map (λ c. Fixed c) self.now.screen }
    {
        match &self.backdrop {
            Backdrop::Plain(colour) => lay_plain(pixels, &Pixel::fixed(*colour)),
            Backdrop::Pixels(colours) => lay_colours(pixels, colours),
        }
    }

    /// The colours of the registers before the drawing.
    pub(crate) fn first_colours(&self, alloc: Global) -> Result<Registers, AllocError>
        ensures { IfOk result (λ colours. colours ≡ self.now.colours) }
    {
        Registers::new(alloc, &self.colours)
    }

    /// The pixels before the drawing.
    pub(crate) fn first_pixels(&self, alloc: Global) -> Result<Vec<Pixel>, AllocError>
        ensures { IfOk result (λ pixels. pixels.items ≡ map (λ c. Fixed c) self.now.screen) }
    {
        match &self.backdrop {
            Backdrop::Plain(colour) => {
                let count = (self.choices.screen_width * self.choices.screen_height) as usize;
                plain_pixels(alloc, count, *colour)
            }
            Backdrop::Pixels(colours) => fixed_pixels(alloc, colours),
        }
    }

    /// Draws one more event.
    #[inline(always)]
    pub(crate) fn draw(
        &self,
        pen: Pen,
        colours: &mut Registers,
        inks: &mut [Pixel],
        event: &Event,
    ) -> Pen
        requires { (before : List Event) × StandsAfter self.now before pen colours.old inks.old }
        ensures { (before : List Event) → StandsAfter self.now before pen colours.old inks.old
            → StandsAfter self.now (before ++ event.now ∷ []) result colours.new inks.new }
    {
        // The contract speaks of the choices; this line tells the prover that they are those of the value.
        let _ = &self.choices;
        match event {
            Event::Step(command) => {
                self.paint(pen, colours, inks, *command);
                self.define(colours, *command);
                self.next_pen(pen, *command)
            }
            _ => pen,
        }
    }

    /// Draws the sixels of these data bytes, if a sixel pixel is one pixel high. Returns the pen's column after them.
    /// They change nothing else of the pen.
    #[inline(always)]
    pub(crate) fn try_draw_stretch(
        &self,
        pen: Pen,
        colours: &Registers,
        inks: &mut [Pixel],
        bytes: &[u8],
    ) -> Option<u32>
        requires stands { (before : List Event) × StandsAfter self.now before pen colours.now inks.old }
        requires data { (k : ℕ) → k < length bytes.now → IsTrue (is_data (slice_index bytes.now k)) }
        ensures drawn { IfSome result (λ column. (before : List Event)
            → StandsAfter self.now before pen colours.now inks.old
            → StandsAfter self.now (before ++ sixels_of bytes.now) (record pen { column = column }) colours.now
            inks.new) }
        ensures kept { IsNone result → inks.new ≡ inks.old }
    {
        let _ = &self.choices;
        if pen.height != 1 {
            return None;
        }
        let ink = self.ink(colours, pen.selected);
        self.paint_stretch(pen, bytes, &ink, inks);
        Some(pen.moved(bytes.len()).column)
    }

    /// How many columns a repeat of 0 paints.
    #[inline(always)]
    pub(crate) fn zero_columns(&self) -> u8
        ensures { result ≡ self.now.choices.zero }
    {
        self.choices.zero
    }

    /// The pen after data commands that paint nothing, of so many columns together.
    #[inline(always)]
    pub(crate) fn past_blanks(&self, pen: Pen, columns: usize) -> Pen
        ensures { (before blanks : List Event) (colours : List Parts) (inks : List AnInk)
            → AreBlank self.now.choices.zero columns blanks → StandsAfter self.now before pen colours inks
            → StandsAfter self.now (before ++ blanks) result colours inks }
    {
        let _ = &self.choices;
        pen.moved(columns)
    }

    /// Gives each pixel the colour that it shows after the events. `has_eight_bit` says whether one of them is an 8-bit
    /// start or finish.
    pub(crate) fn settle(&self, has_eight_bit: bool, colours: &Registers, inks: &mut [Pixel])
        requires { (pen : APen) × (events : List Event) × StandsAfter self.now events pen colours.now inks.old }
        ensures fixed { IsAllFixed inks.new }
        ensures shown { (pen : APen) (events : List Event) → StandsAfter self.now events pen colours.now inks.old
            → has_eight_bit ≡ list_any is_eight_bit events
            → map colour_in_ink inks.new ≡ screen_on self.now events }
    {
        if has_eight_bit && !self.choices.eight_bit {
            self.lay(inks);
        } else if self.choices.binds_at_showing {
            fix(inks, colours, Ground::Kept);
        }
    }

    /// The colours of the whole screen after the events, row by row, as a `Drawing` gives them.
    ///
    /// `AllocError`: an allocation failed.
    pub fn show(&self, alloc: Global, events: &[Placed]) -> Result<Vec<Colour>, AllocError>
        ensures { IfOk result (λ shown. shown.items ≡ screen_on self.now (events_of events.now)) }
    {
        let mut drawing = Drawing::new(alloc, self.copied()?)?;
        for placed in events {
            drawing.push(&placed.event);
        }
        drawing.finish().colours(alloc)
    }

    /// The sides of the screen, in pixels.
    pub(crate) fn sides(&self) -> (u32, u32)
        ensures { result ≡ (self.now.choices.screen_width, self.now.choices.screen_height) }
    {
        (self.choices.screen_width, self.choices.screen_height)
    }

    fn copied(&self) -> Result<Terminal, AllocError>
        ensures { IfOk result (λ t. t ≡ self.now) }
    {
        Ok(Terminal {
            choices: self.choices,
            colours: self.colours.clone()?,
            backdrop: match &self.backdrop {
                Backdrop::Plain(colour) => Backdrop::Plain(*colour),
                Backdrop::Pixels(colours) => Backdrop::Pixels(colours.clone()?),
            },
        })
    }
}
