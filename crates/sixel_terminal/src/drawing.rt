//! Draws events one by one.

ghost use Rattle.std.specs.Prelude.{◌≡◌, ◌<◌, ◌*◌, ◌++◌, ◌∷◌, [], ℕ, List, IfOk, IsTrue, false, length};
ghost use Rattle.std.specs.Prelude.{slice_index, true};
ghost use Rattle.sixel_grammar.specs.declared.command.Command.TheVariants.{Raster};
ghost use Rattle.sixel_grammar.specs.declared.command.Event.{Event as AnEvent};
ghost use Rattle.sixel_grammar.specs.declared.command.Event.TheVariants.{Step};
ghost use Rattle.sixel_grammar.specs.Bytes.{is_data};
ghost use Rattle.sixel_model.specs.Events.{is_eight_bit};
ghost use Rattle.sixel_terminal.specs.Blanks.{AreBlank};
ghost use Rattle.sixel_terminal.specs.Drawing.{screen_on};
ghost use Rattle.sixel_terminal.specs.Drawings.{HasDrawn};
ghost use Rattle.sixel_terminal.specs.Stretches.{sixels_of};

use crate::pen::Pen;
use crate::pixel::Pixel;
use crate::registers::Registers;
use crate::screen::Screen;
use crate::terminal::Terminal;
use sixel_grammar::{Command, Event};
use std::alloc::{AllocError, Global};
use std::marker::Model;

/// A drawing on a terminal's screen.
///
/// It keeps the terminal, the pen, the colours of the registers and four bytes for each pixel of the screen, and no
/// event.
#[derive(Debug, Drop)]
pub struct Drawing {
    terminal: Terminal,
    pen: Pen,
    colours: Registers,
    pixels: Vec<Pixel>,
    /// Whether a start or a finish was 8-bit.
    has_eight_bit: bool,
}

impl Model for Drawing {
    ghost use Rattle.sixel_terminal.specs.Drawings.{Drawn};

    ghost Value = { Drawn };

    ghost use Rattle.std.specs.Prelude.{List};
    ghost use Rattle.sixel_grammar.specs.declared.command.Event.{Event as AnEvent};
    ghost use Rattle.sixel_terminal.specs.Drawings.{HasDrawn};

    ghost view = { λ d. record {
      terminal = d.terminal;
      pen = d.pen;
      colours = d.colours;
      inks = d.pixels.items;
      has_eight_bit = d.has_eight_bit;
    } };

    ghost invariant = { λ d. (events : List AnEvent) × HasDrawn (record {
      terminal = d.terminal;
      pen = d.pen;
      colours = d.colours;
      inks = d.pixels.items;
      has_eight_bit = d.has_eight_bit;
    }) events };
}

impl Drawing {
    /// A drawing on this terminal before any event. `AllocError`: an allocation failed.
    pub fn new(alloc: Global, terminal: Terminal) -> Result<Drawing, AllocError>
        ensures terminal { IfOk result (λ d. d.terminal ≡ terminal) }
        ensures drawn { IfOk result (λ d. HasDrawn d []) }
    {
        let pen = terminal.first_pen();
        let colours = terminal.first_colours(alloc)?;
        let pixels = terminal.first_pixels(alloc)?;
        Ok(Drawing {
            terminal,
            pen,
            colours,
            pixels,
            has_eight_bit: false,
        })
    }

    /// Draws one more event.
    ///
    /// Any list of events is allowed, even one that no text spells. Bits above the six of a sixel paint nothing, and
    /// neither do a start and a finish. Pixels off the screen are dropped.
    ///
    /// It is inlined, so that a caller that knows the kind of the event keeps only the code for that kind.
    #[inline(always)]
    pub fn push(&mut self, event: &Event)
        ensures terminal { self.new.terminal ≡ self.old.terminal }
        ensures drawn { (before : List AnEvent) → HasDrawn self.old before
            → HasDrawn self.new (before ++ event.now ∷ []) }
    {
        self.pen = self
            .terminal
            .draw(self.pen, &mut self.colours, &mut self.pixels, event);
        self.has_eight_bit |= is_eight_bit(event);
    }

    /// Draws the sixels of these data bytes, in order. It is faster than `push` with one after the other.
    ///
    /// It is inlined, since most stretches are short: a call costs as much as painting two sixels.
    #[inline(always)]
    pub fn push_stretch(&mut self, bytes: &[u8])
        requires { (k : ℕ) → k < length bytes.now → IsTrue (is_data (slice_index bytes.now k)) }
        ensures terminal { self.new.terminal ≡ self.old.terminal }
        ensures drawn { (before : List AnEvent) → HasDrawn self.old before
            → HasDrawn self.new (before ++ sixels_of bytes.now) }
    {
        match self
            .terminal
            .try_draw_stretch(self.pen, &self.colours, &mut self.pixels, bytes)
        {
            Some(column) => self.pen.column = column,
            None => self.push_each(bytes),
        }
    }

    /// The same, sixel by sixel.
    #[inline(never)]
    fn push_each(&mut self, bytes: &[u8])
        requires { (k : ℕ) → k < length bytes.now → IsTrue (is_data (slice_index bytes.now k)) }
        ensures terminal { self.new.terminal ≡ self.old.terminal }
        ensures drawn { (before : List AnEvent) → HasDrawn self.old before
            → HasDrawn self.new (before ++ sixels_of bytes.now) }
    {
        for byte in bytes {
            self.push(&Event::Step(Command::Sixel(byte - b'?')));
        }
    }

    /// How many columns a repeat of 0 paints: 0 or 1.
    #[inline(always)]
    pub fn zero_columns(&self) -> u8
        ensures { result ≡ self.now.terminal.choices.zero }
    {
        self.terminal.zero_columns()
    }

    /// Draws data commands that paint nothing, of so many columns together. It takes no longer for many than for one.
    #[inline(always)]
    pub fn push_blanks(&mut self, columns: usize)
        ensures terminal { self.new.terminal ≡ self.old.terminal }
        ensures drawn { (before blanks : List AnEvent)
            → AreBlank self.old.terminal.choices.zero columns blanks → HasDrawn self.old before
            → HasDrawn self.new (before ++ blanks) }
    {
        self.pen = self.terminal.past_blanks(self.pen, columns);
    }

    /// Draws raster attributes before all events, which give the terminal's own ratio, and a box of this width and
    /// height in pixels. The terminal binds at showing and doesn't clip.
    ///
    /// Where the terminal fills its ground, the box lies under all that is painted.
    pub fn fill_under(&mut self, width: u16, height: u16)
        requires binds { self.old.terminal.choices.binds_at_showing ≡ true }
        requires unclipped { self.old.terminal.choices.clips ≡ false }
        ensures terminal { self.new.terminal ≡ self.old.terminal }
        ensures drawn { (before : List AnEvent) → HasDrawn self.old before
            → HasDrawn self.new (Step (Raster self.old.terminal.choices.tall 1 width height) ∷ before) }
    {
        self.pen = self
            .terminal
            .draw_under(self.pen, width, height, &mut self.pixels);
    }

    /// The screen after the events. A terminal without 8-bit controls shows nothing of a list with an 8-bit start or
    /// finish, wherever it is.
    pub fn finish(self) -> Screen
        ensures width { result.width ≡ self.terminal.choices.screen_width }
        ensures height { result.height ≡ self.terminal.choices.screen_height }
        ensures whole { length result.colours
            ≡ self.terminal.choices.screen_width * self.terminal.choices.screen_height }
        ensures shown { (events : List AnEvent) → HasDrawn self events
            → result.colours ≡ screen_on self.terminal events }
    {
        let Drawing {
            terminal,
            pen: _,
            colours,
            mut pixels,
            has_eight_bit,
        } = self;
        terminal.settle(has_eight_bit, &colours, &mut pixels);
        let (width, height) = terminal.sides();
        Screen {
            width,
            height,
            pixels,
        }
    }

    /// The screen after raster attributes, which give the terminal's own ratio and a box of this width and height in
    /// pixels, and then the events. It is what `fill_under` and then `finish` give, and faster where the box covers the
    /// screen. The terminal binds at showing and doesn't clip.
    pub fn finish_over(self, width: u16, height: u16) -> Screen
        requires binds { self.terminal.choices.binds_at_showing ≡ true }
        requires unclipped { self.terminal.choices.clips ≡ false }
        ensures width { result.width ≡ self.terminal.choices.screen_width }
        ensures height { result.height ≡ self.terminal.choices.screen_height }
        ensures whole { length result.colours
            ≡ self.terminal.choices.screen_width * self.terminal.choices.screen_height }
        ensures shown { (events : List AnEvent) → HasDrawn self events → result.colours
            ≡ screen_on self.terminal (Step (Raster self.terminal.choices.tall 1 width height) ∷ events) }
    {
        let Drawing {
            terminal,
            pen: _,
            colours,
            mut pixels,
            has_eight_bit,
        } = self;
        terminal.settle_over(width, height, has_eight_bit, &colours, &mut pixels);
        let sides = terminal.sides();
        Screen {
            width: sides.0,
            height: sides.1,
            pixels,
        }
    }
}

/// Whether the event is an 8-bit start or finish.
fn is_eight_bit(event: &Event) -> bool
    ensures { result ≡ is_eight_bit event.now }
{
    match event {
        Event::Start { eight, .. } => *eight,
        Event::Step(_) => false,
        Event::Finish { eight } => *eight,
    }
}
