//! Raster attributes before all events, drawn after them.

ghost use Rattle.std.specs.Prelude.{◌≡◌, ◌≤◌, ◌*◌, ◌/◌, ◌%◌, ◌∷◌, EachIndex, IsTrue, List, false, length, map};
ghost use Rattle.std.specs.Prelude.{slice_index_or, true, if◌then◌else◌};
ghost use Rattle.std.specs.List.{list_any};
ghost use Rattle.sixel_grammar.specs.declared.command.Command.TheVariants.{Raster};
ghost use Rattle.sixel_grammar.specs.declared.command.Event.{Event};
ghost use Rattle.sixel_grammar.specs.declared.command.Event.TheVariants.{Step};
ghost use Rattle.sixel_model.specs.declared.colour.Parts.{Parts};
ghost use Rattle.sixel_model.specs.Events.{is_eight_bit};
ghost use Rattle.sixel_terminal.specs.declared.pen.Pen.{Pen as APen};
ghost use Rattle.sixel_terminal.specs.Canvases.{black, laid_under};
ghost use Rattle.sixel_terminal.specs.Displays.{IsGroundBelow, registers_of};
ghost use Rattle.sixel_terminal.specs.Drawing.{screen_on};
ghost use Rattle.sixel_terminal.specs.Screens.{IsAllFixed, colour_in_ink};
ghost use Rattle.sixel_terminal.specs.Standing.{StandsAfter};
ghost use Rattle.sixel_terminal.specs.Steps.{box_covers, ink_over};

use crate::canvas::{Span, fill_under};
use crate::choices::Ground;
use crate::fixing::fix;
use crate::pen::{Pen, Sides};
use crate::pixel::Pixel;
use crate::registers::Registers;
use crate::terminal::Terminal;

impl Terminal {
    /// Fills a box at the origin with the ink, except the pixels that show a register.
    fn fill_box_under(&self, width: u16, height: u16, ink: &Pixel, inks: &mut [Pixel])
        requires { length inks.old ≡ self.now.choices.screen_width * self.now.choices.screen_height }
        ensures { EachIndex inks.old (λ i. slice_index_or inks.new i black
            ≡ (if box_covers self.now width height (i % self.now.choices.screen_width)
            (i / self.now.choices.screen_width)
            then laid_under ink.now (slice_index_or inks.old i black) else slice_index_or inks.old i black)) }
    {
        let left = self.choices.origin_x as u64;
        let top = self.choices.origin_y as u64;
        let columns = Span::new(left, width as u64, self.choices.screen_width);
        let rows = Span::new(top, height as u64, self.choices.screen_height);
        fill_under(inks, self.choices.screen_width as usize, columns, rows, ink);
    }

    /// Fills a box at the origin in the ground's register, except the pixels that show a register.
    fn fill_ground_under(&self, width: u16, height: u16, inks: &mut [Pixel])
        requires { length inks.old ≡ self.now.choices.screen_width * self.now.choices.screen_height }
        ensures { EachIndex inks.old (λ i. slice_index_or inks.new i black
            ≡ (if box_covers self.now width height (i % self.now.choices.screen_width)
            (i / self.now.choices.screen_width)
            then ink_over self.now.choices.ground (slice_index_or inks.old i black)
            else slice_index_or inks.old i black)) }
    {
        if let Ground::Filled(register) = self.choices.ground {
            self.fill_box_under(width, height, &Pixel::bound(register), inks);
        }
    }

    /// Draws raster attributes of this box and the terminal's own ratio under all events.
    pub(crate) fn draw_under(&self, pen: Pen, width: u16, height: u16, inks: &mut [Pixel]) -> Pen
        requires binds { self.now.choices.binds_at_showing ≡ true }
        requires unclipped { self.now.choices.clips ≡ false }
        requires screen { length inks.old ≡ self.now.choices.screen_width * self.now.choices.screen_height }
        ensures { (before : List Event) (colours : List Parts) → StandsAfter self.now before pen colours inks.old
            → StandsAfter self.now (Step (Raster self.now.choices.tall 1 width height) ∷ before) result colours
            inks.new }
    {
        self.fill_ground_under(width, height, inks);
        pen.after_box(Sides { width, height })
    }

    /// Whether a box of these sides at the origin covers the whole screen.
    fn is_covered(&self, width: u16, height: u16) -> bool
        ensures left { IsTrue result → self.now.choices.origin_x ≡ 0 }
        ensures top { IsTrue result → self.now.choices.origin_y ≡ 0 }
        ensures across { IsTrue result → self.now.choices.screen_width ≤ width }
        ensures down { IsTrue result → self.now.choices.screen_height ≤ height }
    {
        self.choices.origin_x == 0
            && self.choices.origin_y == 0
            && self.choices.screen_width <= width as u32
            && self.choices.screen_height <= height as u32
    }

    /// What raster attributes do to the declared box.
    fn ground(&self) -> Ground
        ensures is { result ≡ self.now.choices.ground }
        ensures below { IsGroundBelow (registers_of self.now) result }
    {
        self.choices.ground
    }

    /// Gives each pixel the colour that it shows over this ground after the events. The terminal binds at showing.
    fn settle_on(&self, under: Ground, has_eight_bit: bool, colours: &Registers, inks: &mut [Pixel])
        requires under { IsGroundBelow (registers_of self.now) under }
        requires stands { (pen : APen) × (events : List Event)
            × StandsAfter self.now events pen colours.now (map (ink_over under) inks.old) }
        ensures fixed { IsAllFixed inks.new }
        ensures shown { (pen : APen) (events : List Event)
            → StandsAfter self.now events pen colours.now (map (ink_over under) inks.old)
            → has_eight_bit ≡ list_any is_eight_bit events
            → map colour_in_ink inks.new ≡ screen_on self.now events }
    {
        if has_eight_bit && !self.choices.eight_bit {
            self.lay(inks);
        } else {
            fix(inks, colours, under);
        }
    }

    /// Gives each pixel the colour that it shows after raster attributes of this box and the terminal's own ratio, and
    /// the events. Where the box covers the screen, each pixel is written once.
    pub(crate) fn settle_over(
        &self,
        width: u16,
        height: u16,
        has_eight_bit: bool,
        colours: &Registers,
        inks: &mut [Pixel],
    )
        requires binds { self.now.choices.binds_at_showing ≡ true }
        requires unclipped { self.now.choices.clips ≡ false }
        requires stands { (pen : APen) × (events : List Event) × StandsAfter self.now events pen colours.now inks.old }
        ensures fixed { IsAllFixed inks.new }
        ensures shown { (pen : APen) (events : List Event) → StandsAfter self.now events pen colours.now inks.old
            → has_eight_bit ≡ list_any is_eight_bit events
            → map colour_in_ink inks.new
            ≡ screen_on self.now (Step (Raster self.now.choices.tall 1 width height) ∷ events) }
    {
        if self.is_covered(width, height) {
            self.settle_on(self.ground(), has_eight_bit, colours, inks);
        } else {
            self.fill_ground_under(width, height, inks);
            self.settle(has_eight_bit, colours, inks);
        }
    }
}
