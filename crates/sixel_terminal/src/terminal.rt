//! A terminal with a screen.

mod drawing;
mod painting;
mod steps;
mod under;

ghost use Rattle.std.specs.Prelude.{◌≡◌, ◌↔◌, ◌*◌, List, None, Some, IfErr, IfOk, IsTrue, MatchResult, length};
ghost use Rattle.sixel_model.specs.declared.colour.Parts.{Parts};
ghost use Rattle.sixel_terminal.specs.Displays.{HasRoom, IsInClass};
ghost use Rattle.sixel_terminal.specs.Limits.{display_of, is_ground_below, plain_screen, terminal_fault};

use crate::choices::{Choices, Ground};
use sixel_model::{Colour, LEAST_REGISTERS};
use std::marker::Model;

/// The greatest count of registers: that of a named terminal.
const MOST_REGISTERS: usize = 1024;

/// The greatest side of a screen, in pixels.
const MOST_SCREEN_SIDE: u32 = 4096;

/// Why parts don't make a terminal. If several reasons apply, the first one in this order is reported.
#[derive(Clone, Copy, Debug, PartialEq, Eq)]
pub enum TerminalReason {
    /// There are fewer than 16 colours or more than 1,024.
    Registers = 1,
    /// The register selected at the start isn't below the number of colours.
    Selected = 2,
    /// The register of a filled ground isn't below the number of colours.
    Ground = 3,
    /// A repeat of 0 has more than one column.
    Zero = 4,
    /// The height of a sixel pixel is 0.
    Tall = 5,
    /// A side of the screen is outside 1 to 4,096 pixels, or there isn't one colour for each pixel.
    Screen = 6,
    /// The origin isn't on the screen.
    Origin = 7,
}

/// The reason, and the lists, returned unchanged.
#[derive(Debug, Drop)]
pub struct TerminalFault {
    pub reason: TerminalReason,
    pub colours: Vec<Colour>,
    pub screen: Vec<Colour>,
}

/// A screen before the drawing: all of one colour, or with a colour for each pixel, row by row.
#[derive(Debug, Drop)]
enum Backdrop {
    Plain(Colour),
    Pixels(Vec<Colour>),
}

/// A terminal of the class. Contracts see its choices, its starting colours and its screen.
#[derive(Debug, Drop)]
pub struct Terminal {
    choices: Choices,
    colours: Vec<Colour>,
    backdrop: Backdrop,
}

impl Model for Terminal {
    ghost use Rattle.std.specs.Prelude.{◌≡◌, None};
    ghost use Rattle.sixel_terminal.specs.Displays.{Display};

    ghost Value = { Display };

    ghost use Rattle.sixel_terminal.specs.Backdrops.{screen_of};
    ghost use Rattle.sixel_terminal.specs.Limits.{display_of, terminal_fault};

    ghost view = { λ t. display_of t.choices t.colours.items (screen_of t.choices t.backdrop) };

    ghost invariant = { λ t. terminal_fault t.choices t.colours.items (screen_of t.choices t.backdrop) ≡ None };
}

/// Whether the register of a filled ground is below `registers`.
fn is_below(ground: Ground, registers: usize) -> bool
    ensures { result ≡ is_ground_below registers ground }
{
    match ground {
        Ground::Kept => true,
        Ground::Filled(register) => (register as usize) < registers,
    }
}

/// How many pixels a screen of these sides has.
fn pixels_of(choices: Choices) -> u64
    ensures { result ≡ choices.screen_width * choices.screen_height }
{
    choices.screen_width as u64 * choices.screen_height as u64
}

/// The first reason why these choices don't make a terminal with so many registers, and with a list of so many colours
/// for its screen.
fn fault_of(choices: Choices, registers: usize, pixels: u64) -> Option<TerminalReason>
    ensures { (colours screen : List Parts) → length colours ≡ registers → length screen ≡ pixels
        → result ≡ terminal_fault choices colours screen }
{
    if registers < LEAST_REGISTERS || registers > MOST_REGISTERS {
        return Some(TerminalReason::Registers);
    }
    if choices.selected as usize >= registers {
        return Some(TerminalReason::Selected);
    }
    if !is_below(choices.ground, registers) {
        return Some(TerminalReason::Ground);
    }
    if choices.zero > 1 {
        return Some(TerminalReason::Zero);
    }
    if choices.tall == 0 {
        return Some(TerminalReason::Tall);
    }
    let sides = choices.screen_width >= 1
        && choices.screen_width <= MOST_SCREEN_SIDE
        && choices.screen_height >= 1
        && choices.screen_height <= MOST_SCREEN_SIDE;
    if !sides || pixels != pixels_of(choices) {
        return Some(TerminalReason::Screen);
    }
    if choices.origin_x >= choices.screen_width || choices.origin_y >= choices.screen_height {
        return Some(TerminalReason::Origin);
    }
    None
}

impl Terminal {
    /// Makes a terminal of these choices, one starting colour for each register, and the colours on the screen, row by
    /// row. On an `Err` they don't make one; it has the first reason.
    pub fn new(
        choices: Choices,
        colours: Vec<Colour>,
        screen: Vec<Colour>,
    ) -> Result<Terminal, TerminalFault>
        ensures reason { MatchResult result
            (λ t. terminal_fault choices colours.items screen.items ≡ None)
            (λ f. terminal_fault choices colours.items screen.items ≡ Some f.reason) }
        ensures made { IfOk result (λ t. t ≡ display_of choices colours.items screen.items) }
        ensures parts { IfErr result (λ f. (f.colours ≡ colours) × (f.screen ≡ screen)) }
    {
        if let Some(reason) = fault_of(choices, colours.len(), screen.len() as u64) {
            return Err(TerminalFault {
                reason,
                colours,
                screen,
            });
        }
        Ok(Terminal {
            choices,
            colours,
            backdrop: Backdrop::Pixels(screen),
        })
    }

    /// Makes a terminal of these choices and one starting colour for each register, whose whole screen has this colour.
    /// It keeps no list of pixels. On an `Err` the parts don't make a terminal; it has the first reason.
    pub fn plain(
        choices: Choices,
        colours: Vec<Colour>,
        background: Colour,
    ) -> Result<Terminal, TerminalReason>
        ensures reason { MatchResult result
            (λ t. terminal_fault choices colours.items (plain_screen choices background) ≡ None)
            (λ reason. terminal_fault choices colours.items (plain_screen choices background) ≡ Some reason) }
        ensures made { IfOk result (λ t. t ≡ display_of choices colours.items (plain_screen choices background)) }
    {
        match fault_of(choices, colours.len(), pixels_of(choices)) {
            Some(reason) => Err(reason),
            None => Ok(Terminal {
                choices,
                colours,
                backdrop: Backdrop::Plain(background),
            }),
        }
    }

    /// Whether a box of this width and height in pixels, which begins at the origin, fits on the screen.
    pub fn has_room(&self, width: u32, height: u32) -> bool
        ensures room { IsTrue result ↔ HasRoom self.now width height }
        ensures in_class { IsInClass 16 self.now }
    {
        width <= self.choices.screen_width
            && self.choices.origin_x <= self.choices.screen_width - width
            && height <= self.choices.screen_height
            && self.choices.origin_y <= self.choices.screen_height - height
    }
}
