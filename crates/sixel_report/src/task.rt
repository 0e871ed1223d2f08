//! What a run does, and how it ends if it isn't refused.

use crate::rule_set::RuleSet;
use sixel_check::Finding;
use sixel_emulator_check::NamedFinding;
use sixel_emulator_rules::{AskedFinding, Terminals};
use sixel_fit::Fitting;
use sixel_model::{Colour, Profile};
use sixel_named_terminals::Named;

/// The greatest side of a screen, in pixels.
pub const MOST_SCREEN_SIDE: u32 = 4096;

/// How large a screen to show is.
#[derive(Clone, Copy, Debug, PartialEq, Eq)]
pub enum Area {
    /// As large as the declared box, that of the first raster attributes. Its sides must be from 1 to 4,096 pixels.
    Box,
    /// Of this width and height in pixels, each from 1 to 4,096.
    Sides { width: u32, height: u32 },
}

/// The format of a picture that a task writes.
#[derive(Clone, Copy, Debug, PartialEq, Eq)]
pub enum PictureFormat {
    /// A Netpbm PPM with a maxval of 100.
    Ppm,
    /// A PNG of the picture that the PPM has. Its samples are the nearest of 0 to 255.
    Png,
}

/// What to do with the input.
#[derive(Clone, Copy, Debug, PartialEq, Eq)]
pub enum Task {
    /// A line for each event of a sixel picture (DEC EK-VT3XX-GP, volume 2, the chapter on sixel graphics): its offset
    /// in bytes, its name, and its numbers.
    List,
    /// A line with the verdict on a sixel picture, with the registers of the profile: `portable` and its size in
    /// pixels, or `broken`, the first broken rule, its offset in bytes, and its pixel if it has one.
    Check {
        profile: Profile,
        /// The rules that these terminals ask for count too.
        terminals: Terminals,
    },
    /// A line for each rule that a sixel picture breaks, with the registers of the profile: the rule, how often it
    /// counts, the offset where it counts first, and its pixel there if it has one. Without a broken rule, the line of
    /// `Check`.
    Survey {
        profile: Profile,
        /// As in `Check`.
        terminals: Terminals,
    },
    /// A line for each sixel string of a stream, as a program writes it to a terminal: text, control sequences, several
    /// pictures. The line has the string's offset, and then what a check of its bytes by themselves says, with the
    /// registers of the profile: `portable` or `broken` as `Check` has it, or `refused`, the reason and its offset.
    /// Offsets are counted from the start of the stream.
    Scan {
        profile: Profile,
        /// The 8-bit controls count: 90 introduces a string, and 9C ends one (hexadecimal).
        eight_bit: bool,
    },
    /// A sixel picture that is portable in the profile, in this format.
    Render {
        profile: Profile,
        format: PictureFormat,
    },
    /// The screen of one terminal after a sixel picture, in this format. The terminal has the registers of the
    /// profile: of 16, register n starts as the grey of 6n percent; of 256, as that of n modulo 101 percent. The screen
    /// is white, and the picture begins at its top left.
    Show {
        profile: Profile,
        /// A pixel shows the colour that its register has at the end of the string, not when the pixel was painted.
        showing: bool,
        /// Raster attributes fill their box with register 0.
        fill: bool,
        /// A definition of a register also selects it.
        selects: bool,
        /// The width of the screen in pixels, from 1 to 4,096.
        width: u32,
        /// The height of the screen in pixels, from 1 to 4,096.
        height: u32,
        format: PictureFormat,
    },
    /// As `Show`, on a screen with the size of the declared box, that of the first raster attributes. Its sides must be
    /// from 1 to 4,096 pixels.
    ShowBox {
        profile: Profile,
        showing: bool,
        fill: bool,
        selects: bool,
        format: PictureFormat,
    },
    /// The screen of a named terminal after a sixel picture, in this format, by the terminal's model. The picture
    /// begins at its top left.
    ShowOn {
        named: Named,
        /// The colour of the whole screen before the picture.
        background: Colour,
        area: Area,
        format: PictureFormat,
    },
    /// Which of the named terminals show a sixel string differently, and where first. Each screen has the size of the
    /// mended picture, its height rounded up to whole bands of six rows.
    Differ {
        /// The colour of each screen before the picture.
        background: Colour,
    },
    /// The same screens side by side, as a Netpbm PPM.
    DifferSheet {
        background: Colour,
    },
    /// What one terminal shows of a sixel string, as a portable sixel picture with all of its paint. The terminal has
    /// 256 registers, which start as the 16 colours of a VT340, over and over.
    Mend {
        profile: Profile,
        /// The colour of the pixels that the string doesn't paint.
        background: Colour,
        /// As in `Show`.
        showing: bool,
        /// As in `Show`.
        selects: bool,
        /// The terminals that are to show the picture, perhaps with rows below it.
        fitting: Fitting,
    },
    /// A Netpbm PPM, with at most as many colours as the profile has registers, as a portable sixel picture.
    Encode {
        profile: Profile,
        /// As in `Mend`.
        fitting: Fitting,
    },
}

/// What may surprise in a task that is done.
#[derive(Clone, Copy, Debug, PartialEq, Eq)]
pub enum Note {
    /// As many painted pixels of a mended picture as this look like those that aren't painted.
    Hidden { pixels: u32 },
    /// A string to show names a register that the profile of 16 doesn't have.
    HighRegister,
    /// A string of a stream stands in the pass-through of tmux or GNU Screen.
    Wrapped,
}

/// How a task ended that wasn't refused.
#[derive(Clone, Copy, Debug, PartialEq, Eq)]
pub enum Status {
    /// The task is done; for a check or a survey, no rule is broken; for a scan, each string is portable.
    Done,
    /// The same, and something may surprise.
    Noted(Note),
    /// The picture isn't portable: its first broken rule.
    Broken(Finding),
    /// A named terminal may show the picture otherwise: its first broken rule is one that this terminal asks for.
    Asked(AskedFinding),
    /// The same of a survey: the first broken rule of those of portable pictures and those asked for.
    Surveyed {
        first: NamedFinding,
        /// The rules that it lists.
        rules: RuleSet,
    },
    /// The named terminals don't all show the same, or the model of one doesn't say what it shows.
    Differing,
    /// A string of the stream isn't portable.
    Unfit {
        /// A string of the stream, perhaps another, stands in the pass-through of tmux or GNU Screen.
        wrapped: bool,
    },
}
