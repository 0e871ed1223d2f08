//! Makes of a picture one that named terminals show.

ghost use Rattle.std.specs.Prelude.{◌≡◌, ◌≤◌, ◌<◌, ◌+◌};
ghost use Rattle.sixel_fit.specs.Fits.{FitsOrNot, IsHeightFor, fit_reason, has_hue_for, is_large};

use crate::hues::{has_hue, is_hue};
use crate::padding::{pad_register, with_rows};
use sixel_emulator_rules::{AskedRule, Terminals};
use sixel_model::{BAND_ROWS, Colour, MOST_SIDE, Palette, Picture};
use std::alloc::{AllocError, Global};

/// The greatest width that xterm shows, in pixels.
const MOST_WIDTH: u32 = 1_000;

/// The greatest height that xterm shows, in pixels.
const MOST_HEIGHT: u32 = 996;

/// The terminals that are to show a picture, and the colour of the rows that they may need below it.
#[derive(Clone, Copy, Debug, PartialEq, Eq)]
pub struct Fitting {
    pub terminals: Terminals,
    pub pad: Colour,
}

/// Why named terminals show no such picture. If several reasons apply, the first one in this order is reported.
#[derive(Clone, Copy, Debug, PartialEq, Eq)]
pub enum FitFault {
    /// xterm asks for `Large`: the picture has more than 1,000 columns or 996 rows. It has these sides.
    Large { width: u32, height: u32 },
    /// xterm asks for `Hue`: a colour is given by hue, lightness and saturation.
    Hue,
    /// konsole asks for `Rows`: with the rows below it the picture would have more than 2,048.
    TooHigh,
    /// No register is left for the colour of the rows below.
    NoRegister,
    /// An allocation failed.
    OutOfMemory,
}

impl From<AllocError> for FitFault {
    ghost use Rattle.std.specs.Prelude.{◌≡◌};
    ghost use Rattle.sixel_fit.specs.declared.making.FitFault.TheVariants.{OutOfMemory};

    ghost from_gives = { λ fault result. result ≡ OutOfMemory };

    fn from(_: AllocError) -> FitFault {
        FitFault::OutOfMemory
    }
}

/// The picture that these terminals show in place of this one: with rows of the colour below it, down to the next
/// multiple of six, if konsole is one of them. Else, and for no terminal, it is the same picture.
///
/// The rows take the first register that has their colour; if none has it, the first one without a colour. Memory is
/// allocated only for a picture with rows below it.
pub fn fit(alloc: Global, fitting: Fitting, picture: Picture) -> Result<Picture, FitFault>
    ensures { FitsOrNot fitting.terminals fitting.pad picture result }
{
    let Fitting { terminals, pad } = fitting;
    let height = height_for(terminals, picture.height());
    if let Some(fault) = reason_of(terminals, pad, &picture, height) {
        return Err(fault);
    }
    if height == picture.height() {
        return Ok(picture);
    }
    match pad_register(pad, picture.palette()) {
        Some(register) => Ok(with_rows(alloc, &picture, height, pad, register)?),
        None => Err(FitFault::NoRegister),
    }
}

/// The height in which these terminals show a picture of this height.
fn height_for(terminals: Terminals, height: u32) -> u32
    requires { height ≤ 2048 }
    ensures height { IsHeightFor terminals height result }
    ensures above { height ≤ result }
    ensures near { result < height + 6 }
{
    if terminals.asks_for(AskedRule::Rows) {
        (height + BAND_ROWS - 1) / BAND_ROWS * BAND_ROWS
    } else {
        height
    }
}

/// Whether a picture of these sides is too large for these terminals.
fn is_large(terminals: Terminals, width: u32, height: u32) -> bool
    ensures { result ≡ is_large terminals width height }
{
    terminals.asks_for(AskedRule::Large) && (width > MOST_WIDTH || height > MOST_HEIGHT)
}

/// Whether these terminals want other colours than those of the palette, and of the rows below if there are any.
fn wants_no_hue(terminals: Terminals, pad: Colour, palette: &Palette, adds: bool) -> bool
    ensures { result ≡ has_hue_for terminals pad palette.now adds }
{
    terminals.asks_for(AskedRule::Hue) && (has_hue(palette) || adds && is_hue(Some(pad)))
}

/// Why these terminals show no such picture with this height.
fn reason_of(terminals: Terminals, pad: Colour, picture: &Picture, height: u32) -> Option<FitFault>
    ensures { result ≡ fit_reason terminals pad picture.now height }
{
    let adds = picture.height() < height;
    if is_large(terminals, picture.width(), picture.height()) {
        Some(FitFault::Large {
            width: picture.width(),
            height: picture.height(),
        })
    } else if wants_no_hue(terminals, pad, picture.palette(), adds) {
        Some(FitFault::Hue)
    } else if height > MOST_SIDE {
        Some(FitFault::TooHigh)
    } else if adds && pad_register(pad, picture.palette()).is_none() {
        Some(FitFault::NoRegister)
    } else {
        None
    }
}
