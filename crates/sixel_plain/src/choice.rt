//! The choices by which two terminals of the class may differ.

use sixel_judge::Rule;
use sixel_terminal::{Choices, Ground};

/// A choice of a terminal. Two terminals that differ only in it may show a document differently, if the document isn't
/// portable.
#[derive(Clone, Copy, Debug, PartialEq, Eq)]
pub enum Choice {
    /// A pixel shows the colour that its register has at the end of the string, or when it is painted.
    BindsAtShowing,
    /// A definition also selects its register, or it doesn't.
    Selects,
    /// Raster attributes fill the box, or they leave the screen unchanged.
    Ground,
    /// A repeat of 0 paints one column, or none.
    Zero,
    /// A coordinate out of range becomes the nearest one in range, or its definition gives no colour.
    Clamps,
    /// Points outside the box are painted, or they aren't.
    Clips,
    /// The terminal knows 8-bit controls, or it doesn't.
    EightBit,
    /// The colours that the registers start with.
    Colours,
    /// The terminal has as many registers as the profile, or 256.
    Registers,
}

impl Choice {
    /// The choice by which terminals may differ on a document that breaks the rule, if the 128 terminals have one.
    pub fn of_rule(rule: Rule) -> Option<Choice> {
        match rule {
            Rule::RasterTwice | Rule::Uncovered => Some(Choice::Ground),
            Rule::Register => Some(Choice::Registers),
            Rule::Undefined => Some(Choice::Colours),
            Rule::ColourValue => Some(Choice::Clamps),
            Rule::RepeatZero => Some(Choice::Zero),
            Rule::Unselected => Some(Choice::Selects),
            Rule::Redefined => Some(Choice::BindsAtShowing),
            Rule::Outside => Some(Choice::Clips),
            Rule::EightBit => Some(Choice::EightBit),
            Rule::RasterFirst | Rule::Ratio | Rule::BoxSize => None,
        }
    }

    /// The bit of this choice in a terminal's number; 0 if the number doesn't have it.
    pub(crate) fn bit(self) -> u8 {
        match self {
            Choice::BindsAtShowing => 1,
            Choice::Selects => 2,
            Choice::Ground => 4,
            Choice::Zero => 8,
            Choice::Clamps => 16,
            Choice::Clips => 32,
            Choice::EightBit => 64,
            Choice::Colours | Choice::Registers => 0,
        }
    }
}

/// The choices of the terminal with this number, from 0 to 127. Its screen has room for a box of this width and height
/// in pixels, with one pixel around it.
pub(crate) fn choices_of(number: u8, width: u32, height: u32) -> Choices {
    let has = |choice: Choice| number & choice.bit() != 0;
    Choices {
        binds_at_showing: has(Choice::BindsAtShowing),
        selects: has(Choice::Selects),
        ground: if has(Choice::Ground) {
            Ground::Filled(5)
        } else {
            Ground::Kept
        },
        selected: 7,
        zero: if has(Choice::Zero) { 1 } else { 0 },
        clamps: has(Choice::Clamps),
        tall: 3,
        clips: has(Choice::Clips),
        eight_bit: has(Choice::EightBit),
        screen_width: width.saturating_add(2),
        screen_height: height.saturating_add(2),
        origin_x: 1,
        origin_y: 1,
    }
}
