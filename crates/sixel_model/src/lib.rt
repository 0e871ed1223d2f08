//! Colours, palettes and pictures; what events draw, and the rules.
#![tactic(auto)]

mod bits;
mod colour;
pub mod laws;
mod palette;
mod picture;
mod profile;
mod rule;

pub use bits::{BAND_ROWS, is_set};
pub use colour::{Colour, Parts};
pub use palette::Palette;
pub use picture::{MOST_SIDE, Picture, PictureFault, PictureReason};
pub use profile::{LEAST_REGISTERS, MOST_REGISTERS, Profile};
pub use rule::{ALL_RULES, RULE_COUNT, Rule};
