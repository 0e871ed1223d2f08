//! What the named terminals show of a sixel picture, side by side as a PPM.
#![tactic(auto)]

pub mod differ_sheet;
mod measured;
mod sheet;
mod viewed;

pub use measured::read_document;
pub use viewed::read_views;
