//! Shows a sixel picture: the screen of a terminal after it, as a PPM or a PNG.
#![tactic(auto)]

mod box_finder;
mod draw;
mod on_konsole;
mod screen;
pub mod show;
pub mod show_box;
pub mod show_on;
mod watched;
