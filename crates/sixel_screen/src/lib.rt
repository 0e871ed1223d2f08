//! The screen of a terminal as a PPM or a PNG.
#![tactic(auto)]

mod screen;

pub use screen::{ScreenPixels, is_rgb_alone, write_png_screen, write_ppm_screen};
