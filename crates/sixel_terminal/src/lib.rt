//! A class of terminals, and what one of them shows after a list of events.
#![tactic(auto)]

mod canvas;
mod choices;
mod drawing;
mod fixing;
mod following;
pub mod laws;
mod pen;
mod pixel;
mod registers;
mod screen;
mod starts;
mod stretch;
mod terminal;

pub use choices::{Choices, Ground};
pub use drawing::Drawing;
pub use pixel::{Ink, Pixel, are_four_same};
pub use screen::Screen;
pub use starts::vt340_colour;
pub use terminal::{Terminal, TerminalFault, TerminalReason};
