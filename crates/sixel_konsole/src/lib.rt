//! The model of konsole: what it makes of the events of a string, the rectangle that it fills first, and the plain
//! terminal that draws both.
#![tactic(auto)]

mod begun;
mod konsole;
mod measuring;
mod rectangle;
mod settings;

pub use begun::{OnKonsole, as_konsole, as_konsole_at_once};
pub use konsole::Konsole;
pub use measuring::Measuring;
pub use rectangle::KonsoleMeasure;
pub use settings::konsole_terminal;
