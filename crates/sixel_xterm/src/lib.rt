//! The model of xterm: what it makes of the events of a string, and the plain terminal that draws that.
#![tactic(auto)]

mod begun;
mod pen;
mod settings;
mod xterm;

pub use begun::as_xterm;
pub use settings::xterm_terminal;
pub use xterm::XTerm;
