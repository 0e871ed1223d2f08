//! The model of foot: what it makes of the events of a string, and the plain terminal that draws that.
#![tactic(auto)]

mod begun;
mod foot;
mod settings;

pub use begun::as_foot;
pub use foot::Foot;
pub use settings::foot_terminal;
