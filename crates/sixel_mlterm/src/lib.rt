//! The model of mlterm: what it makes of the events of a string, and the plain terminal that draws that.
#![tactic(auto)]

mod begun;
mod mlterm;
mod settings;

pub use begun::as_mlterm;
pub use mlterm::{MlTerm, may_mix};
pub use settings::mlterm_terminal;
