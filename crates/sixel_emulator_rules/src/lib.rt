//! The rules that named terminals ask for, besides those of portable pictures.
#![tactic(auto)]

mod asked_rules;
mod asking;
mod events;
pub mod laws;
mod notes;
mod rule;
mod rules;
mod shade;
mod tally;
mod tallying;
mod terminals;

pub use asked_rules::AskedRules;
pub use asking::{AskedFinding, Asking};
pub use rule::{ALL_ASKED_RULES, ASKED_COUNT, AskedRule};
pub use tally::{AskedEntries, AskedEntry};
pub use tallying::Tallying;
pub use terminals::Terminals;
