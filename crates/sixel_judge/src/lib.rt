//! The rules of a portable picture, and verdicts on lists of events.
//!
//! The rules are this project's own, over the commands of DEC EK-VT3XX-GP, volume 2, the chapter on sixel graphics.
#![tactic(auto)]

mod checker;
mod colours;
pub mod events;
mod following;
pub mod hits;
mod judge;
pub mod laws;
pub mod notes;
pub mod outside;
mod pixels;
mod progress;
mod pushing;
pub mod rules;
mod stretch;
mod verdict;
mod violation;

pub use checker::Checker;
pub use sixel_model::Rule;
pub use verdict::{Finding, Outcome, Verdict};
