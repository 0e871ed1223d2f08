//! Surveys of sixel pictures: every broken rule of a portable picture, how often it's broken, and where first.
#![tactic(auto)]

mod cover;
mod entry;
mod first;
pub mod laws;
mod stretch;
mod surveying;
mod surveyor;
mod tally;
mod tallying;

pub use entry::{Entry, Survey};
pub use first::first_finding;
pub use sixel_model::RULE_COUNT;
pub use surveying::{Surveying, survey, survey_with};
