//! Checks and surveys for named terminals: the rules of portable pictures, and those that the terminals ask for.
#![tactic(auto)]

mod checking;
mod joining;
pub mod laws;
mod looks;
mod rule;
mod surveying;
mod trailer;
mod verdict;

pub use checking::outcome_on;
pub use rule::{ALL_NAMED_RULES, NAMED_RULE_COUNT, NamedRule};
pub use surveying::{NamedSurvey, survey_on};
pub use verdict::{NamedFinding, NamedOutcome, NamedVerdict};
