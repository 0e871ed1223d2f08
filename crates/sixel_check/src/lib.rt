//! Checks of the bytes of a document. With them come the rules, the verdicts and the checker of events of
//! `sixel_judge`, and the surveys of `sixel_survey`.
#![tactic(auto)]

mod checking;

pub use checking::{check, check_bytes, check_with, outcome_with};
pub use sixel_judge::{Checker, Finding, Outcome, Rule, Verdict};
pub use sixel_survey::{Entry, RULE_COUNT, Survey, survey, survey_with};
