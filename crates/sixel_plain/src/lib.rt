//! For tests of the check: a plain judge of sixel pictures, documents to judge, and what terminals show for them.
//!
//! The judge follows the rules as `Rule` states them. It keeps all events and looks back from each of them, while the
//! check keeps none; and it calls no function of the check. We prove only that it is safe and ends.
#![tactic(auto)]

mod choice;
mod documents;
mod history;
mod judging;
mod left;
mod pixels;
mod rules;
mod terminals;

pub use choice::Choice;
pub use documents::{Documents, Made};
pub use judging::{PlainVerdict, judge, judge_events};
pub use left::is_left;
pub use terminals::{MOST_SHOWN, all_show, terminals_differ};
