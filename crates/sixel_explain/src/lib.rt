//! What `explain` says of each rule and each refusal, and which of them words ask for.
#![tactic(auto)]

mod asked_rules;
mod explanations;
mod lines;
mod refusals;
mod rules;

pub use explanations::{Topic, explanation, summary, topic_name, topic_of};
pub use lines::{nearest, topics_asked};
