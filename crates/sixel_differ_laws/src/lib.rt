//! Laws of comparisons: when the four terminals are one group, and that each document has exactly one comparison.
#![tactic(auto)]

pub mod laws;
