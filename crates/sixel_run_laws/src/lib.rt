//! Laws of the tasks: each has one output, encoded pictures are portable, a box is shown as its screen, and a scan of one
//! string is its check.
#![tactic(auto)]

pub mod laws;
