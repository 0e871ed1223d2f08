//! Laws of the command line: which words are accepted, and what they ask for.
#![tactic(auto)]

pub mod laws;
