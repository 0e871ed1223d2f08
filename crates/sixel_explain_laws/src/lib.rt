//! Laws of what is explained: each name can be asked for, and so can each line of the program.
#![tactic(auto)]

pub mod laws;
