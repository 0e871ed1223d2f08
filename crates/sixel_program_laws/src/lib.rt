//! Laws of the program: of several files, of lines of JSON and of empty inputs.
#![tactic(auto)]

pub mod laws;
