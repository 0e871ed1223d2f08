//! Laws of what the program prints: a `portable` line is true, a `broken` line is true, and tasks that show the same
//! picture write the same.
#![tactic(auto)]

pub mod laws;
