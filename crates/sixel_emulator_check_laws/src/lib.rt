//! Laws about what named terminals show of a picture that is portable on them: the picture, and all four the same.
#![tactic(auto)]

pub mod laws;
