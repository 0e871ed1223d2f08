//! Laws about the portable pictures that named terminals show.
#![tactic(auto)]

pub mod laws;
