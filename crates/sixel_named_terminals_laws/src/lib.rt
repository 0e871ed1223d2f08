//! Laws about the models of the named terminals.
#![tactic(auto)]

pub mod laws;
