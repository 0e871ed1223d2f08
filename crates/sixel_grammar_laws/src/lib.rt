//! Laws about documents, their faults and their spelling.
#![tactic(auto)]

pub mod laws;
