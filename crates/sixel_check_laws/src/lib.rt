//! Laws of findings: terminals differ at what a finding names, and the coordinates of a finding are exact.
#![tactic(auto)]

pub mod laws;
