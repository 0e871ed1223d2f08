//! Laws of mended pictures: they are portable, nothing that is painted is lost, and a portable picture stays as it is.
#![tactic(auto)]

pub mod laws;
