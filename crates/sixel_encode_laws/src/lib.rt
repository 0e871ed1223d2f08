//! Laws of the canonical text of a picture: it is a document, it is short, and it leads back to the picture.
#![tactic(auto)]

pub mod laws;
