//! The bytes of a document, kept while it is followed.
#![tactic(auto)]

mod keeping;

pub use keeping::Keeping;
