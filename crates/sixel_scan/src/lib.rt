//! The sixel strings of a stream, as a program writes it to a terminal: text, control sequences, several pictures.
#![tactic(auto)]

mod answer;
mod ending;
mod fault;
pub mod laws;
mod opening;
mod scan;
mod scanner;
mod string_check;
mod unread;

pub use answer::{Answer, Scanned};
pub use fault::ScanFault;
pub use scan::Scan;
