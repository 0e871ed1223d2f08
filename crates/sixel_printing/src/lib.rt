//! How a text that comes from outside is printed: its control characters by number.
#![tactic(auto)]

pub mod laws;
mod printing;

pub use printing::{PrintedChar, plain_byte, printed, printed_char, printed_lines};
