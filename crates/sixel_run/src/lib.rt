//! Runs the tasks of the program: each reads a source, writes to a sink, and ends with a status or a fault.
#![tactic(auto)]

mod running;

pub use running::{run, write_lines};
