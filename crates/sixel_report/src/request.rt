//! What the program is to do.

use crate::task::Task;
use crate::wanted_lines::Lines;

/// A task, and the options that aren't part of it.
#[derive(Debug, Drop)]
pub struct Request {
    pub task: Task,
    /// Which lines a task with lines writes.
    pub lines: Lines,
    /// Whether a check or a survey ends with a hint on each different thing that it found wrong.
    pub explains: bool,
    /// The files to read instead of standard input, in order; `-` is standard input.
    pub files: Vec<String>,
}
