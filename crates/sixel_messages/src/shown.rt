//! Which messages come last.

/// Which messages come last.
#[derive(Clone, Copy, Debug, PartialEq, Eq)]
pub struct Shown {
    /// Whether standard error is a terminal.
    pub is_terminal: bool,
    /// Whether hints are asked for.
    pub explains: bool,
    /// Whether a scan may end with a note.
    pub notes: bool,
}
