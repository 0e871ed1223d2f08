//! The result of a check.

use sixel_model::{Picture, Rule};

/// The first broken rule: of the earliest event that breaks any rule, the lowest-numbered rule that it breaks.
#[derive(Clone, Copy, Debug, PartialEq, Eq, Drop)]
pub struct Finding {
    pub rule: Rule,
    /// The offset of the event's first byte, from the start of the document.
    pub place: u64,
    /// The column and the row, in pixels from the top left of the box. `Outside`: the first pixel in row order that the
    /// event paints outside the box. `Uncovered`: the first unpainted pixel of the box. Any other rule: `None`. A
    /// coordinate above `u64::MAX` is given as `u64::MAX`; no document is long enough for that.
    pub pixel: Option<(u64, u64)>,
}

/// The picture that a document leaves, or the first rule that it breaks.
#[derive(Debug, Drop)]
pub enum Verdict {
    /// No rule is broken. Each pixel has the register that painted it last. The palette has the defined registers, each
    /// with its last colour. Every terminal with room for the picture shows it; `sixel_terminal::Choices` says which
    /// terminals are meant.
    Portable(Picture),
    /// A rule is broken. For `Outside`, `Uncovered`, and `EightBit` at the terminator, two terminals can really differ
    /// there. The other rules, and `EightBit` at the introducer, are conservative: the document may look the same
    /// everywhere.
    Broken(Finding),
}

/// The size of the picture that a document leaves, or the first rule that it breaks: a `Verdict` without the picture.
#[derive(Clone, Copy, Debug, PartialEq, Eq, Drop)]
pub enum Outcome {
    /// No rule is broken, and the picture has this size in pixels.
    Portable { width: u32, height: u32 },
    /// A rule is broken.
    Broken(Finding),
}
