//! What a scan reports of a string.

use sixel_check::Finding;
use sixel_grammar::Fault;

/// What a check of the bytes of one string answers. Offsets are counted from the start of the stream.
#[derive(Clone, Copy, Debug, PartialEq, Eq, Drop)]
pub enum Answer {
    /// No rule is broken: every terminal of the class with room shows the picture. Its size, in pixels.
    Portable { width: u32, height: u32 },
    /// The first broken rule.
    Broken(Finding),
    /// The bytes of the string aren't a document.
    Refused(Fault),
}

/// One string of a stream.
#[derive(Clone, Copy, Debug, PartialEq, Eq, Drop)]
pub struct Scanned {
    /// The offset of its first byte, from the start of the stream.
    pub place: u64,
    pub answer: Answer,
    /// Whether it stands in the pass-through of tmux or GNU Screen: right after an ESC, or after ESC P.
    ///
    /// That of tmux is ESC P `tmux;`, the string with each ESC doubled, ESC \ (tmux(1), `allow-passthrough`). That of
    /// GNU Screen is ESC P, a piece of the string, ESC \ (screen(1): "ESC P .. ESC \ Device Control String. Outputs a
    /// string directly to the host terminal").
    pub wrapped: bool,
}
