//! Which of the bytes between strings may become an opening.

ghost use Rattle.std.specs.Prelude.{◌≡◌, ◌≢◌, ◌≤◌, ◌+◌, ℕ, List, MatchOption, [], ◌∷◌, ◌++◌, get_or, length, take};
ghost use Rattle.std.specs.Prelude.{true};
ghost use Rattle.sixel_scan.specs.Openings.{Advances, Follows, IsHeld, after_parameters, is_introduced, is_longer};
ghost use Rattle.sixel_scan.specs.Openings.{wraps};
ghost use Rattle.sixel_scan.specs.Scanning.{BeginNone, BeginsNone, NoneBegins};
ghost use Rattle.sixel_scan.specs.Strings.{IsOpening};

use memchr::{memchr, memchr2};

/// ESC.
pub(crate) const ESCAPE: u8 = 0x1b;

/// The 8-bit introducer.
pub(crate) const EIGHT_BIT_INTRODUCER: u8 = 0x90;

/// What the text read so far ends in, if an opening may come of it.
#[derive(Clone, Copy, Debug)]
pub(crate) enum Opening {
    /// Nothing of it may become an opening.
    Nothing,
    /// ESC.
    Escape,
    /// ESC P.
    Letter,
    /// The 8-bit introducer.
    Control,
    /// An introducer, and digits and `;`.
    Introduced,
}

impl Opening {
    /// What may become an opening after one more byte. `None` means that with this byte it is one.
    pub(crate) fn next(self, byte: u8, eight: bool) -> Option<Opening>
        ensures next { (held : List ℕ) → IsHeld eight self held → MatchOption result
            (IsOpening eight (held ++ byte ∷ [])) (λ next. Advances eight next held byte) }
        ensures longer { is_longer result ≡ true → is_introduced self ≡ true }
        ensures follows { Follows self byte result }
    {
        if byte == ESCAPE {
            return Some(Opening::Escape);
        }
        if eight && byte == EIGHT_BIT_INTRODUCER {
            return Some(Opening::Control);
        }
        match self {
            Opening::Nothing => Some(Opening::Nothing),
            Opening::Escape if byte == b'P' => Some(Opening::Letter),
            Opening::Escape => Some(Opening::Nothing),
            Opening::Letter | Opening::Control | Opening::Introduced => after_introducer(byte),
        }
    }

    /// Whether a string that begins here stands in the pass-through of tmux or GNU Screen.
    pub(crate) fn wraps(self) -> bool
        ensures { result ≡ wraps self }
    {
        match self {
            Opening::Escape | Opening::Letter => true,
            Opening::Nothing | Opening::Control | Opening::Introduced => false,
        }
    }
}

/// What may become an opening after an introducer, digits and `;`, and this byte.
fn after_introducer(byte: u8) -> Option<Opening>
    ensures { result ≡ after_parameters byte }
{
    match byte {
        b'0'..=b'9' | b';' => Some(Opening::Introduced),
        b'q' => None,
        _ => Some(Opening::Nothing),
    }
}

/// How many bytes the piece begins with, in which no opening begins, whatever comes after them. It passes other control
/// sequences, as those of colours.
pub(crate) fn text_bytes_in(piece: &[u8], eight: bool) -> usize
    ensures within { result ≤ length piece.now }
    ensures text { NoneBegins eight (take result piece.now) }
{
    let mut count = plain_bytes_in(piece, eight);
    while is_other_escape(piece, count, eight) {
        let after = count + 2;
        count = after + plain_bytes_in(&piece[after..], eight);
    }
    count
}

/// Whether there is an ESC at this index of the piece, and a byte after it with which no opening begins or goes on.
#[inline]
fn is_other_escape(piece: &[u8], at: usize, eight: bool) -> bool
    requires { at ≤ length piece.now }
    ensures within { result ≡ true → at + 2 ≤ length piece.now }
    ensures escape { result ≡ true → get_or piece.now at 0 ≡ 27 }
    ensures no_letter { result ≡ true → get_or piece.now (at + 1) 0 ≢ 80 }
    ensures none { result ≡ true → BeginsNone eight (get_or piece.now (at + 1) 0) }
{
    if piece.len() - at < 2 || piece[at] != ESCAPE {
        return false;
    }
    match piece[at + 1] {
        b'P' | ESCAPE => false,
        EIGHT_BIT_INTRODUCER => !eight,
        _ => true,
    }
}

/// How many bytes the piece begins with, with none of which an opening begins.
#[inline]
fn plain_bytes_in(piece: &[u8], eight: bool) -> usize
    ensures within { result ≤ length piece.now }
    ensures text { BeginNone eight (take result piece.now) }
{
    if eight {
        memchr2(ESCAPE, EIGHT_BIT_INTRODUCER, piece).unwrap_or(piece.len())
    } else {
        memchr(ESCAPE, piece).unwrap_or(piece.len())
    }
}
