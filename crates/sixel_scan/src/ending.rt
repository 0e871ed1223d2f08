//! Where a string ends.

ghost use Rattle.std.specs.Prelude.{◌≡◌, ◌≢◌, ◌≤◌, [], ◌∷◌, ℕ, List, length, take, true, false};
ghost use Rattle.sixel_scan.specs.Scanning.{AreInside, IsInside};
ghost use Rattle.sixel_scan.specs.Strings.{EndsFirst};

use crate::opening::ESCAPE;
use memchr::{memchr, memchr3};

/// CAN, which ends a string.
const CANCEL: u8 = 0x18;

/// SUB, which ends a string.
const SUBSTITUTE: u8 = 0x1a;

/// The 8-bit terminator.
const EIGHT_BIT_TERMINATOR: u8 = 0x9c;

/// Whether a string ends after this byte, which is no ESC and follows none.
pub(crate) fn ends_after(byte: u8, eight: bool) -> bool
    requires { byte ≢ 27 }
    ensures ends { result ≡ true → (rest : List ℕ) → EndsFirst eight (byte ∷ []) rest }
    ensures inside { result ≡ false → IsInside eight byte }
{
    match byte {
        CANCEL | SUBSTITUTE => true,
        EIGHT_BIT_TERMINATOR => eight,
        _ => false,
    }
}

/// How many bytes the piece begins with, none of which is an ESC or ends a string.
pub(crate) fn string_bytes_in(piece: &[u8], eight: bool) -> usize
    ensures within { result ≤ length piece.now }
    ensures inside { AreInside eight (take result piece.now) }
{
    let count = memchr3(ESCAPE, CANCEL, SUBSTITUTE, piece).unwrap_or(piece.len());
    if eight {
        memchr(EIGHT_BIT_TERMINATOR, &piece[..count]).unwrap_or(count)
    } else {
        count
    }
}
