//! How the texts of short repeats begin.

ghost use Rattle.std.specs.Prelude.{◌≡◌, ◌+◌, ◌<◌, ◌≤◌, ◌++◌, ℕ, if◌then◌else◌, length, nat_lt, take};
ghost use Rattle.sixel_encode.specs.Heads.{HasHead, IsHead, head};

use crate::digits::digit;
use crate::line::put_at;

/// For each count below 100 the head of a repeat's text: `!` and the digits. Most repeats in photos are that short, and
/// working out the digits would take longer.
#[derive(Debug, Drop)]
pub(crate) struct Heads {
    texts: [[u8; 4]; 100],
    ghost heads: { (count : ℕ) → count < 100 → HasHead texts count },
}

impl Heads {
    pub(crate) fn new() -> Heads {
        let mut texts = [[0; 4]; 100];
        for count in 0..100 {
            texts[count as usize] = head_bytes(count);
        }
        Heads { texts }
    }

    /// Writes the head over the bytes from `at` on, and behind it the rest of four bytes. Returns where it ends.
    #[inline]
    pub(crate) fn put(&self, text: &mut [u8], at: usize, count: u16) -> usize
        requires count { count < 100 }
        requires room { at + 4 ≤ length text.old }
        ensures text { take result text.new ≡ take at text.old ++ head count }
        ensures long { length text.new ≡ length text.old }
        ensures short { result ≤ at + 3 }
    {
        let bytes = self.texts[count as usize];
        put_at(text, at, &bytes);
        at + head_length(count)
    }
}

/// The head of this count, and the rest of four bytes.
fn head_bytes(count: u16) -> [u8; 4]
    requires { count < 100 }
    ensures { IsHead count result }
{
    if count < 10 {
        [b'!', digit(count), 0, 0]
    } else {
        [b'!', digit(count / 10), digit(count % 10), 0]
    }
}

/// How long the head of this count is. Takes no branch, since it couldn't be foreseen.
#[inline]
fn head_length(count: u16) -> usize
    ensures value { result ≡ (if nat_lt count 10 then 2 else 3) }
    ensures few { result ≤ 3 }
{
    3 - usize::from(count < 10)
}
