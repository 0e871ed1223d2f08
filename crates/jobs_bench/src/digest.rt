//! A digest of all that the tasks write.

ghost use Rattle.std.specs.Prelude.{◌≤◌, ◌+◌, length};

use std::io;
use std::io::Write;

const FACTOR: u64 = 0x9e37_79b9_7f4a_7c15;

/// Eight bytes as a number, the first one in the highest place.
fn word_at(bytes: &[u8], at: usize) -> u64
    requires { at + 8 ≤ length bytes.now }
{
    u64::from_be_bytes([
        bytes[at],
        bytes[at + 1],
        bytes[at + 2],
        bytes[at + 3],
        bytes[at + 4],
        bytes[at + 5],
        bytes[at + 6],
        bytes[at + 7],
    ])
}

/// A sum over all bytes, eight at a time. It is the same however the bytes are cut into writes.
#[derive(Clone, Copy, Debug)]
pub struct Digest {
    sum: u64,
    /// The bytes since the last whole word, the newest in the lowest place.
    word: u64,
    /// How many they are.
    filled: u64,
}

impl Digest {
    pub fn new() -> Digest {
        Digest {
            sum: 0,
            word: 0,
            filled: 0,
        }
    }

    fn add_word(&mut self, word: u64) {
        self.sum = (self.sum ^ word).wrapping_mul(FACTOR).rotate_left(29);
    }

    fn add_byte(&mut self, byte: u8) {
        self.word = self.word.wrapping_mul(256) | u64::from(byte);
        if self.filled < 7 {
            self.filled = self.filled.saturating_add(1);
        } else {
            let word = self.word;
            self.add_word(word);
            self.filled = 0;
        }
    }

    fn add_bytes(&mut self, bytes: &[u8]) {
        for byte in bytes {
            self.add_byte(*byte);
        }
    }

    /// Adds the bytes, the first of which begin a word.
    fn add_words(&mut self, bytes: &[u8]) {
        let words = bytes.len() / 8;
        for index in 0..words {
            self.add_word(word_at(bytes, 8 * index));
        }
        self.add_bytes(&bytes[8 * words..]);
    }

    /// Adds the bytes.
    pub fn add(&mut self, bytes: &[u8]) {
        let missing = (8u64.wrapping_sub(self.filled) % 8) as usize;
        let (first, rest) = bytes.split_at(missing.min(bytes.len()));
        self.add_bytes(first);
        if self.filled == 0 {
            self.add_words(rest);
        }
    }

    /// The sum over all bytes so far.
    pub fn sum(mut self) -> u64 {
        let last = self.word.wrapping_mul(8).wrapping_add(self.filled);
        self.add_word(last);
        self.sum
    }
}

/// A stream of which only the digest is kept.
#[derive(Drop)]
pub struct Digested<'a> {
    pub digest: &'a mut Digest,
}

impl Write for Digested<'_> {
    fn write(&mut self, buf: &[u8]) -> io::Result<usize> {
        self.digest.add(buf);
        Ok(buf.len())
    }

    fn flush(&mut self) -> io::Result<()> {
        Ok(())
    }
}
