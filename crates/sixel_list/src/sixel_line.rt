//! The lines of sixels, selects and repeats, by far the most common events: the digits of an offset's hundreds are kept
//! from one line to the next.

ghost use Rattle.std.specs.Prelude.{◌≡◌, ◌+◌, ◌*◌, ◌<◌, ◌≤◌, ◌^◌, ◌∷◌, ◌++◌, [], ℕ, IsTrue, decimal, drop, length};
ghost use Rattle.std.specs.Prelude.{slice_index, take};
ghost use Rattle.sixel_grammar.specs.Bytes.{is_data};
ghost use Rattle.sixel_grammar.specs.Document.{most_bytes};
ghost use Rattle.sixel_grammar.specs.Stretches.{sixels_from};
ghost use Rattle.sixel_grammar.specs.declared.command.Command.TheVariants.{Repeat, Select, Sixel};
ghost use Rattle.sixel_grammar.specs.declared.command.Event.TheVariants.{Step};
ghost use Rattle.sixel_list.specs.SixelTexts.{HasTail, tail_of, two_digits};
ghost use Rattle.sixel_report.specs.Texts.{event_line, list_text};
ghost use Rattle.sixel_list.specs.declared.sixel_line.TheConstants.{LAST, MOST_TEXT, ROOM, SIXELS};

use itoa::write_digits;
use std::simd::prelude::*;

/// The index in `text` of the last two digits of the offset. Those of its hundreds, at most as many, end before it.
const LAST: usize = 18;

/// How many bytes are stored at once: no line of a sixel has more.
const LANES: usize = 32;

/// Room for a line, and from each start on for a whole group.
const ROOM: usize = LAST + LANES;

/// The line of a command. Its offset mostly has the same hundreds as the one before, so their digits stay in `text`.
#[derive(Drop)]
pub struct SixelLine {
    text: [u8; ROOM],
    start: usize,
    end: usize,
    hundreds: u64,
    ghost start_within: { start ≤ LAST },
    ghost end_after: { LAST ≤ end },
    ghost end_within: { end ≤ ROOM },
    ghost digits: { drop start (take LAST text) ≡ decimal hundreds },
}

impl SixelLine {
    ghost use Rattle.sixel_list.specs.SixelLines.{text_of};

    /// No line yet: only the digit of 0 hundreds.
    pub fn new() -> SixelLine
        ensures { text_of result ≡ decimal 0 }
    {
        SixelLine {
            text: [b'0'; ROOM],
            start: LAST - 1,
            end: LAST,
            hundreds: 0,
        }
    }

    /// Makes it the line of the select of a register below 1,000 at the offset `place`.
    #[inline(always)]
    pub fn set_select(&mut self, place: u64, register: u16)
        requires place { 100 ≤ place }
        requires register { register < 1000 }
        ensures { text_of self.new ≡ event_line (record { place = place; event = Step (Select register) }) }
    {
        self.keep_hundreds(place / 100);
        let (tens, ones) = two_digits((place % 100) as u8);
        self.set_rest(&[tens, ones, b' ', b's', b'e', b'l', b'e', b'c', b't', b' ']);
        self.push_number(register);
        self.push(b'\n');
    }

    /// Makes it the line of a repeat of fewer than 1,000 columns at the offset `place`.
    #[inline(always)]
    pub fn set_repeat(&mut self, place: u64, count: u16, bits: u8)
        requires place { 100 ≤ place }
        requires count { count < 1000 }
        ensures { text_of self.new ≡ event_line (record { place = place; event = Step (Repeat count bits) }) }
    {
        self.keep_hundreds(place / 100);
        let (tens, ones) = two_digits((place % 100) as u8);
        self.set_rest(&[tens, ones, b' ', b'r', b'e', b'p', b'e', b'a', b't', b' ']);
        self.push_number(count);
        self.push(b' ');
        self.push_number(bits as u16);
        self.push(b'\n');
    }

    /// Makes the line begin with these hundreds.
    #[inline(always)]
    fn keep_hundreds(&mut self, hundreds: u64)
        requires { hundreds < 10 ^ LAST }
        ensures { self.new.hundreds ≡ hundreds }
    {
        if hundreds != self.hundreds {
            self.set_hundreds(hundreds);
        }
    }

    #[inline(never)]
    fn set_hundreds(&mut self, hundreds: u64)
        requires { hundreds < 10 ^ LAST }
        ensures { self.new.hundreds ≡ hundreds }
    {
        self.start = write_digits(hundreds, &mut self.text, LAST);
        self.hundreds = hundreds;
    }

    /// Puts the rest of the line after the hundreds.
    #[inline(always)]
    fn set_rest(&mut self, rest: &[u8])
        requires { length rest.now ≤ LANES }
        ensures text { text_of self.new ≡ decimal self.old.hundreds ++ rest.now }
        ensures end { self.new.end ≡ LAST + length rest.now }
    {
        self.end = LAST + rest.len();
        self.text[LAST..self.end].copy_from_slice(rest);
    }

    /// Adds the digits of a number below 1,000.
    #[inline(always)]
    fn push_number(&mut self, number: u16)
        requires number { number < 1000 }
        requires room { self.old.end + 3 ≤ ROOM }
        ensures text { text_of self.new ≡ text_of self.old ++ decimal number }
        ensures end { self.new.end ≤ self.old.end + 3 }
    {
        if number < 10 {
            self.push(b'0' + number as u8);
        } else if number < 100 {
            self.push_two(number as u8);
        } else {
            self.push(b'0' + (number / 100) as u8);
            self.push_two((number % 100) as u8);
        }
    }

    /// Adds the two digits of a number below 100.
    #[inline(always)]
    fn push_two(&mut self, number: u8)
        requires number { number < 100 }
        requires room { self.old.end + 2 ≤ ROOM }
        ensures text { text_of self.new ≡ text_of self.old ++ two_digits number }
        ensures end { self.new.end ≡ self.old.end + 2 }
    {
        let (tens, ones) = two_digits(number);
        self.push(tens);
        self.push(ones);
    }

    /// Adds a byte.
    #[inline(always)]
    fn push(&mut self, byte: u8)
        requires { self.old.end < ROOM }
        ensures text { text_of self.new ≡ text_of self.old ++ byte ∷ [] }
        ensures end { self.new.end ≡ self.old.end + 1 }
    {
        self.text[self.end] = byte;
        self.end += 1;
    }

    /// Writes the digits of these hundreds over the bytes from `at` on, and behind them the rest of a group. Returns how
    /// many they are.
    #[inline(always)]
    fn put_hundreds(&mut self, hundreds: u64, text: &mut [u8], at: usize) -> usize
        requires hundreds { hundreds < 10 ^ LAST }
        requires room { at + LANES ≤ length text.old }
        ensures text { take (at + result) text.new ≡ take at text.old ++ decimal hundreds }
        ensures long { length text.new ≡ length text.old }
        ensures short { result ≤ LAST }
    {
        self.keep_hundreds(hundreds);
        let count = LAST - self.start;
        let group = &self.text[self.start..self.start + LANES];
        put_group(text, at, group, count);
        count
    }

    /// The line that was made last.
    #[inline]
    pub fn as_slice(&self) -> &[u8]
        ensures text { result.now ≡ text_of self.now }
        ensures short { length result.now ≤ ROOM }
    {
        &self.text[self.start..self.end]
    }
}

/// The most bytes of a tail.
const LONGEST_TAIL: usize = 10;

/// Where the digits of a tail begin: after the word, with a space on each side.
const DIGITS: usize = 7;

/// How many bytes lie between the beginnings of two tails.
const STRIDE: usize = 16;

/// How many sixels there are, each with its tail.
const SIXELS: usize = 64;

/// Room for the tails, and from the beginning of each on for a whole group.
const TAILS_ROOM: usize = STRIDE * (SIXELS - 1) + LANES;

/// For each value of a sixel's bits what follows the offset in its line. Whole stores from here need no byte that was
/// stored just before, for which a load would have to wait.
#[derive(Drop)]
struct Tails {
    text: [u8; TAILS_ROOM],
    ghost tails: { (bits : ℕ) → bits < SIXELS → HasTail text bits },
}

impl Tails {
    fn new() -> Tails {
        let mut text = [0; TAILS_ROOM];
        for bits in 0..SIXELS {
            put_tail(&mut text[..], bits as u8);
        }
        Tails { text }
    }

    /// Writes the tail of these bits over the bytes from `at` on, and behind it the rest of a group. Returns its length.
    #[inline(always)]
    fn put(&self, bits: u8, text: &mut [u8], at: usize) -> usize
        requires bits { bits < SIXELS }
        requires room { at + LANES ≤ length text.old }
        ensures text { take (at + result) text.new ≡ take at text.old ++ tail_of bits }
        ensures long { length text.new ≡ length text.old }
        ensures short { result ≤ LONGEST_TAIL }
    {
        let count = tail_length(bits);
        let from = STRIDE * bits as usize;
        let group = &self.text[from..from + LANES];
        put_group(text, at, group, count);
        count
    }
}

/// Puts the tail of these bits in its place among the others.
fn put_tail(text: &mut [u8], bits: u8)
    requires bits { bits < SIXELS }
    requires long { length text.old ≡ TAILS_ROOM }
    ensures before { take (STRIDE * bits) text.new ≡ take (STRIDE * bits) text.old }
    ensures tail { HasTail text.new bits }
    ensures long { length text.new ≡ TAILS_ROOM }
{
    let at = STRIDE * bits as usize;
    let mut group = *b" sixel                          ";
    if bits < 10 {
        group[DIGITS] = b'0' + bits;
        group[DIGITS + 1] = b'\n';
        put_group(text, at, &group, LONGEST_TAIL - 1);
    } else {
        let (upper, lower) = two_digits(bits);
        group[DIGITS] = upper;
        group[DIGITS + 1] = lower;
        group[DIGITS + 2] = b'\n';
        put_group(text, at, &group, LONGEST_TAIL);
    }
}

/// How long the tail of these bits is.
#[inline(always)]
fn tail_length(bits: u8) -> usize
    requires { bits < SIXELS }
    ensures length { result ≡ length (tail_of bits) }
    ensures short { result ≤ LONGEST_TAIL }
{
    if bits < 10 {
        LONGEST_TAIL - 1
    } else {
        LONGEST_TAIL
    }
}

/// Writes the first `count` of the bytes over those from `at` on, and behind them the rest of a group.
#[inline(always)]
fn put_group(text: &mut [u8], at: usize, bytes: &[u8], count: usize)
    requires few { count ≤ LANES }
    requires whole { LANES ≤ length bytes.now }
    requires room { at + LANES ≤ length text.old }
    ensures text { take (at + count) text.new ≡ take at text.old ++ take count bytes.now }
    ensures long { length text.new ≡ length text.old }
{
    u8x32::from_slice(bytes).copy_to_slice(&mut text[at..]);
}

/// How many sixels' lines are put at once.
pub const MOST_SIXELS: usize = 16;

/// The most bytes of the lines of so many sixels.
const MOST_TEXT: usize = MOST_SIXELS * LANES;

/// Room for these lines, and for the two groups that begin in the last one.
const TEXT_ROOM: usize = MOST_TEXT + 2 * LANES;

/// The lines of some single sixels, one after another. A contract sees them as a text.
#[derive(Drop)]
pub struct SixelLines {
    pub line: SixelLine,
    tails: Tails,
    text: [u8; TEXT_ROOM],
    end: usize,
    ghost within: { end ≤ MOST_TEXT },
}

impl SixelLines {
    ghost use Rattle.sixel_list.specs.SixelLines.{lines_of};

    /// No lines.
    pub fn new() -> SixelLines
        ensures { lines_of result ≡ [] }
    {
        SixelLines {
            line: SixelLine::new(),
            tails: Tails::new(),
            text: [0; TEXT_ROOM],
            end: 0,
        }
    }

    /// Makes the lines of a few data bytes, each a single sixel. The first has the offset `place`.
    ///
    /// Their end has a local of its own, so that the loop writes it to no memory.
    #[inline(always)]
    pub fn set(&mut self, place: u64, bytes: &[u8])
        requires place { 100 ≤ place }
        requires few { length bytes.now ≤ MOST_SIXELS }
        requires sixels { (k : ℕ) → k < length bytes.now → IsTrue (is_data (slice_index bytes.now k)) }
        requires limit { place + length bytes.now ≤ most_bytes }
        ensures { lines_of self.new ≡ list_text (sixels_from place bytes.now) }
    {
        let mut end = 0;
        for (index, byte) in bytes.iter().enumerate() {
            end = self.put(end, place + index as u64, byte - b'?');
        }
        self.end = end;
    }

    /// Puts the line of the sixel with these bits at the offset `place` behind the first `end` bytes. Returns its end.
    #[inline(always)]
    fn put(&mut self, end: usize, place: u64, bits: u8) -> usize
        requires place { 100 ≤ place }
        requires bits { bits < SIXELS }
        requires room { end + LANES ≤ MOST_TEXT }
        ensures lines { take result self.new.text
            ≡ take end self.old.text ++ event_line (record { place = place; event = Step (Sixel bits) }) }
        ensures few { result ≤ end + LANES }
    {
        let hundreds = self.line.put_hundreds(place / 100, &mut self.text[..], end);
        let at = end + hundreds;
        let (tens, ones) = two_digits((place % 100) as u8);
        self.text[at] = tens;
        self.text[at + 1] = ones;
        let tail = self.tails.put(bits, &mut self.text[..], at + 2);
        at + 2 + tail
    }

    /// The lines.
    #[inline]
    pub fn as_slice(&self) -> &[u8]
        ensures text { result.now ≡ lines_of self.now }
        ensures short { length result.now ≤ MOST_TEXT }
    {
        &self.text[..self.end]
    }
}

/// The two decimal digits of a number below 100.
#[inline(always)]
fn two_digits(number: u8) -> (u8, u8)
    requires { number < 100 }
    ensures { result.0 ∷ result.1 ∷ [] ≡ two_digits number }
{
    (b'0' + number / 10, b'0' + number % 10)
}
