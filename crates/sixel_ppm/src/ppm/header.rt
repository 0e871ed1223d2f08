//! The header of a picture file, read byte by byte.

ghost use Rattle.std.specs.Prelude.{◌≡◌, ◌<◌, IsTrue};
ghost use Rattle.sixel_grammar.specs.Bytes.{is_digit};
ghost use Rattle.sixel_ppm.specs.PpmReading.{is_space};
ghost use Rattle.sixel_ppm.specs.PpmHeader.{advanced, begun, ended, ends, filled, grown, in_comment, in_digits};
ghost use Rattle.sixel_ppm.specs.PpmHeader.{in_filler, is_within, refused, step, wanted_byte};

use crate::ppm::PpmReason;
use sixel_model::MOST_SIDE;

/// The greatest length of a header, in bytes.
const MOST_BYTES: u64 = 65_536;

/// A number of the header.
#[derive(Clone, Copy, Debug, PartialEq, Eq)]
pub(crate) enum Field {
    Width,
    Height,
    Maxval,
}

/// What the next byte of a header belongs to.
#[derive(Clone, Copy, Debug, PartialEq, Eq)]
pub(crate) enum Part {
    Letter,
    Version,
    /// Filler must begin here.
    AfterVersion,
    /// The filler before a number, or its first digit.
    Filler(Field),
    Comment(Field),
    Digits(Field),
}

/// A header that isn't complete yet.
#[derive(Clone, Copy, Debug, PartialEq, Eq)]
pub(crate) struct Progress {
    pub(crate) part: Part,
    /// The offset of the next byte.
    pub(crate) place: u64,
    /// The width, once it was read.
    pub(crate) width: u32,
    /// The height, once it was read.
    pub(crate) height: u32,
    /// The number that is being read, from its digits so far. A value above all limits no longer grows.
    pub(crate) value: u32,
    /// The offset of its first digit.
    pub(crate) first: u64,
}

/// What a header says, and the offset of the first sample.
#[derive(Clone, Copy, Debug, PartialEq, Eq)]
pub(crate) struct Header {
    pub(crate) width: u32,
    pub(crate) height: u32,
    pub(crate) maxval: u8,
    pub(crate) place: u64,
}

/// The result of reading one byte of a header.
#[derive(Clone, Copy, Debug, PartialEq, Eq)]
pub(crate) enum Next {
    More(Progress),
    Whole(Header),
    Refused { reason: PpmReason, place: u64 },
}

impl Progress {
    /// A header before its first byte.
    pub(crate) fn new() -> Progress
        ensures { result ≡ begun }
    {
        Progress {
            part: Part::Letter,
            place: 0,
            width: 0,
            height: 0,
            value: 0,
            first: 0,
        }
    }

    /// Reads the next byte of the header.
    pub(crate) fn step(self, byte: u8) -> Next
        ensures { result ≡ step self byte }
    {
        if self.place >= MOST_BYTES {
            return self.refused();
        }
        match self.part {
            Part::Letter => self.wanted_byte(byte == b'P', Part::Version),
            Part::Version => self.wanted_byte(byte == b'6', Part::AfterVersion),
            Part::AfterVersion => self.in_filler(Field::Width, byte),
            Part::Filler(field) => self.filled(field, byte),
            Part::Comment(field) => self.in_comment(field, byte),
            Part::Digits(field) => self.in_digits(field, byte),
        }
    }

    /// Refuses the next byte.
    fn refused(self) -> Next
        ensures { result ≡ refused self }
    {
        Next::Refused {
            reason: PpmReason::Header,
            place: self.place,
        }
    }

    fn advanced(self, part: Part) -> Next
        requires { self.place < MOST_BYTES }
        ensures { result ≡ advanced self part }
    {
        Next::More(Progress {
            part,
            place: self.place + 1,
            ..self
        })
    }

    fn wanted_byte(self, passes: bool, part: Part) -> Next
        requires { self.place < MOST_BYTES }
        ensures { result ≡ wanted_byte self passes part }
    {
        if passes {
            self.advanced(part)
        } else {
            self.refused()
        }
    }

    fn in_filler(self, field: Field, byte: u8) -> Next
        requires { self.place < MOST_BYTES }
        ensures { result ≡ in_filler self field byte }
    {
        if is_space(byte) {
            self.advanced(Part::Filler(field))
        } else if byte == b'#' {
            self.advanced(Part::Comment(field))
        } else {
            self.refused()
        }
    }

    fn in_comment(self, field: Field, byte: u8) -> Next
        requires { self.place < MOST_BYTES }
        ensures { result ≡ in_comment self field byte }
    {
        if byte == b'\n' {
            self.advanced(Part::Filler(field))
        } else {
            self.advanced(Part::Comment(field))
        }
    }

    /// Takes filler, or the first digit of the number after it.
    fn filled(self, field: Field, byte: u8) -> Next
        requires { self.place < MOST_BYTES }
        ensures { result ≡ filled self field byte }
    {
        if is_digit(byte) {
            Next::More(Progress {
                part: Part::Digits(field),
                place: self.place + 1,
                value: grown(0, byte),
                first: self.place,
                ..self
            })
        } else {
            self.in_filler(field, byte)
        }
    }

    /// Takes a digit, or the byte after the last one.
    fn in_digits(self, field: Field, byte: u8) -> Next
        requires { self.place < MOST_BYTES }
        ensures { result ≡ in_digits self field byte }
    {
        if is_digit(byte) {
            Next::More(Progress {
                part: Part::Digits(field),
                place: self.place + 1,
                value: grown(self.value, byte),
                ..self
            })
        } else if ends(field, byte) {
            self.ended(field, byte)
        } else {
            self.refused()
        }
    }

    /// Checks a number whose digits are read. The byte after it is allowed there.
    fn ended(self, field: Field, byte: u8) -> Next
        requires { self.place < MOST_BYTES }
        ensures { result ≡ ended self field byte }
    {
        let value = self.value;
        match field {
            Field::Width if is_within(value, MOST_SIDE) => Progress {
                width: value,
                ..self
            }
            .in_filler(Field::Height, byte),
            Field::Height if is_within(value, MOST_SIDE) => Progress {
                height: value,
                ..self
            }
            .in_filler(Field::Maxval, byte),
            Field::Maxval if is_within(value, 255) => Next::Whole(Header {
                width: self.width,
                height: self.height,
                maxval: value as u8,
                place: self.place + 1,
            }),
            Field::Maxval => Next::Refused {
                reason: PpmReason::Maxval,
                place: self.first,
            },
            _ => Next::Refused {
                reason: PpmReason::Size,
                place: self.first,
            },
        }
    }
}

fn is_space(byte: u8) -> bool
    ensures { result ≡ is_space byte }
{
    byte == b' ' || byte == b'\t' || byte == b'\r' || byte == b'\n'
}

fn is_digit(byte: u8) -> bool
    ensures { result ≡ is_digit byte }
{
    byte >= b'0' && byte <= b'9'
}

/// Appends a digit. A value above all limits stays the same, so nothing overflows.
fn grown(value: u32, digit: u8) -> u32
    requires { IsTrue (is_digit digit) }
    ensures { result ≡ grown value digit }
{
    if value > MOST_SIDE {
        value
    } else {
        10 * value + (digit - b'0') as u32
    }
}

/// Whether the byte may follow the last digit. A comment may not follow the maximum.
fn ends(field: Field, byte: u8) -> bool
    ensures { result ≡ ends field byte }
{
    match field {
        Field::Maxval => is_space(byte),
        _ => is_space(byte) || byte == b'#',
    }
}

/// Whether a number is from 1 to `most`.
fn is_within(value: u32, most: u32) -> bool
    ensures { result ≡ is_within value most }
{
    value >= 1 && value <= most
}
