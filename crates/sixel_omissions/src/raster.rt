//! What is written of the first raster attributes of a string.

ghost use Rattle.std.specs.Prelude.{◌≡◌, ◌<◌, ◌≤◌, ◌+◌, ◌++◌, ◌∷◌, ◌^◌, [], ℕ, List, false, length, true};
ghost use Rattle.sixel_omissions.specs.Omissions.{is_numeric as numeric_test};
ghost use Rattle.sixel_omissions.specs.Rasters.{AreNumeric, HasNoSign, HasRead, HasSeenRaster, IsFirstSign, IsSeen};
ghost use Rattle.sixel_omissions.specs.Rasters.{first_raster, has_four, has_two, written_of};

use crate::bare::is_numeric;

/// What is written of raster attributes.
#[derive(Clone, Copy, Debug, PartialEq, Eq)]
pub struct WrittenRaster {
    /// The offset of their `"`.
    pub place: u64,
    /// How many `;` there are.
    separators: u64,
    /// Whether the last byte is a digit.
    ends_with_digit: bool,
}

impl WrittenRaster {
    /// No byte has come behind the `"` at this offset.
    fn begin(place: u64) -> WrittenRaster
        ensures { result ≡ written_of place [] }
    {
        WrittenRaster {
            place,
            separators: 0,
            ends_with_digit: false,
        }
    }

    /// One byte of numbers more.
    fn with(self, byte: u8) -> WrittenRaster
        requires room { self.separators + 1 < 2 ^ 64 }
        requires numeric { numeric_test byte ≡ true }
        ensures written { (place : ℕ) (numbers : List ℕ) → self ≡ written_of place numbers
            → result ≡ written_of place (numbers ++ byte ∷ []) }
        ensures few { result.separators ≤ self.separators + 1 }
    {
        if byte == b';' {
            WrittenRaster {
                place: self.place,
                separators: self.separators + 1,
                ends_with_digit: false,
            }
        } else {
            WrittenRaster {
                place: self.place,
                separators: self.separators,
                ends_with_digit: true,
            }
        }
    }

    /// Whether there are two numbers, of which the last may be missing.
    pub fn has_two(self) -> bool
        ensures { result ≡ has_two self }
    {
        self.separators == 1
    }

    /// Whether there are four numbers. A `;` at the end has none behind it.
    pub fn has_four(self) -> bool
        ensures { result ≡ has_four self }
    {
        self.separators == 3 && self.ends_with_digit
    }
}

/// What was seen so far.
#[derive(Clone, Copy, Debug, PartialEq, Eq)]
enum Seen {
    Nothing,
    /// Raster attributes that the next byte may go on with.
    Open(WrittenRaster),
    Complete(WrittenRaster),
}

/// Whether there is a `"`. It looks at all bytes, and has no branch, so that it takes 16 at once.
fn has_sign(bytes: &[u8]) -> bool
    ensures { result ≡ false → HasNoSign bytes.now }
{
    let mut has = false;
    for at in 0..bytes.len() {
        has |= bytes[at] == b'"';
    }
    has
}

/// The index of the first `"`.
fn find_sign(bytes: &[u8]) -> Option<usize>
    ensures { IsFirstSign bytes.now result }
{
    for at in 0..bytes.len() {
        if bytes[at] == b'"' {
            return Some(at);
        }
    }
    None
}

/// The same, and fast if there is none.
fn first_sign(bytes: &[u8]) -> Option<usize>
    ensures { IsFirstSign bytes.now result }
{
    if has_sign(bytes) {
        find_sign(bytes)
    } else {
        None
    }
}

/// Reads raster attributes on.
fn read_numbers(raster: WrittenRaster, bytes: &[u8]) -> Seen
    requires { raster.separators + length bytes.now < 2 ^ 64 }
    ensures { (place : ℕ) (numbers : List ℕ) → AreNumeric numbers → raster ≡ written_of place numbers
        → HasRead place (numbers ++ bytes.now) result }
{
    let mut raster = raster;
    for at in 0..bytes.len() {
        if !is_numeric(bytes[at]) {
            return Seen::Complete(raster);
        }
        raster = raster.with(bytes[at]);
    }
    Seen::Open(raster)
}

/// Finds the first raster attributes, behind so many bytes.
fn find(read: u64, bytes: &[u8]) -> Seen
    requires { read + length bytes.now < 2 ^ 64 }
    ensures { (before : List ℕ) → read ≡ length before → HasNoSign before → IsSeen (before ++ bytes.now) result }
{
    match first_sign(bytes) {
        None => Seen::Nothing,
        Some(at) => read_numbers(WrittenRaster::begin(read + at as u64), &bytes[at + 1..]),
    }
}

/// Finds what is written of the first raster attributes of a string, while its bytes come.
#[derive(Clone, Copy, Debug, PartialEq, Eq)]
pub struct FirstRaster {
    /// How many bytes came.
    read: u64,
    seen: Seen,
}

impl FirstRaster {
    /// No byte has come.
    pub fn new() -> FirstRaster
        ensures { HasSeenRaster result [] }
    {
        FirstRaster {
            read: 0,
            seen: Seen::Nothing,
        }
    }

    /// The first raster attributes among the bytes that came, if a byte behind their numbers came.
    pub fn written(&self) -> Option<WrittenRaster>
        ensures { (bytes : List ℕ) → HasSeenRaster self.now bytes → result ≡ first_raster bytes }
    {
        match self.seen {
            Seen::Complete(raster) => Some(raster),
            Seen::Nothing | Seen::Open(_) => None,
        }
    }

    /// What is seen with the bytes that come next.
    fn seen_with(&self, bytes: &[u8]) -> Seen
        requires seen { (before : List ℕ) × HasSeenRaster self.now before }
        requires room { self.now.read + length bytes.now < 2 ^ 64 }
        ensures { (before : List ℕ) → HasSeenRaster self.now before → IsSeen (before ++ bytes.now) result }
    {
        match self.seen {
            Seen::Complete(raster) => Seen::Complete(raster),
            Seen::Open(raster) => read_numbers(raster, bytes),
            Seen::Nothing => find(self.read, bytes),
        }
    }

    /// Looks at the bytes that come next.
    pub fn look(&mut self, bytes: &[u8])
        requires seen { (before : List ℕ) × HasSeenRaster self.old before }
        requires room { self.old.read + length bytes.now < 2 ^ 64 }
        ensures { (before : List ℕ) → HasSeenRaster self.old before → HasSeenRaster self.new (before ++ bytes.now) }
    {
        self.seen = self.seen_with(bytes);
        self.read += bytes.len() as u64;
    }
}
