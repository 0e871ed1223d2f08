//! Spaces behind the terminator of a string.

ghost use Rattle.std.specs.Prelude.{◌≡◌, ◌==◌, ◌<◌, ◌+◌, ◌++◌, ◌^◌, [], ℕ, List, None, Some, cond, length};
ghost use Rattle.std.specs.Option.{option_map};
ghost use Rattle.sixel_grammar.specs.Bytes.{is_filler as filler_test};
ghost use Rattle.sixel_emulator_check.specs.Trailer.{HasSeenSpaces, IsFillerFrom, IsFirstSpace, space_count};

/// Whether a byte is filler.
#[inline(always)]
fn is_filler(byte: u8) -> bool
    ensures { result ≡ filler_test byte }
{
    matches!(byte, b'\t' | b'\n' | b'\r' | b' ')
}

/// The index from which on there is nothing but filler. It begins at the end, and looks no further.
#[inline(always)]
fn filler_from(bytes: &[u8]) -> usize
    ensures { IsFillerFrom bytes.now result }
{
    for back in 0..bytes.len() {
        let at = bytes.len() - 1 - back;
        if !is_filler(bytes[at]) {
            return at + 1;
        }
    }
    0
}

/// The index of the first space with nothing but filler behind it, if that begins at `from`.
fn first_space(bytes: &[u8], from: usize) -> Option<usize>
    requires { IsFillerFrom bytes.now from }
    ensures { IsFirstSpace bytes.now result }
{
    for at in from..bytes.len() {
        if bytes[at] == b' ' {
            return Some(at);
        }
    }
    None
}

/// One or none.
fn how_many(is: bool) -> usize
    ensures { result ≡ cond is 1 0 }
{
    if is { 1 } else { 0 }
}

/// How many such spaces there are.
fn count_spaces(bytes: &[u8], from: usize) -> usize
    requires { IsFillerFrom bytes.now from }
    ensures { result ≡ space_count bytes.now }
{
    let mut count = 0;
    for at in from..bytes.len() {
        count += how_many(bytes[at] == b' ');
    }
    count
}

/// The offset of the byte with this index among bytes of which so many came before.
fn offset_of(read: u64, index: Option<usize>) -> Option<u64>
    requires { (n : ℕ) → index ≡ Some n → read + n < 2 ^ 64 }
    ensures { result ≡ option_map (λ (n : ℕ). read + n) index }
{
    match index {
        Some(index) => Some(read + index as u64),
        None => None,
    }
}

/// Finds the spaces of a string that nothing but filler comes after, while its bytes come.
#[derive(Clone, Copy, Debug, PartialEq, Eq)]
pub struct TrailingSpaces {
    /// How many bytes came.
    read: u64,
    /// The offset of the first space among the filler with which they end.
    first: Option<u64>,
    /// How many spaces are among it.
    count: u64,
}

impl TrailingSpaces {
    /// No byte has come.
    pub fn new() -> TrailingSpaces
        ensures { HasSeenSpaces result [] }
    {
        TrailingSpaces {
            read: 0,
            first: None,
            count: 0,
        }
    }

    /// The offset of the first such space, among the bytes that came.
    pub fn first(&self) -> Option<u64>
        ensures { (bytes : List ℕ) → HasSeenSpaces self.now bytes → IsFirstSpace bytes result }
    {
        self.first
    }

    /// How many such spaces are among the bytes that came.
    pub fn count(&self) -> u64
        ensures { (bytes : List ℕ) → HasSeenSpaces self.now bytes → result ≡ space_count bytes }
    {
        self.count
    }

    /// The spaces still count if the next bytes are only filler.
    #[inline(always)]
    fn kept(self, only_filler: bool) -> TrailingSpaces
        ensures { result ≡ cond only_filler self (record self { first = None; count = 0 }) }
    {
        if only_filler {
            self
        } else {
            TrailingSpaces {
                first: None,
                count: 0,
                ..self
            }
        }
    }

    /// Looks at the bytes that come next.
    #[inline(always)]
    pub fn look(&mut self, bytes: &[u8])
        requires seen { (before : List ℕ) × HasSeenSpaces self.old before }
        requires room { self.old.read + length bytes.now < 2 ^ 64 }
        ensures { (before : List ℕ) → HasSeenSpaces self.old before → HasSeenSpaces self.new (before ++ bytes.now) }
    {
        let from = filler_from(bytes);
        let kept = self.kept(from == 0);
        self.first = kept
            .first
            .or(offset_of(self.read, first_space(bytes, from)));
        self.count = kept.count + count_spaces(bytes, from) as u64;
        self.read += bytes.len() as u64;
    }
}
