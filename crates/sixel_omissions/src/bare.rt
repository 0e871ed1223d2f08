//! Selects that name no register.

ghost use Rattle.std.specs.Prelude.{◌≡◌, ◌<◌, ◌≤◌, ◌+◌, ◌++◌, ◌∷◌, ◌^◌, ◌==◌, ◌&&◌, [], ℕ, List, Some, cond, false, length, not};
ghost use Rattle.std.specs.Option.{option_map};
ghost use Rattle.sixel_omissions.specs.Omissions.{is_bare_at, is_numeric as numeric_test, IsFirstBare, bare_count};
ghost use Rattle.sixel_omissions.specs.Seen.{HasSeenBare, left_bare, one_if, opened};

/// Whether a byte may stand in the numbers of a command. All of it is worked out, so that the loops below have no branch,
/// and take 16 bytes at once.
#[inline(always)]
pub(crate) fn is_numeric(byte: u8) -> bool
    ensures { result ≡ numeric_test byte }
{
    ((b'0' <= byte) & (byte <= b'9')) | (byte == b';')
}

/// Whether the two bytes are a select without a number: its `#`, and what is behind it.
#[inline(always)]
fn is_bare(sign: u8, behind: u8) -> bool
    ensures { result ≡ ((sign == 35) && not (numeric_test behind)) }
{
    (sign == b'#') & !is_numeric(behind)
}

/// Whether there is a select without a number: its `#`, and the byte behind it. It looks at all bytes, which is faster
/// than to end at the first one.
fn has_bare(bytes: &[u8]) -> bool
    ensures { result ≡ false → (i : ℕ) → is_bare_at bytes.now i ≡ false }
{
    let mut has = false;
    for at in 1..bytes.len() {
        has |= is_bare(bytes[at - 1], bytes[at]);
    }
    has
}

/// The index of the first select without a number.
fn first_bare(bytes: &[u8]) -> Option<usize>
    ensures { IsFirstBare bytes.now result }
{
    for at in 1..bytes.len() {
        if is_bare(bytes[at - 1], bytes[at]) {
            return Some(at - 1);
        }
    }
    None
}

/// One or none.
fn how_many(is: bool) -> usize
    ensures { result ≡ cond is 1 0 }
{
    if is { 1 } else { 0 }
}

/// How many selects without a number there are.
fn count_bare(bytes: &[u8]) -> usize
    ensures { result ≡ bare_count bytes.now }
{
    let mut count = 0;
    for at in 1..bytes.len() {
        count += how_many(is_bare(bytes[at - 1], bytes[at]));
    }
    count
}

/// The selects without a number among some bytes.
#[derive(Clone, Copy, Debug)]
struct Found {
    count: usize,
    /// The index of the first one.
    first: Option<usize>,
}

/// Finds the selects without a number.
fn find_bare(bytes: &[u8]) -> Found
    ensures count { result.count ≡ bare_count bytes.now }
    ensures first { IsFirstBare bytes.now result.first }
{
    if has_bare(bytes) {
        Found {
            count: count_bare(bytes),
            first: first_bare(bytes),
        }
    } else {
        Found {
            count: 0,
            first: None,
        }
    }
}

/// The offset of the `#` behind which the byte leaves no number.
#[inline(always)]
fn left_bare(sign: Option<u64>, byte: u8) -> Option<u64>
    ensures { result ≡ left_bare sign byte }
{
    if is_numeric(byte) { None } else { sign }
}

/// One if there is an offset.
fn one_if(place: Option<u64>) -> u64
    ensures { result ≡ one_if place }
{
    match place {
        None => 0,
        Some(_) => 1,
    }
}

/// The offset of the byte, if it is a `#`.
#[inline(always)]
fn opened(place: u64, byte: u8) -> Option<u64>
    ensures { result ≡ opened place byte }
{
    if byte == b'#' { Some(place) } else { None }
}

/// The offset of the byte with this index among bytes of which so many came before.
fn offset_of(read: u64, index: Option<usize>) -> Option<u64>
    requires { (n : ℕ) → index ≡ Some n → read + n < 2 ^ 64 }
    ensures { result ≡ option_map (λ (n : ℕ). read + n) index }
{
    match index {
        Some(index) => Some(read + index as u64),
        None => None,
    }
}

/// Finds the selects of a string that name no register, while its bytes come.
#[derive(Clone, Copy, Debug, PartialEq, Eq)]
pub struct BareSelects {
    /// How many bytes came.
    read: u64,
    /// The offset of the last one, if it is a `#`.
    sign: Option<u64>,
    /// The offset of the first select without a number.
    first: Option<u64>,
    /// How many there are.
    count: u64,
}

impl BareSelects {
    /// No byte has come.
    pub fn new() -> BareSelects
        ensures { HasSeenBare result [] }
    {
        BareSelects {
            read: 0,
            sign: None,
            first: None,
            count: 0,
        }
    }

    /// The offset of the first select without a number, among the bytes that came.
    pub fn first(&self) -> Option<u64>
        ensures { (bytes : List ℕ) → HasSeenBare self.now bytes → IsFirstBare bytes result }
    {
        self.first
    }

    /// How many selects without a number are among the bytes that came.
    pub fn count(&self) -> u64
        ensures { (bytes : List ℕ) → HasSeenBare self.now bytes → result ≡ bare_count bytes }
    {
        self.count
    }

    /// Looks at the bytes that come next.
    pub fn look(&mut self, bytes: &[u8])
        requires seen { (before : List ℕ) × HasSeenBare self.old before }
        requires room { self.old.read + length bytes.now < 2 ^ 64 }
        ensures { (before : List ℕ) → HasSeenBare self.old before → HasSeenBare self.new (before ++ bytes.now) }
    {
        if bytes.is_empty() {
            return;
        }
        let left = left_bare(self.sign, bytes[0]);
        let found = find_bare(bytes);
        self.first = self.first.or(left).or(offset_of(self.read, found.first));
        self.count += one_if(left) + found.count as u64;
        self.sign = opened(self.read + (bytes.len() - 1) as u64, bytes[bytes.len() - 1]);
        self.read += bytes.len() as u64;
    }
}
