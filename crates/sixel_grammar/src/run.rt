//! Finds columns at the beginning of a piece, perhaps after a select.

ghost use Rattle.std.specs.Prelude.{◌≡◌, ◌≢◌, ◌<◌, ◌≤◌, ◌+◌, IfSome, IsNone, IsSome, IsTrue, false, true, length};
ghost use Rattle.std.specs.Prelude.{slice_index, ℕ};
ghost use Rattle.sixel_grammar.specs.Bytes.{is_data as data_test, is_digit as digit_test};
ghost use Rattle.sixel_grammar.specs.Next.{with_digit as digit_after};
ghost use Rattle.sixel_grammar.specs.Runs.{EndsNoRepeat, ReadsColumns, ReadsNumber, ReadsSelect};
ghost use Rattle.sixel_grammar.specs.declared.command.Columns.TheVariants.{Missing as no_columns};
ghost use Rattle.sixel_grammar.specs.declared.command.Columns.TheVariants.{Sixels as single_sixels};

use crate::command::Columns;
use crate::pending::is_data;
use crate::stretch::data_bytes_in;

/// A number in a piece, and the index after its digits.
#[derive(Clone, Copy)]
struct Digits {
    value: u16,
    end: usize,
}

/// The register of a select that a piece begins with, and the index after it; if there is none, 0.
#[derive(Clone, Copy)]
pub(crate) struct Start {
    pub register: Option<u16>,
    pub end: usize,
}

/// Columns in a piece, and the index after them.
#[derive(Clone, Copy)]
pub(crate) struct Found {
    pub columns: Columns,
    pub end: usize,
}

/// The select that the piece begins with, if any. It is open still: what follows decides whether it ends.
#[inline(always)]
pub(crate) fn select_in(piece: &[u8]) -> Start
    ensures within { result.end ≤ length piece.now }
    ensures some { IsSome result.register → 0 < result.end }
    ensures none { IsNone result.register → (result.end ≡ 0) × (0 < length piece.now → slice_index piece.now 0 ≢ 35) }
    ensures leads { ReadsSelect piece.now result.end result.register }
{
    if piece.is_empty() || piece[0] != b'#' {
        return Start {
            register: None,
            end: 0,
        };
    }
    let digits = digits_in(piece, 1);
    Start {
        register: Some(digits.value),
        end: digits.end,
    }
}

/// The single sixels or the repeat at this index of the piece.
#[inline(always)]
pub(crate) fn columns_in(piece: &[u8], from: usize) -> Option<Found>
    requires { from ≤ length piece.now }
    ensures within { IfSome result (λ found. (from < found.end) × (found.end ≤ length piece.now)) }
    ensures sixels { IfSome result (λ found. found.columns ≡ single_sixels → (k : ℕ) → from ≤ k → k < found.end
        → IsTrue (data_test (slice_index piece.now k))) }
    ensures leads { IfSome result (λ found. ReadsColumns piece.now from found.end found.columns) }
    ensures seen { IfSome result (λ found. found.columns ≢ no_columns) }
    ensures longest { IfSome result (λ found. found.columns ≡ single_sixels → found.end < length piece.now
        → data_test (slice_index piece.now found.end) ≡ false) }
    ensures refused { IsNone result → from < length piece.now → (data_test (slice_index piece.now from) ≡ false)
        × (slice_index piece.now from ≡ 33 → EndsNoRepeat piece.now from) }
{
    if from < piece.len() && piece[from] == b'!' {
        return repeat_in(piece, from);
    }
    let count = data_bytes_in(&piece[from..]);
    if count == 0 {
        return None;
    }
    Some(Found {
        columns: Columns::Sixels,
        end: from + count,
    })
}

/// The repeat whose introducer has this index in the piece, if it ends there.
#[inline(always)]
fn repeat_in(piece: &[u8], from: usize) -> Option<Found>
    requires some { from < length piece.now }
    requires sign { slice_index piece.now from ≡ 33 }
    ensures within { IfSome result (λ found. (from < found.end) × (found.end ≤ length piece.now)) }
    ensures sixels { IfSome result (λ found. found.columns ≡ single_sixels → (k : ℕ) → from ≤ k → k < found.end
        → IsTrue (data_test (slice_index piece.now k))) }
    ensures leads { IfSome result (λ found. ReadsColumns piece.now from found.end found.columns) }
    ensures seen { IfSome result (λ found. found.columns ≢ no_columns) }
    ensures repeat { IfSome result (λ found. found.columns ≢ single_sixels) }
    ensures refused { IsNone result → EndsNoRepeat piece.now from }
{
    let digits = digits_in(piece, from + 1);
    if digits.end == piece.len() || !is_data(piece[digits.end]) {
        return None;
    }
    Some(Found {
        columns: Columns::Repeat {
            count: digits.value,
            bits: piece[digits.end] - b'?',
        },
        end: digits.end + 1,
    })
}

/// The digits at this index of the piece, perhaps none: as many as make a number of at most 65,535.
#[inline(always)]
fn digits_in(piece: &[u8], from: usize) -> Digits
    requires { from ≤ length piece.now }
    ensures within { (from ≤ result.end) × (result.end ≤ length piece.now) }
    ensures reads { ReadsNumber piece.now from result.end result.value }
    ensures stops { result.end < length piece.now → digit_test (slice_index piece.now result.end) ≡ true
        → 65535 < digit_after result.value (slice_index piece.now result.end) }
{
    let mut value = 0;
    let mut end = from;
    while end < piece.len() {
        match with_digit(value, piece[end]) {
            Some(next) => value = next,
            None => return Digits { value, end },
        }
        end += 1;
    }
    Digits { value, end }
}

/// The number with the byte appended, if the byte is a digit and the number stays at most 65,535.
#[inline(always)]
fn with_digit(number: u16, byte: u8) -> Option<u16>
    ensures digit { IfSome result (λ next. IsTrue (digit_test byte)) }
    ensures value { IfSome result (λ next. next ≡ digit_after number byte) }
    ensures small { IfSome result (λ next. next ≤ 65535) }
    ensures none { IsNone result → digit_test byte ≡ true → 65535 < digit_after number byte }
{
    if !byte.is_ascii_digit() {
        return None;
    }
    let next = u32::from(number) * 10 + u32::from(byte - b'0');
    if next <= 65535 {
        Some(next as u16)
    } else {
        None
    }
}
