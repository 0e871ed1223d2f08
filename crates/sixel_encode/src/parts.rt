//! The text of the columns of one register, put into a block that hasn't room for all of it.

ghost use Rattle.std.specs.Prelude.{◌≡◌, ◌≢◌, ◌==◌, ◌+◌, ◌-◌, ◌<◌, ◌≤◌, length, nat_le, slice_index, true};
ghost use Rattle.sixel_io.specs.Blocks.{WritesThrough};
ghost use Rattle.sixel_plane.specs.Lanes.{NonePasses};

use crate::commands::Text;
use crate::line::MOST_BYTES;
use sixel_io::{DeviceFault, Sink};

/// Puts the text in parts: a repeat, or all single sixels before one or at the end. So the block goes out between two
/// parts.
#[inline(never)]
pub(crate) fn put_by_parts<K: Sink>(
    text: &mut Text,
    columns: &[u8],
    out: &mut K,
) -> Result<(), DeviceFault>
    requires { length columns.now ≤ MOST_BYTES }
    ensures { WritesThrough result (K.state out.old) (K.state out.new) text.old text.new columns.now }
{
    let mut from = 0;
    while from < columns.len() {
        let end = part_end(columns, from);
        text.put(&columns[from..end], out)?;
        from = end;
    }
    Ok(())
}

/// Where the part that begins at `from` ends: a repeat behind its sixel, single sixels at the next repeat.
fn part_end(columns: &[u8], from: usize) -> usize
    requires { from < length columns.now }
    ensures after { from < result }
    ensures within { result ≤ length columns.now }
    ensures digits { slice_index columns.now from ≡ 33
        → NonePasses (λ b. nat_le 63 b) (from + 1) (result - 1) columns.now }
    ensures sixel { slice_index columns.now from ≡ 33 → result < length columns.now
        → nat_le 63 (slice_index columns.now (result - 1)) ≡ true }
    ensures singles { slice_index columns.now from ≢ 33 → NonePasses (λ b. b == 33) (from + 1) result columns.now }
    ensures next { slice_index columns.now from ≢ 33 → result < length columns.now
        → slice_index columns.now result ≡ 33 }
{
    if columns[from] == b'!' {
        repeat_end(columns, from + 1)
    } else {
        singles_end(columns, from + 1)
    }
}

/// The index behind the first sixel from `from` on, or the end.
fn repeat_end(columns: &[u8], from: usize) -> usize
    requires { from ≤ length columns.now }
    ensures after { from ≤ result }
    ensures within { result ≤ length columns.now }
    ensures digits { NonePasses (λ b. nat_le 63 b) from (result - 1) columns.now }
    ensures sixel { result < length columns.now → nat_le 63 (slice_index columns.now (result - 1)) ≡ true }
{
    for index in from..columns.len() {
        if columns[index] >= b'?' {
            return index + 1;
        }
    }
    columns.len()
}

/// The index of the first repeat from `from` on, or the end.
fn singles_end(columns: &[u8], from: usize) -> usize
    requires { from ≤ length columns.now }
    ensures after { from ≤ result }
    ensures within { result ≤ length columns.now }
    ensures singles { NonePasses (λ b. b == 33) from result columns.now }
    ensures next { result < length columns.now → slice_index columns.now result ≡ 33 }
{
    for index in from..columns.len() {
        if columns[index] == b'!' {
            return index;
        }
    }
    columns.len()
}
