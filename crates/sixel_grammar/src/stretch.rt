//! Counts the data bytes at the beginning of a piece.

ghost use Rattle.std.specs.Prelude.{◌≡◌, ◌<◌, ◌≤◌, ◌+◌, ◌-◌, length};
ghost use Rattle.sixel_grammar.specs.Stretches.{CountsDataBytes};

use std::simd::prelude::*;

/// How many bytes are tested at once.
const LANES: usize = 16;

/// How many data bytes the piece begins with.
#[inline(always)]
pub(crate) fn data_bytes_in(piece: &[u8]) -> usize
    ensures { CountsDataBytes piece.now 0 (length piece.now) result }
{
    // Every command but a sixel begins below `?`, so a piece that begins there needs no lanes.
    if piece.is_empty() || piece[0] < b'?' {
        return 0;
    }
    let groups = piece.len() / LANES;
    for group in 0..groups {
        let data_bytes = data_bytes_in_group(piece, group * LANES);
        if data_bytes < LANES {
            return group * LANES + data_bytes;
        }
    }
    groups * LANES + data_bytes_in_rest(piece, groups * LANES)
}

/// How many data bytes the group begins with.
#[inline(always)]
fn data_bytes_in_group(piece: &[u8], from: usize) -> usize
    requires { from + LANES ≤ length piece.now }
    ensures { CountsDataBytes piece.now from LANES result }
{
    let sixels = u8x16::from_slice(&piece[from..]) - u8x16::splat(b'?');
    let others = sixels.simd_ge(u8x16::splat(64)).to_bitmask();
    if others == 0 {
        LANES
    } else {
        others.trailing_zeros() as usize
    }
}

/// How many data bytes the rest of the piece begins with, after the whole groups.
#[inline(never)]
fn data_bytes_in_rest(piece: &[u8], from: usize) -> usize
    requires { from ≤ length piece.now }
    ensures { CountsDataBytes piece.now from (length piece.now - from) result }
{
    for index in from..piece.len() {
        if piece[index].wrapping_sub(b'?') >= 64 {
            return index - from;
        }
    }
    piece.len() - from
}
