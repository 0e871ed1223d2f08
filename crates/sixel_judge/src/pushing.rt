//! Pushing stretches of sixels.

ghost use Rattle.std.specs.Prelude.{◌<◌, ◌+◌, ◌≤◌, ℕ, IsOk, IsTrue, length, slice_index, take};
ghost use Rattle.sixel_grammar.specs.Bytes.{is_data};
ghost use Rattle.sixel_grammar.specs.Document.{most_bytes};
ghost use Rattle.sixel_grammar.specs.Stretches.{sixels_from};
ghost use Rattle.sixel_judge.specs.Stretches.{MayTakeSixels, TakesSixels};

use crate::checker::Checker;
use sixel_grammar::{Command, Event, Placed};
use sixel_plane::{Cover, LANES};
use std::alloc::AllocError;

/// Pushes the first `count` bytes of `bytes`, all of them data, as sixels; the first has the offset `place`. It
/// allocates nothing, and is always `Ok`.
#[inline(always)]
pub(crate) fn push_stretch<P: Cover>(
    checker: &mut Checker<P>,
    place: u64,
    bytes: &[u8],
    count: usize,
) -> Result<(), AllocError>
    requires stands { MayTakeSixels checker.old }
    requires sixels { (k : ℕ) → k < count → IsTrue (is_data (slice_index bytes.now k)) }
    requires bytes { (0 < count) × (count ≤ length bytes.now) }
    requires place { place + count ≤ most_bytes }
    ensures kept { TakesSixels checker.old checker.new (sixels_from place (take count bytes.now)) }
    ensures always { IsOk result }
{
    if checker.try_push_stretch(bytes, count) {
        return Ok(());
    }
    push_after_first(checker, place, bytes, count)
}

/// As `push_stretch`, with the first sixel by itself: the others can be taken in one step only after a command painted
/// in their register.
#[inline(never)]
fn push_after_first<P: Cover>(
    checker: &mut Checker<P>,
    place: u64,
    bytes: &[u8],
    count: usize,
) -> Result<(), AllocError>
    requires stands { MayTakeSixels checker.old }
    requires sixels { (k : ℕ) → k < count → IsTrue (is_data (slice_index bytes.now k)) }
    requires bytes { (0 < count) × (count ≤ length bytes.now) }
    requires place { place + count ≤ most_bytes }
    ensures kept { TakesSixels checker.old checker.new (sixels_from place (take count bytes.now)) }
    ensures always { IsOk result }
{
    push_each(checker, place, &bytes[..1])?;
    let rest = &bytes[1..];
    if checker.try_push_stretch(rest, count - 1) {
        return Ok(());
    }
    push_at_end(checker, place + 1, &rest[..count - 1])
}

/// As `push_stretch`. Where too few bytes follow for a plane, as at the end of a piece, all but its last `LANES`
/// sixels may be taken in one step, with these behind them.
#[inline(never)]
fn push_at_end<P: Cover>(
    checker: &mut Checker<P>,
    place: u64,
    stretch: &[u8],
) -> Result<(), AllocError>
    requires stands { MayTakeSixels checker.old }
    requires sixels { (k : ℕ) → k < length stretch.now → IsTrue (is_data (slice_index stretch.now k)) }
    requires place { place + length stretch.now ≤ most_bytes }
    ensures kept { TakesSixels checker.old checker.new (sixels_from place stretch.now) }
    ensures always { IsOk result }
{
    if stretch.len() <= LANES {
        return push_each(checker, place, stretch);
    }
    let most = stretch.len() - LANES;
    if checker.try_push_stretch(stretch, most) {
        return push_each(checker, place + most as u64, &stretch[most..]);
    }
    push_each(checker, place, stretch)
}

/// As `push_stretch`, sixel by sixel.
#[inline(never)]
fn push_each<P: Cover>(
    checker: &mut Checker<P>,
    place: u64,
    stretch: &[u8],
) -> Result<(), AllocError>
    requires stands { MayTakeSixels checker.old }
    requires sixels { (k : ℕ) → k < length stretch.now → IsTrue (is_data (slice_index stretch.now k)) }
    requires place { place + length stretch.now ≤ most_bytes }
    ensures kept { TakesSixels checker.old checker.new (sixels_from place stretch.now) }
    ensures always { IsOk result }
{
    for (index, byte) in stretch.iter().enumerate() {
        let place = place + index as u64;
        let event = Event::Step(Command::Sixel(byte - b'?'));
        checker.push(&Placed { place, event })?;
    }
    Ok(())
}
