//! Planes of all kinds: painted by runs and by stretches, and without memory.

ghost use Rattle.std.specs.Prelude.{◌≡◌, ◌<◌, ◌≤◌, ◌+◌, ◌*◌, ℕ, IsTrue, length, slice_index};
ghost use Rattle.sixel_grammar.specs.Bytes.{is_data};
ghost use Rattle.std.specs.Int.{bit_at};

use sixel_model::is_set;
use sixel_plane::{BandPlane, BytePlane, Cover, CoverPlane, Plane};
use std::alloc::{AllocError, Global};
use std::test::Fail;

/// Whether the rows of the set bits are above `height`.
fn rows_fit(bits: u8, band: u32, height: u32) -> bool
    requires { band < 1000 }
    ensures { IsTrue result → (k : ℕ) → k < 6 → bit_at bits k ≡ 1 → 6 * band + k < height }
{
    for bit in 0..6 {
        if is_set(bits, bit) && 6 * band + bit >= height {
            return false;
        }
    }
    true
}

/// Paints `count` columns, if they lie in the plane. Returns whether they do.
fn paint<P: Cover>(
    plane: &mut P,
    (column, band): (u32, u32),
    count: u32,
    bits: u8,
    register: u8,
) -> bool {
    let (width, height) = (plane.width(), plane.height());
    let in_columns = column <= width && count <= width - column;
    if in_columns && bits <= 63 && band < 1000 && rows_fit(bits, band, height) {
        plane.paint_run(column, band, count, bits, register);
        return true;
    }
    false
}

/// Whether runs paint a plane of 33 by 7 pixels, and it then has these first blank pixels, until none is blank.
fn is_filled<P: Cover>(plane: &mut P) -> bool {
    if (plane.width(), plane.height()) != (33, 7) || plane.first_blank() != Some((0, 0)) {
        return false;
    }
    for (place, count, bits, register, blank) in [
        ((0, 0), 32, 63, 3, Some((32, 0))),
        ((32, 0), 1, 62, 255, Some((32, 0))),
        ((32, 0), 1, 1, 255, Some((0, 6))),
        ((0, 1), 32, 1, 4, Some((32, 6))),
        ((32, 1), 1, 1, 4, None),
    ] {
        if !paint(plane, place, count, bits, register) || plane.first_blank() != blank {
            return false;
        }
    }
    true
}

/// Whether a plane has the registers of those runs.
fn is_painted<P: Plane>(alloc: Global) -> Result<bool, AllocError> {
    let mut plane = P::blank(alloc, 33, 7)?;
    if !is_filled(&mut plane) || plane.first_blank().is_some() {
        return Ok(false);
    }
    for (index, register) in plane.into_registers().iter().enumerate() {
        let expected = if index >= 198 {
            4
        } else if index % 33 == 32 {
            255
        } else {
            3
        };
        if *register != expected {
            return Ok(false);
        }
    }
    Ok(true)
}

#[test]
fn planes_are_painted_by_runs(rt: HostRuntime) -> Result<(), Fail> {
    let alloc = rt.alloc();
    assert!(rt; is_painted::<BytePlane>(alloc)?, "bytes");
    assert!(rt; is_painted::<BandPlane>(alloc)?, "bands");
    let mut covers = CoverPlane::blank(alloc, 33, 7)?;
    assert!(rt; is_filled(&mut covers), "covers");
    Ok(())
}

/// Whether the first `count` bytes are data bytes.
fn are_sixels(bytes: &[u8], count: usize) -> bool
    requires { count ≤ length bytes.now }
    ensures { IsTrue result → (j : ℕ) → j < count → IsTrue (is_data (slice_index bytes.now j)) }
{
    for index in 0..count {
        if bytes[index] < b'?' || bytes[index] > b'~' {
            return false;
        }
    }
    true
}

/// Paints a stretch of `count` bytes in a register, in one step. Returns whether the plane could.
fn stretch<P: Cover>(plane: &mut P, column: u32, bytes: &[u8], count: u32, register: u8) -> bool {
    let width = plane.width();
    let is_inside = column <= width && count <= width - column && plane.height() >= 6;
    let count = count as usize;
    is_inside
        && count <= bytes.len()
        && are_sixels(bytes, count)
        && plane.try_paint_stretch(column, 0, bytes, count, register)
}

/// A blank column, two full ones, one with its first row, and 20 full ones.
const SIXELS: &[u8] = b"?~~@~~~~~~~~~~~~~~~~~~~~";

/// Whether a plane of 40 by 6 pixels is painted by stretches only if 16 more bytes and 16 more columns follow.
fn is_painted_with_room<P: Cover>(alloc: Global) -> Result<bool, AllocError> {
    let mut plane = P::blank(alloc, 40, 6)?;
    for (column, bytes, count, is_painted, blank) in [
        (0, &SIXELS[..19], 4, false, Some((0, 0))),
        (21, SIXELS, 4, false, Some((0, 0))),
        (0, &SIXELS[1..20], 3, true, Some((3, 0))),
        (3, &SIXELS[4..], 3, true, Some((6, 0))),
        (6, SIXELS, 4, true, Some((6, 0))),
    ] {
        if stretch(&mut plane, column, bytes, count, 7) != is_painted
            || plane.first_blank() != blank
        {
            return Ok(false);
        }
    }
    Ok(true)
}

#[test]
fn stretches_want_room_for_lanes(rt: HostRuntime) -> Result<(), Fail> {
    assert!(rt; is_painted_with_room::<BandPlane>(rt.alloc())?, "bands");
    assert!(rt; is_painted_with_room::<CoverPlane>(rt.alloc())?, "covers");
    Ok(())
}

/// Whether a new plane is blank; `None` if an allocation failed.
fn is_made_blank<P: Cover>(alloc: Global) -> Option<bool> {
    let plane = P::blank(alloc, 3, 7).ok()?;
    Some((plane.width(), plane.height(), plane.first_blank()) == (3, 7, Some((0, 0))))
}

/// `rt try --test --fail-alloc N` makes allocation N fail: 1 and 2 are those of the first plane, 3 and 4 of the second,
/// and 5 of the third. Then that plane isn't made, and the others are.
#[test]
fn a_refused_growth_is_answered(rt: HostRuntime) {
    let alloc = rt.alloc();
    let mut has_failed = false;
    for made in [
        is_made_blank::<BytePlane>(alloc),
        is_made_blank::<BandPlane>(alloc),
        is_made_blank::<CoverPlane>(alloc),
    ] {
        assert!(rt; made == Some(true) || made.is_none() && !has_failed);
        has_failed = has_failed || made.is_none();
    }
}
