//! Stretches of sixels, judged in one step.

ghost use Rattle.std.specs.Prelude.{◌≡◌, ◌<◌, ◌≤◌, ◌+◌, ◌⊎◌, ◌↔◌, ℕ, IsTrue, false, length, slice_index, true};
ghost use Rattle.sixel_grammar.specs.Bytes.{is_data};
ghost use Rattle.sixel_plane.specs.Stretches.{sixel_of, stretched_grid};
ghost use Rattle.sixel_plane.specs.Covers.{kept_by};
ghost use Rattle.sixel_judge.specs.Stretches.{AreBlank, Fits, IsPaintedIn, IsPassed, IsStretched};

use crate::notes::Notes;
use crate::outside::fits;
use sixel_model::MOST_REGISTERS;
use sixel_plane::Cover;

/// Paints the first `count` bytes of `bytes`, all of them data, in one step. Returns whether it did: only if they lie
/// in the box, a command painted in the known register before (so they break no rule), and the plane can paint them.
#[inline(always)]
fn try_paint_stretch<P: Cover>(notes: &Notes, plane: &mut P, bytes: &[u8], count: usize) -> bool
    requires sixels { (k : ℕ) → k < count → IsTrue (is_data (slice_index bytes.now k)) }
    requires bytes { count ≤ length bytes.now }
    ensures painted { result ≡ true → (register : ℕ) × IsPaintedIn notes.now register
        × Fits notes.now count (P.grid plane.old)
        × (P.grid plane.new ≡ stretched_grid (P.grid plane.old) notes.now.column notes.now.band count
        (sixel_of bytes.now count) (kept_by P.keeps register)) }
    ensures columns { result ≡ true → notes.now.column + count ≤ u32.MAX }
    ensures kept { result ≡ false → plane.new ≡ plane.old }
{
    match notes.known() {
        Some(register) if (register as usize) < MOST_REGISTERS && notes.is_painted_in(register) => {
            fits(notes, plane, count)
                && plane.try_paint_stretch(
                    notes.column as u32,
                    notes.band as u32,
                    bytes,
                    count,
                    register as u8,
                )
        }
        _ => false,
    }
}

/// Whether the first `count` bytes of `bytes` are all `?`, the sixel without a set bit.
#[inline(never)]
fn is_blank(bytes: &[u8], count: usize) -> bool
    requires { count ≤ length bytes.now }
    ensures { IsTrue result ↔ AreBlank bytes.now count }
{
    bytes[..count].iter().all(|byte| *byte == b'?')
}

/// Takes the first `count` bytes of `bytes`, all of them data, in one step. Returns whether it did: if they can be
/// painted in one step, or if all are blank. Blank sixels break no rule and paint nothing, wherever they lie and
/// whichever register is selected.
#[inline(always)]
pub(crate) fn try_take_stretch<P: Cover>(
    notes: &mut Notes,
    plane: &mut P,
    bytes: &[u8],
    count: usize,
) -> bool
    requires sixels { (k : ℕ) → k < count → IsTrue (is_data (slice_index bytes.now k)) }
    requires bytes { count ≤ length bytes.now }
    ensures taken { result ≡ true
        → IsStretched (kept_by P.keeps) bytes.now count notes.old (P.grid plane.old) notes.new (P.grid plane.new)
        ⊎ IsPassed bytes.now count notes.old (P.grid plane.old) notes.new (P.grid plane.new) }
    ensures kept { result ≡ false → (notes.new ≡ notes.old) × (plane.new ≡ plane.old) }
{
    if try_paint_stretch(notes, plane, bytes, count) {
        notes.column += count as u64;
        return true;
    }
    if is_blank(bytes, count) {
        notes.column = notes.column.saturating_add(count as u64);
        return true;
    }
    false
}
