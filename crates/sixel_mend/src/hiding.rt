//! Counts the painted pixels that look like those that aren't painted.

ghost use Rattle.std.specs.Prelude.{◌≡◌, ◌≢◌, ◌<◌, ◌^◌, List, MatchOption, Option, count_by, false, length, map, slice_get};
ghost use Rattle.sixel_model.specs.declared.colour.Parts.{Parts};
ghost use Rattle.sixel_model.specs.Colours.{is_same};
ghost use Rattle.sixel_terminal.specs.Screens.{IsAllFixed, IsFixed, colour_in_ink};
ghost use Rattle.sixel_mend.specs.Marking.{over};
ghost use Rattle.sixel_mend.specs.Painted.{hidden_among};

use sixel_terminal::Pixel;

/// The index of the first pixel in which these screens differ.
fn first_difference(one: &[Pixel], other: &[Pixel]) -> Option<usize>
    requires { length one.now ≡ length other.now }
    ensures { MatchOption result (one.now ≡ other.now)
        (λ at. (at < length one.now) × (slice_get one.now at ≢ slice_get other.now at)) }
{
    for at in 0..one.len() {
        if !one[at].is_same(&other[at]) {
            return Some(at);
        }
    }
    None
}

/// How many of these pixels show the same as this one.
fn count_same(pixels: &[Pixel], pixel: &Pixel) -> u32
    requires few { length pixels.now < 2 ^ 32 }
    requires colours { IsAllFixed pixels.now }
    requires colour { IsFixed pixel.now }
    ensures { result ≡ count_by (is_same (colour_in_ink pixel.now)) (map colour_in_ink pixels.now) }
{
    let mut count = 0;
    for other in pixels {
        if other.is_same(pixel) {
            count += 1;
        }
    }
    count
}

/// How many painted pixels look like those that aren't painted, from a screen over a mark and the same one over the
/// background. They differ where nothing is painted.
pub(crate) fn hidden_between(marked: &[Pixel], shown: &[Pixel]) -> u32
    requires few { length marked.now < 2 ^ 32 }
    requires whole { length marked.now ≡ length shown.now }
    requires marked { IsAllFixed marked.now }
    requires shown { IsAllFixed shown.now }
    ensures { (mark background : Parts) (painted : List (Option Parts)) → is_same mark background ≡ false
        → map colour_in_ink marked.now ≡ over mark painted → map colour_in_ink shown.now ≡ over background painted
        → result ≡ hidden_among background painted }
{
    match first_difference(marked, shown) {
        Some(at) => count_same(marked, &shown[at]),
        None => 0,
    }
}
