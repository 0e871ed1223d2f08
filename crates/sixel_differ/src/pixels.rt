//! The first pixel in which two screens differ.

ghost use Rattle.std.specs.Prelude.{◌≡◌, ◌↔◌, ◌≤◌, ◌<◌, ◌*◌, ◌/◌, ◌%◌, ◌^◌, ℕ, IsTrue, length};
ghost use Rattle.std.specs.Option.{MatchOption};
ghost use Rattle.sixel_differ.specs.Pixels.{AreAlike, AreSameBelow, DifferFirstAt, IsFirstUnlike};
ghost use Rattle.sixel_differ.specs.Pixels.{is_grey, seen_in, seen_of};

use sixel_model::{Colour, Parts};
use sixel_terminal::{Pixel, Screen, are_four_same};

/// Whether a hue of this lightness and saturation is a grey. All four terminals show one grey for it, whatever the hue.
fn is_grey(lightness: u8, saturation: u8) -> bool
    ensures { result ≡ is_grey lightness saturation }
{
    saturation == 0 || lightness == 0 || lightness == 100
}

/// What is seen of a colour.
fn seen(colour: Colour) -> Parts
    ensures { result ≡ seen_of colour }
{
    match colour.parts() {
        Parts::Hls(hue, lightness, saturation) => {
            if is_grey(lightness, saturation) {
                Parts::Hls(0, lightness, 0)
            } else {
                Parts::Hls(hue, lightness, saturation)
            }
        }
        parts => parts,
    }
}

/// Whether two pixels look the same.
fn look_same(a: &Pixel, b: &Pixel) -> bool
    ensures { IsTrue result ↔ (seen_in a.now ≡ seen_in b.now) }
{
    a.is_same(b) || seen(a.colour()) == seen(b.colour())
}

/// An index below which all pixels look the same in both. From it on, fewer than four are left, or one of the next four
/// isn't the same.
fn alike_below(a: &[Pixel], b: &[Pixel]) -> usize
    requires { length a.now ≡ length b.now }
    ensures within { result ≤ length a.now }
    ensures alike { AreSameBelow a.now b.now result }
{
    let mut at = 0;
    while at + 4 <= a.len() && are_four_same(a, b, at) {
        at += 4;
    }
    at
}

/// The index of the first pixel that doesn't look the same in both, if there is one. Those below `start` do.
fn first_from(a: &[Pixel], b: &[Pixel], start: usize) -> Option<usize>
    requires long { length a.now ≡ length b.now }
    requires within { start ≤ length a.now }
    requires alike { AreSameBelow a.now b.now start }
    ensures { MatchOption result (AreSameBelow a.now b.now (length a.now)) (IsFirstUnlike a.now b.now) }
{
    for at in start..a.len() {
        if !look_same(&a[at], &b[at]) {
            return Some(at);
        }
    }
    None
}

/// The index of the first pixel that doesn't look the same in both, if there is one.
fn first_index(a: &[Pixel], b: &[Pixel]) -> Option<usize>
    requires { length a.now ≡ length b.now }
    ensures { MatchOption result (AreSameBelow a.now b.now (length a.now)) (IsFirstUnlike a.now b.now) }
{
    first_from(a, b, alike_below(a, b))
}

/// The column and the row of the pixel with this index.
fn place_of(at: usize, width: u32) -> (u32, u32)
    requires { (height : ℕ) × (height < 2 ^ 32) × (at < width * height) }
    ensures { (result.0 ≡ at % width) × (result.1 ≡ at / width) }
{
    let width = width as usize;
    ((at % width) as u32, (at / width) as u32)
}

/// The column and the row of the first pixel, row by row, in which two screens of the same sides differ. `None`: they
/// are equal at each pixel.
pub fn first_unlike(a: &Screen, b: &Screen) -> Option<(u32, u32)>
    requires width { a.now.width ≡ b.now.width }
    requires height { a.now.height ≡ b.now.height }
    requires whole { length a.now.colours ≡ a.now.width * a.now.height }
    requires whole_other { length b.now.colours ≡ b.now.width * b.now.height }
    ensures { MatchOption result (AreAlike a.now b.now) (λ pixel. DifferFirstAt a.now b.now pixel.0 pixel.1) }
{
    // It is a `u32`, so the row is one.
    let _height = a.height();
    match first_index(a.pixels(), b.pixels()) {
        None => None,
        Some(at) => Some(place_of(at, a.width())),
    }
}
