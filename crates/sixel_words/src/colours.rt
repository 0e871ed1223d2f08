//! Colours as the command line gives them.

ghost use Rattle.std.specs.Prelude.{◌≡◌, ◌∷◌, ◌<◌, ◌≤◌, [], ℕ, IfSome, IsNone};
ghost use Rattle.std.specs.Char.{digit_value};
ghost use Rattle.sixel_model.specs.declared.colour.Parts.{Parts};
ghost use Rattle.sixel_ppm.specs.PpmReading.{percent};
ghost use Rattle.sixel_words.specs.Words.{ArePercentages, AreSamples, AreShortSamples, IsColourText, IsPercentage};
ghost use Rattle.sixel_words.specs.Words.{IsSample, basic_colour};

use crate::show_words::is_called;
use sixel_model::Colour;

/// The percentage that a text is.
fn percentage_of(text: &str) -> Option<u8>
    ensures some { IfSome result (IsPercentage text.now) }
    ensures none { IsNone result → (n : ℕ) → IsPercentage text.now n → ⊥ }
{
    if text.len() > 3 || text.starts_with('+') {
        return None;
    }
    match text.parse::<u8>() {
        Ok(number) if number <= 100 => Some(number),
        _ => None,
    }
}

/// The colour that a text such as `100,0,50` is: red, green and blue in percent.
fn colour_of_percentages(text: &str) -> Option<Colour>
    ensures some { IfSome result (ArePercentages text.now) }
    ensures none { IsNone result → (colour : Parts) → ArePercentages text.now colour → ⊥ }
{
    let (red, rest) = text.split_once(',')?;
    let (green, blue) = rest.split_once(',')?;
    Colour::rgb(
        percentage_of(red)?,
        percentage_of(green)?,
        percentage_of(blue)?,
    )
}

/// The value of a hexadecimal digit.
fn digit_of(byte: u8) -> Option<u8>
    ensures some { IfSome result (λ n. (digit_value byte ≡ n) × (n < 16)) }
    ensures none { IsNone result → 16 ≤ digit_value byte }
{
    match (byte as char).to_digit(16) {
        Some(digit) => Some(digit as u8),
        None => None,
    }
}

/// The percentage that is nearest to a sample, which is two hexadecimal digits.
fn percent_of(high: u8, low: u8) -> Option<u8>
    ensures some { IfSome result (λ n. (sample : ℕ) × IsSample (high ∷ low ∷ []) sample × (percent 255 sample ≡ n)) }
    ensures in_range { IfSome result (λ n. n ≤ 100) }
    ensures none { IsNone result → (sample : ℕ) → IsSample (high ∷ low ∷ []) sample → ⊥ }
{
    let sample = 16 * digit_of(high)? + digit_of(low)?;
    let share = (200 * sample as u32 + 255) / 510;
    Some(share as u8)
}

/// The colour with the samples that these digits are, two for each of red, green and blue.
fn colour_of_digits(a: u8, b: u8, c: u8, d: u8, e: u8, f: u8) -> Option<Colour>
    ensures some { IfSome result (AreSamples (35 ∷ a ∷ b ∷ c ∷ d ∷ e ∷ f ∷ [])) }
    ensures none { IsNone result → (colour : Parts) → AreSamples (35 ∷ a ∷ b ∷ c ∷ d ∷ e ∷ f ∷ []) colour → ⊥ }
{
    let red = percent_of(a, b)?;
    let green = percent_of(c, d)?;
    let blue = percent_of(e, f)?;
    Some(Colour::of_percentages(red, green, blue))
}

/// The colour that a text such as `#ff0080` is: the samples of red, green and blue.
fn colour_of_samples(text: &str) -> Option<Colour>
    ensures some { IfSome result (AreSamples text.now) }
    ensures none { IsNone result → (colour : Parts) → AreSamples text.now colour → ⊥ }
{
    match text.as_bytes() {
        [b'#', a, b, c, d, e, f] => colour_of_digits(*a, *b, *c, *d, *e, *f),
        _ => None,
    }
}

/// The colour that a text such as `#f08` is: samples of which each digit counts twice.
fn colour_of_short_samples(text: &str) -> Option<Colour>
    ensures some { IfSome result (AreShortSamples text.now) }
    ensures none { IsNone result → (colour : Parts) → AreShortSamples text.now colour → ⊥ }
{
    match text.as_bytes() {
        [b'#', red, green, blue] => colour_of_digits(*red, *red, *green, *green, *blue, *blue),
        _ => None,
    }
}

/// The basic colour of CSS with this name, in any case of letters.
fn colour_named(text: &str) -> Option<Colour>
    ensures { result ≡ basic_colour text.now }
{
    if is_called(text, "black") {
        Some(Colour::of_percentages(0, 0, 0))
    } else if is_called(text, "silver") {
        Some(Colour::of_percentages(75, 75, 75))
    } else if is_called(text, "gray") {
        Some(Colour::of_percentages(50, 50, 50))
    } else if is_called(text, "white") {
        Some(Colour::of_percentages(100, 100, 100))
    } else if is_called(text, "maroon") {
        Some(Colour::of_percentages(50, 0, 0))
    } else if is_called(text, "red") {
        Some(Colour::of_percentages(100, 0, 0))
    } else if is_called(text, "purple") {
        Some(Colour::of_percentages(50, 0, 50))
    } else if is_called(text, "fuchsia") {
        Some(Colour::of_percentages(100, 0, 100))
    } else if is_called(text, "green") {
        Some(Colour::of_percentages(0, 50, 0))
    } else if is_called(text, "lime") {
        Some(Colour::of_percentages(0, 100, 0))
    } else if is_called(text, "olive") {
        Some(Colour::of_percentages(50, 50, 0))
    } else if is_called(text, "yellow") {
        Some(Colour::of_percentages(100, 100, 0))
    } else if is_called(text, "navy") {
        Some(Colour::of_percentages(0, 0, 50))
    } else if is_called(text, "blue") {
        Some(Colour::of_percentages(0, 0, 100))
    } else if is_called(text, "teal") {
        Some(Colour::of_percentages(0, 50, 50))
    } else if is_called(text, "aqua") {
        Some(Colour::of_percentages(0, 100, 100))
    } else {
        None
    }
}

/// The colour that a text is: three percentages, `#` and three samples, or a name.
pub fn colour_of(text: &str) -> Option<Colour>
    ensures some { IfSome result (IsColourText text.now) }
    ensures none { IsNone result → (colour : Parts) → IsColourText text.now colour → ⊥ }
{
    if let Some(colour) = colour_named(text) {
        return Some(colour);
    }
    if let Some(colour) = colour_of_samples(text) {
        return Some(colour);
    }
    match colour_of_short_samples(text) {
        Some(colour) => Some(colour),
        None => colour_of_percentages(text),
    }
}
