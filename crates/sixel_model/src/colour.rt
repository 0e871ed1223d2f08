//! Colours by their coordinates.

ghost use Rattle.std.specs.Prelude.{◌≡◌, ◌≤◌, ◌↔◌, IsSome, IfSome};
ghost use Rattle.sixel_model.specs.Colours.{IsColour, is_same};

use std::marker::Model;

/// The coordinates of a colour. `Rgb` is red, green and blue in percent. `Hls` is the hue in degrees, then lightness
/// and saturation in percent.
#[derive(Clone, Copy, Debug, PartialEq, Eq)]
pub enum Parts {
    Rgb(u8, u8, u8),
    Hls(u16, u8, u8),
}

/// A colour whose coordinates are in range: a hue is at most 360, any other coordinate at most 100.
///
/// The two colour systems are those of DEC EK-VT3XX-GP-002, Graphics Color Introducer. A colour stays in the system in
/// which it was given: an HLS colour never equals an RGB colour.
#[derive(Clone, Copy, Debug, PartialEq, Eq)]
pub struct Colour {
    parts: Parts,
}

impl Model for Colour {
    ghost use Rattle.sixel_model.specs.declared.colour.Parts.{Parts};

    ghost Value = { Parts };

    ghost use Rattle.sixel_model.specs.Colours.{IsColour};

    ghost view = { λ c. c.parts };

    ghost invariant = { λ c. IsColour c.parts };

    ghost inverse = { λ p. record { parts = p } };
}

impl Colour {
    /// The RGB colour with these percentages, or `None` if one is above 100.
    pub fn rgb(red: u8, green: u8, blue: u8) -> Option<Colour>
        ensures some { IsSome result ↔ IsColour (Parts.Rgb red green blue) }
        ensures value { IfSome result (λ c. c ≡ Parts.Rgb red green blue) }
    {
        if red <= 100 && green <= 100 && blue <= 100 {
            Some(Colour {
                parts: Parts::Rgb(red, green, blue),
            })
        } else {
            None
        }
    }

    /// The HLS colour with this hue in degrees, and lightness and saturation in percent. `None` if one is out of range.
    pub fn hls(hue: u16, lightness: u8, saturation: u8) -> Option<Colour>
        ensures some { IsSome result ↔ IsColour (Parts.Hls hue lightness saturation) }
        ensures value { IfSome result (λ c. c ≡ Parts.Hls hue lightness saturation) }
    {
        if hue <= 360 && lightness <= 100 && saturation <= 100 {
            Some(Colour {
                parts: Parts::Hls(hue, lightness, saturation),
            })
        } else {
            None
        }
    }

    /// The coordinates, in the system in which they were given.
    pub fn parts(&self) -> Parts
        ensures same { result ≡ self.now }
        ensures in_range { IsColour self.now }
    {
        self.parts
    }

    /// The RGB colour with these percentages, which must be in range.
    pub fn of_percentages(red: u8, green: u8, blue: u8) -> Colour
        requires { IsColour (Parts.Rgb red green blue) }
        ensures { result ≡ Parts.Rgb red green blue }
    {
        Colour {
            parts: Parts::Rgb(red, green, blue),
        }
    }

    /// Whether two colours are the same: the same system and the same coordinates.
    pub(crate) fn is_same(self, other: Colour) -> bool
        ensures { result ≡ is_same self other }
    {
        match (self.parts, other.parts) {
            (Parts::Rgb(red, green, blue), Parts::Rgb(r, g, b)) => red == r
                && green == g
                && blue == b,
            (Parts::Hls(hue, lightness, saturation), Parts::Hls(h, l, s)) => hue == h
                && lightness == l
                && saturation == s,
            _ => false,
        }
    }
}
