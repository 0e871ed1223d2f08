//! Colours as definitions give them, in range or not.

ghost use Rattle.std.specs.Prelude.{◌≡◌};
ghost use Rattle.sixel_emulator_rules.specs.Notes.{is_same, shade_in};

/// The coordinates that a definition gives, in range or not.
#[derive(Clone, Copy, Debug, PartialEq, Eq)]
pub enum Shade {
    Rgb(u16, u16, u16),
    Hls(u16, u16, u16),
}

/// The colour that a definition gives. There are two colour systems.
#[inline(always)]
pub(crate) fn shade_in(system: u16, x: u16, y: u16, z: u16) -> Option<Shade>
    ensures { result ≡ shade_in system x y z }
{
    match system {
        1 => Some(Shade::Hls(x, y, z)),
        2 => Some(Shade::Rgb(x, y, z)),
        _ => None,
    }
}

/// Whether two registers have the same colour, or both none.
#[inline(always)]
pub(crate) fn is_same(one: Option<Shade>, other: Option<Shade>) -> bool
    ensures { result ≡ is_same one other }
{
    match (one, other) {
        (None, None) => true,
        (Some(Shade::Rgb(x, y, z)), Some(Shade::Rgb(u, v, w))) => x == u && y == v && z == w,
        (Some(Shade::Hls(x, y, z)), Some(Shade::Hls(u, v, w))) => x == u && y == v && z == w,
        _ => false,
    }
}
