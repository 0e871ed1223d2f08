//! The rules that make a picture portable.

/// A rule of a portable picture. Each variant says what breaks it.
///
/// The box is the one that the first raster attributes declare. A sixel or a repeat paints if at least one of its bits
/// is set. A register is known at a command if the last select before it names the register, and so does the last
/// select or definition before it.
#[derive(Clone, Copy, Debug, PartialEq, Eq, Drop)]
pub enum Rule {
    /// A sixel, a repeat, a carriage return, a next line or the terminator before any raster attributes.
    RasterFirst = 1,
    /// Raster attributes after raster attributes.
    RasterTwice = 2,
    /// Raster attributes whose pixel aspect ratio isn't written as 1 to 1 (2 to 2 breaks this rule too).
    Ratio = 3,
    /// Raster attributes with a width or a height outside 1 to 2,048 pixels.
    BoxSize = 4,
    /// A select or a definition of a register that the profile doesn't have: one above 15, or above 255.
    Register = 5,
    /// A definition with an unknown colour system, or with a coordinate out of range.
    ColourValue = 6,
    /// A repeat of 0.
    RepeatZero = 7,
    /// A command that paints while no register is known.
    Unselected = 8,
    /// A command that paints in a register without a definition before it.
    Undefined = 9,
    /// A definition of a register that a command has painted in and that was defined before, unless it repeats the
    /// register's last definition.
    Redefined = 10,
    /// A command that paints a pixel outside the box.
    Outside = 11,
    /// The terminator, while some pixel of the box is unpainted.
    Uncovered = 12,
    /// An 8-bit control: the byte 90 (hexadecimal) as the introducer, or 9C as the terminator.
    EightBit = 13,
}

/// How many rules there are.
pub const RULE_COUNT: usize = 13;

/// The rules, in order of number.
pub const ALL_RULES: [Rule; RULE_COUNT] = [
    Rule::RasterFirst,
    Rule::RasterTwice,
    Rule::Ratio,
    Rule::BoxSize,
    Rule::Register,
    Rule::ColourValue,
    Rule::RepeatZero,
    Rule::Unselected,
    Rule::Undefined,
    Rule::Redefined,
    Rule::Outside,
    Rule::Uncovered,
    Rule::EightBit,
];
