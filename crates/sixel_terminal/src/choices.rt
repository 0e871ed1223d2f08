//! The choices in which the terminals of the class differ.

/// What raster attributes do to the declared box: their width by their height, from the origin on.
#[derive(Clone, Copy, Debug, PartialEq, Eq)]
pub enum Ground {
    /// Its pixels stay as they are.
    Kept,
    /// Its pixels are painted in this register.
    Filled(u16),
}

/// The choices of one terminal. The terminals of the class differ in these.
///
/// The class is this project's own. The commands are those of DEC EK-VT3XX-GP-002, the chapter on sixel graphics.
#[derive(Clone, Copy, Debug, PartialEq, Eq)]
pub struct Choices {
    /// Whether a pixel shows the colour that its register has at the end of the string, instead of when it was painted.
    pub binds_at_showing: bool,
    /// Whether a definition of a register also selects it, even if it gives no colour.
    pub selects: bool,
    /// What raster attributes do to the declared box.
    pub ground: Ground,
    /// The register that is selected at the start.
    pub selected: u16,
    /// How many columns a repeat of 0 paints: 0 or 1.
    pub zero: u8,
    /// Whether a coordinate out of range becomes the nearest one in range. If not, its definition gives no colour.
    pub clamps: bool,
    /// The height of a sixel pixel in pixels of the screen, at least 1. It holds before any raster attributes, and
    /// after raster attributes whose ratio isn't given as 1;1 (so at 2;2, too).
    pub tall: u16,
    /// Whether a data command paints only in the box of the first raster attributes before it. Before any, nothing is
    /// clipped.
    pub clips: bool,
    /// Whether the bytes 90 and 9C are an introducer and a terminator. If not, a string that begins with 90 or ends in
    /// 9C shows nothing, not even what is between them.
    pub eight_bit: bool,
    /// The width of the screen, in pixels. The height and the origin are in pixels, too.
    pub screen_width: u32,
    pub screen_height: u32,
    /// The column of the screen where the picture begins, from 0.
    pub origin_x: u32,
    /// The row of the screen where the picture begins, from 0.
    pub origin_y: u32,
}
