//! Where the next data command paints, and in which register.

ghost use Rattle.std.specs.Prelude.{◌≡◌, ◌+◌, Some, min};
ghost use Rattle.std.specs.Option.{option_or};
ghost use Rattle.sixel_terminal.specs.Steps.{most};

/// The sides of a declared box, in pixels.
#[derive(Clone, Copy, Debug)]
pub(crate) struct Sides {
    pub width: u16,
    pub height: u16,
}

/// The state before a command. Column and band stop at `u32::MAX`, which is off the screen of every `Terminal`.
#[derive(Clone, Copy, Debug)]
pub(crate) struct Pen {
    pub column: u32,
    /// The band: a line of six sixel pixels.
    pub band: u32,
    /// The height of a sixel pixel, in pixels of the screen.
    pub height: u16,
    /// The box of the first raster attributes.
    pub declared: Option<Sides>,
    /// The selected register.
    pub selected: u16,
}

impl Pen {
    /// Moves to the right by `columns` columns.
    #[inline(always)]
    pub(crate) fn moved(self, columns: usize) -> Pen
        ensures { result ≡ record self { column = min (self.column + columns) most } }
    {
        let column = (self.column as usize).saturating_add(columns);
        Pen {
            column: column.min(u32::MAX as usize) as u32,
            ..self
        }
    }

    /// Moves to the left margin of a band.
    pub(crate) fn at_margin(self, band: u32) -> Pen
        ensures { result ≡ record self { column = 0; band = band } }
    {
        Pen {
            column: 0,
            band,
            ..self
        }
    }

    /// Applies raster attributes: this height of a sixel pixel, and this box if it is the first.
    pub(crate) fn in_box(self, height: u16, sides: Sides) -> Pen
        ensures { result ≡ record self {
          height = height;
          declared = option_or self.declared (Some sides);
        } }
    {
        Pen {
            height,
            declared: self.declared.or(Some(sides)),
            ..self
        }
    }

    /// The pen if the first raster attributes had declared this box.
    pub(crate) fn after_box(self, sides: Sides) -> Pen
        ensures { result ≡ record self { declared = Some sides } }
    {
        Pen {
            declared: Some(sides),
            ..self
        }
    }

    pub(crate) fn with_selected(self, selected: u16) -> Pen
        ensures { result ≡ record self { selected = selected } }
    {
        Pen { selected, ..self }
    }
}
