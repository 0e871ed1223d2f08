//! A plane of pixels, each blank or painted in a register.

ghost use Rattle.std.specs.Prelude.{◌≡◌, ◌<◌, Some, map, true};
ghost use Rattle.sixel_model.specs.Grids.{IsFull, cell};

use crate::cover::Cover;

/// What is painted of a box, and in which registers.
pub trait Plane: Cover {
    /// The register of the pixel in column `x` and row `y`, both from 0 at the top left, or `None` if it is blank.
    fn register_at(&self, x: u32, y: u32) -> Option<u8>
        requires inside_x { x < (Self.grid self.now).width }
        requires inside_y { y < (Self.grid self.now).height }
        ensures { result ≡ cell (Self.grid self.now) x y };

    /// The registers of all pixels, row by row. No pixel may be blank.
    fn into_registers(self) -> Vec<u8>
        requires { IsFull (Self.grid self) }
        ensures { map Some result.items ≡ (Self.grid self).cells };

    /// The grid has the registers that paint.
    ghost keeps_registers: { Self.keeps ≡ true };
}
