//! A plane with one byte for each column of each band, which says which rows are painted.

ghost use Rattle.std.specs.Prelude.{◌≡◌, ◌+◌, false};

use crate::cover::Cover;
use crate::coverage::{cover_run, first_unpainted, is_covered};
use crate::lanes::zeros;
use crate::stretch::{LANES, cover_groups};
use sixel_model::BAND_ROWS;
use std::alloc::{AllocError, Global};
use std::marker::Model;

/// The painted pixels of a box, without their registers: one coverage byte for each column of each band. Its bits say
/// which of the six rows are painted.
///
/// It paints runs, and looks for a blank pixel, many columns at a time. It takes a seventh of the memory of a
/// `BandPlane`.
#[derive(Debug, Drop)]
pub struct CoverPlane {
    width: u32,
    height: u32,
    coverage: Vec<u8>,
}

impl Model for CoverPlane {
    ghost use Rattle.sixel_model.specs.Grids.{Grid};

    ghost Value = { Grid };

    ghost use Rattle.sixel_plane.specs.CoverPlanes.{grid_of_cover, AreCovers};

    ghost view = { λ p. grid_of_cover p.width p.height p.coverage.items };

    ghost invariant = { λ p. AreCovers p.width p.height p.coverage.items };
}

impl Cover for CoverPlane {
    ghost grid = { λ p. p };

    ghost keeps = { false };

    fn blank(alloc: Global, width: u32, height: u32) -> Result<CoverPlane, AllocError> {
        let coverage = zeros(alloc, (width * height.div_ceil(BAND_ROWS)) as usize)?;
        Ok(CoverPlane {
            width,
            height,
            coverage,
        })
    }

    fn width(&self) -> u32 {
        self.width
    }

    fn height(&self) -> u32 {
        self.height
    }

    fn paint_run(&mut self, column: u32, band: u32, count: u32, bits: u8, _register: u8) {
        let start = band as usize * self.width as usize + column as usize;
        cover_run(&mut self.coverage, start, count as usize, bits);
    }

    #[inline(always)]
    fn try_paint_stretch(
        &mut self,
        column: u32,
        band: u32,
        bytes: &[u8],
        count: usize,
        _register: u8,
    ) -> bool {
        let covered = band as usize * self.width as usize + column as usize;
        if bytes.len() < count + LANES || self.coverage.len() < covered + count + LANES {
            return false;
        }
        cover_groups(&mut self.coverage, covered, bytes, count);
        true
    }

    fn is_blank(&self, x: u32, y: u32) -> bool {
        !is_covered(&self.coverage, self.width, x, y)
    }

    fn first_blank(&self) -> Option<(u32, u32)> {
        first_unpainted(&self.coverage, self.width, self.height)
    }
}
