//! An area with its lines: the rectangles of its blocks, and which of its cells are filled.

ghost use Rattle.region_cut.specs.Areas.{grid_in};
ghost use Rattle.region_cut.specs.Blocks.{IsBlock};
ghost use Rattle.region_cut.specs.Ceilings.{AreUnder};
ghost use Rattle.region_cut.specs.Grids.{columns, extent_of, strips};
ghost use Rattle.std.specs.Prelude.{◌≡◌, ◌≤◌, IfOk};

use crate::area::Area;
use crate::edges::flip_all;
use crate::heights::Heights;
use crate::marks::{mark_reached, right_ends};
use geom_core::Rect;
use std::alloc::{AllocError, Global};

/// An area with its lines.
#[derive(Clone, Copy)]
pub(crate) struct Lined<'a> {
    pub(crate) area: Area<'a>,
    pub(crate) across: &'a [i64],
    pub(crate) up: &'a [i64],
    ghost crossed: { across.now ≡ (grid_in area).across },
    ghost raised: { up.now ≡ (grid_in area).up },
}

impl<'a> Lined<'a> {
    /// How many columns of cells the area has.
    pub(crate) fn columns(&self) -> usize
        ensures { result ≡ columns (grid_in self.now.area) }
    {
        self.across.len().saturating_sub(1)
    }

    /// How many strips of cells it has.
    pub(crate) fn strips(&self) -> usize
        ensures { result ≡ strips (grid_in self.now.area) }
    {
        self.up.len().saturating_sub(1)
    }

    /// The rectangle of a block.
    pub(crate) fn rect(&self, low: usize, left: usize, high: usize, right: usize) -> Rect
        requires { IsBlock (strips (grid_in self.now.area)) (columns (grid_in self.now.area)) (record { low = low; left = left; high = high; right = right }) }
        ensures { result ≡ extent_of (grid_in self.now.area) (record { low = low; left = left; high = high; right = right }) }
    {
        Rect {
            x0: self.across[left],
            y0: self.up[low],
            x1: self.across[right],
            y1: self.up[high],
        }
    }

    /// Which cells of the strip under a line are filled, by column: none under the lowest line.
    pub(crate) fn cells_under(&self, alloc: Global, strip: usize) -> Result<Vec<bool>, AllocError>
        requires { strip ≤ strips (grid_in self.now.area) }
        ensures { IfOk result (λ cells. AreUnder (grid_in self.now.area).filled (columns (grid_in self.now.area)) strip cells.items) }
    {
        let mut cells = vec![in alloc; false; self.columns()]?;
        if strip == 0 {
            return Ok(cells);
        }
        let heights = Heights {
            low: self.up[strip - 1],
            high: self.up[strip],
        };
        match self.area {
            Area::Path(path) => flip_all(self.across, &mut cells, &heights, path),
            Area::Rects(rects) => {
                let ends = right_ends(alloc, self.across, &heights, rects)?;
                mark_reached(self.across, &mut cells, &ends);
            }
        }
        Ok(cells)
    }
}
