//! A strip of cells with what lies above and under it.

ghost use Rattle.region_cut.specs.Areas.{grid_in};
ghost use Rattle.region_cut.specs.Ceilings.{AreCeilings, AreUnder, IsLowest};
ghost use Rattle.region_cut.specs.Falls.{AreFalls};
ghost use Rattle.region_cut.specs.Grids.{columns, strips};
ghost use Rattle.std.specs.Prelude.{◌≡◌, ◌<◌, ◌+◌, ◌-◌, ◌==◌, if◌then◌else◌, slice_index};

use crate::lined::Lined;

/// A strip of the cells of an area: up to where each of its columns stays filled, from the strip on, the first column behind each that does
/// so less far up, and which cells under it are filled.
#[derive(Clone, Copy)]
pub(crate) struct Strip<'s> {
    pub(crate) lined: &'s Lined<'s>,
    pub(crate) low: usize,
    pub(crate) tops: &'s [usize],
    pub(crate) falls: &'s [usize],
    pub(crate) under: &'s [bool],
    ghost within: { low < strips (grid_in lined.now.area) },
    ghost ceilings: { AreCeilings (grid_in lined.now.area).filled (strips (grid_in lined.now.area)) (columns (grid_in lined.now.area)) low tops.now },
    ghost nexts: { AreFalls tops.now 0 falls.now },
    ghost cells: { AreUnder (grid_in lined.now.area).filled (columns (grid_in lined.now.area)) low under.now },
}

impl<'s> Strip<'s> {
    /// Up to where a column is filled, or the strip itself where the column before it is none: a block that begins behind it can grow there
    /// unless it reaches higher.
    pub(crate) fn floor(&self, left: usize) -> usize
        requires { left < columns (grid_in self.now.lined.now.area) }
        ensures { result ≡ (if left == 0 then self.now.low else slice_index self.now.tops.now (left - 1)) }
    {
        if left == 0 {
            self.low
        } else {
            self.tops[left - 1]
        }
    }

    /// The lowest of the columns from one on up to the first whose cell under the strip is not filled, from that of the columns behind it:
    /// a block that begins at `left` and cannot grow down is no higher than that one.
    pub(crate) fn lowest(&self, left: usize, behind: Option<usize>) -> Option<usize>
        requires within { left < columns (grid_in self.now.lined.now.area) }
        requires behind { IsLowest (grid_in self.now.lined.now.area).filled (columns (grid_in self.now.lined.now.area)) self.now.low self.now.tops.now (left + 1) behind }
        ensures { IsLowest (grid_in self.now.lined.now.area).filled (columns (grid_in self.now.lined.now.area)) self.now.low self.now.tops.now left result }
    {
        if !self.under[left] {
            return Some(left);
        }
        let Some(column) = behind else {
            return None;
        };
        if self.tops[column] < self.tops[left] {
            Some(column)
        } else {
            Some(left)
        }
    }
}
