//! The maximal blocks of an area, the last one first.

ghost use Rattle.region_cut.specs.Areas.{grid_in};
ghost use Rattle.region_cut.specs.Ceilings.{AreCeilings, AreUnder, IsLowest};
ghost use Rattle.region_cut.specs.Grids.{columns, extent_of, strips};
ghost use Rattle.region_cut.specs.Maximal.{corner_rects, rects_from, strip_rects};
ghost use Rattle.region_cut.specs.declared.fault.CutFault.TheVariants.{TooMany};
ghost use Rattle.std.specs.Prelude.{◌≡◌, ◌<◌, ◌≤◌, ◌+◌, ◌++◌, ◌&&◌, ◌∷◌, [], ℕ, false, Err, IfOk, OnOk, if◌then◌else◌, length, nat_lt, reverse, slice_index, slice_index_or, true};

use crate::falls::falls;
use crate::fault::CutFault;
use crate::lined::Lined;
use crate::strip::Strip;
use geom_core::Rect;
use std::alloc::{AllocError, Global};

// The blocks found so far, which are at most so many.
#[derive(Drop)]
pub(crate) struct Found {
    pub(crate) rects: Vec<Rect>,
    pub(crate) most: u64,
    ghost few: { length rects.items ≤ most },
}

impl Found {
    // One block more.
    fn add(&mut self, rect: Rect) -> Result<(), CutFault>
        ensures added { OnOk result (self.new.rects.items ≡ self.old.rects.items ++ rect ∷ []) }
        ensures most { self.new.most ≡ self.old.most }
        ensures many { result ≡ Err TooMany → self.old.most ≤ length self.old.rects.items }
    {
        if self.rects.len() as u64 >= self.most {
            return Err(CutFault::TooMany);
        }
        self.rects.push(rect)?;
        Ok(())
    }

    // The maximal blocks with one lower left corner, the highest first: each has an upper side at which a column ends, and goes right up to
    // the next that ends lower. Those at or under the floor can grow to the left.
    fn add_corner(
        &mut self,
        strip: &Strip,
        left: usize,
        lowest: Option<usize>,
    ) -> Result<(), CutFault>
        requires within { left < columns (grid_in strip.now.lined.now.area) }
        requires lowest { IsLowest (grid_in strip.now.lined.now.area).filled (columns (grid_in strip.now.lined.now.area)) strip.now.low strip.now.tops.now left lowest }
        ensures added { OnOk result (self.new.rects.items ≡ self.old.rects.items ++ reverse (corner_rects (grid_in strip.now.lined.now.area) strip.now.low left)) }
        ensures most { self.new.most ≡ self.old.most }
        ensures many { result ≡ Err TooMany → self.old.most < length self.old.rects.items + length (corner_rects (grid_in strip.now.lined.now.area) strip.now.low left) }
    {
        let Some(first) = lowest else {
            return Ok(());
        };
        let floor = strip.floor(left);
        let mut column = first;
        while column < strip.tops.len() && strip.tops[column] > floor {
            let next = strip.falls[column];
            let rect = strip.lined.rect(strip.low, left, strip.tops[column], next);
            self.add(rect)?;
            column = next;
        }
        Ok(())
    }

    // The maximal blocks with their lower side on one line, from right to left.
    fn add_strip(&mut self, strip: &Strip) -> Result<(), CutFault>
        ensures added { OnOk result (self.new.rects.items ≡ self.old.rects.items ++ reverse (strip_rects (grid_in strip.now.lined.now.area) strip.now.low 0)) }
        ensures most { self.new.most ≡ self.old.most }
        ensures many { result ≡ Err TooMany → self.old.most < length self.old.rects.items + length (strip_rects (grid_in strip.now.lined.now.area) strip.now.low 0) }
    {
        let mut left = strip.tops.len();
        let mut lowest = None;
        while left > 0 {
            left -= 1;
            lowest = strip.lowest(left, lowest);
            self.add_corner(strip, left, lowest)?;
        }
        Ok(())
    }
}

// Goes down to a strip: columns whose cells are filled there stay filled up to where they were, and others end there.
fn lower(tops: &mut [usize], cells: &[bool], strip: usize)
    requires { length tops.old ≡ length cells.now }
    ensures long { length tops.new ≡ length tops.old }
    ensures lowered { (column : ℕ) → column < length tops.old → slice_index tops.new column ≡ (if slice_index_or cells.now column false then slice_index tops.old column else strip) }
{
    for column in 0..cells.len() {
        if !cells[column] {
            tops[column] = strip;
        }
    }
}

/// The maximal blocks of an area, from the highest lower side on and from right to left, the highest first. Takes O(C) time for each
/// strip of C columns, besides what it takes to find its cells, and O(1) for each block.
pub(crate) fn maximal_blocks(alloc: Global, lined: &Lined, most: u64) -> Result<Found, CutFault>
    ensures found { IfOk result (λ found. found.rects.items ≡ reverse (rects_from (grid_in lined.now.area) 0)) }
    ensures most { IfOk result (λ found. found.most ≡ most) }
    ensures many { result ≡ Err TooMany → most < length (rects_from (grid_in lined.now.area) 0) }
{
    let mut found = Found {
        rects: Vec::new(alloc),
        most,
    };
    let mut low = lined.strips();
    let mut tops = vec![in alloc; low; lined.columns()]?;
    let mut cells = lined.cells_under(alloc, low)?;
    while low > 0 {
        low -= 1;
        lower(&mut tops, &cells, low);
        cells = lined.cells_under(alloc, low)?;
        let falls = falls(alloc, &tops)?;
        let strip = Strip {
            lined: &*lined,
            low,
            tops: tops.as_slice(),
            falls: falls.as_slice(),
            under: cells.as_slice(),
        };
        found.add_strip(&strip)?;
    }
    Ok(found)
}
