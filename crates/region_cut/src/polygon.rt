//! The maximal blocks of a polygon.

ghost use Rattle.region_cut.specs.Cells.{grid_of};
ghost use Rattle.region_cut.specs.Maximal.{Fill, maximal};
ghost use Rattle.region_cut.specs.declared.fault.CutFault.TheVariants.{TooMany};
ghost use Rattle.std.specs.Prelude.{◌≡◌, ◌<◌, ◌≤◌, Err, IfOk, length};

use crate::area::Area;
use crate::fault::CutFault;
use crate::found::maximal_blocks;
use crate::lined::Lined;
use crate::lines::{lines_across, lines_up};
use geom_core::{Corner, Rect};
use std::alloc::Global;

/// The maximal blocks of a closed path, ordered by their lower, left, upper and right sides, in the units of the path.
///
/// The lines of a path are the different x and the different y of its corners, and a block has its four sides on them. A block between
/// neighbouring lines is a cell: it is filled where an odd number of the path's vertical edges, at or left of its left side, span it.
/// A block is filled where all its cells are, and maximal where it is filled and lies in no other filled block. So paths that cross or
/// touch themselves are filled by the even-odd rule, and a path of no area, such as the empty one, has no rectangle.
///
/// `TooMany` exactly where there are more than `most` maximal blocks; else the one fault is want of memory. Takes O(S C E + B) time for
/// S strips and C columns of cells, E edges and B blocks that are found, which are at most `most` + 1: it is meant for at most 2,000
/// corners.
pub fn cut(alloc: Global, path: &[Corner], most: u64) -> Result<Vec<Rect>, CutFault>
    ensures is { IfOk result (λ rects. rects.items ≡ maximal path.now) }
    ensures fill { IfOk result (λ rects. Fill (grid_of path.now) rects.items) }
    ensures few { IfOk result (λ rects. length rects.items ≤ most) }
    ensures many { result ≡ Err TooMany → most < length (maximal path.now) }
{
    let across = lines_across(alloc, path)?;
    let up = lines_up(alloc, path)?;
    let lined = Lined {
        area: Area::Path(path),
        across: across.as_slice(),
        up: up.as_slice(),
    };
    let mut rects = maximal_blocks(alloc, &lined, most)?.rects;
    rects.reverse();
    Ok(rects)
}
