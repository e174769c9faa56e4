//! Rectangles merged.

ghost use Rattle.region_cut.specs.Merged.{CoverSame, merged};
ghost use Rattle.std.specs.Prelude.{◌≡◌, ◌<◌, ◌^◌, ◌+◌, ◌*◌, IfOk, nat_le};

use crate::area::Area;
use crate::fault::CutFault;
use crate::found::maximal_blocks;
use crate::lined::Lined;
use crate::lines::{sides_across, sides_up};
use geom_core::Rect;
use std::alloc::{AllocError, Global};

// Whether to look at so many strips of so many columns, and at so many rectangles in each, is at most so much work.
fn is_allowed(strips: usize, columns: usize, count: usize, most: u64) -> bool
    requires { columns + count < 2 ^ 64 }
    ensures { result ≡ nat_le (strips * (columns + count)) most }
{
    match strips.checked_mul(columns + count) {
        Some(work) => work as u64 <= most,
        None => false,
    }
}

/// Rectangles merged: the maximal blocks of the area that they cover together, ordered by their lower, left, upper and right sides.
///
/// The lines are the different x and the different y of the sides of the rectangles, and a block has its four sides on them. A block
/// between neighbouring lines is a cell: it is covered where one of the rectangles has it in it. A block is filled where all its cells are
/// covered, and maximal where it is filled and lies in no other filled block. So rectangles that overlap, or have a part of a side in
/// common, become the largest rectangles that lie in the area of them all, each of them once; every rectangle lies in one of these. The
/// points of the rectangles, their sides included, are just those of the result.
///
/// The rectangles stay as they are where S (C + N) is above `most`, for S strips and C columns of cells and N rectangles, or where there are
/// more than 2 N maximal blocks. The one error is want of memory.
///
/// Takes O(N log N + S (C + N log C)) time: O(C + N log C) for the cells of a strip, O(C) to go over its columns, and O(1) for each block
/// that is found, which are at most 2 N + 1.
pub fn merge(alloc: Global, rects: &[Rect], most: u64) -> Result<Vec<Rect>, AllocError>
    ensures is { IfOk result (λ v. v.items ≡ merged most rects.now) }
    ensures covers { IfOk result (λ v. CoverSame rects.now v.items) }
{
    let across = sides_across(alloc, rects)?;
    let up = sides_up(alloc, rects)?;
    let lined = Lined {
        area: Area::Rects(rects),
        across: across.as_slice(),
        up: up.as_slice(),
    };
    if !is_allowed(lined.strips(), lined.columns(), rects.len(), most) {
        return rects.to_vec(alloc);
    }
    match maximal_blocks(alloc, &lined, 2 * rects.len() as u64) {
        Ok(found) => {
            let mut blocks = found.rects;
            blocks.reverse();
            Ok(blocks)
        }
        Err(CutFault::TooMany) => rects.to_vec(alloc),
        Err(CutFault::Memory) => Err(AllocError),
    }
}
