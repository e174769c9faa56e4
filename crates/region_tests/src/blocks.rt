//! Blocks, and whether a path is cut into them.

use geom_core::{Corner, Rect};
use region_cut::{CutFault, cut};
use std::alloc::Global;

/// A block, by its sides.
#[derive(Clone, Copy, PartialEq, Eq)]
pub(crate) struct Block {
    pub(crate) low: i64,
    pub(crate) left: i64,
    pub(crate) high: i64,
    pub(crate) right: i64,
}

/// Whether a rectangle has these sides.
fn is_at(rect: &Rect, block: &Block) -> bool {
    rect.y0 == block.low && rect.x0 == block.left && rect.y1 == block.high && rect.x1 == block.right
}

/// Whether rectangles are these blocks, in order.
pub(crate) fn are_at(rects: &[Rect], blocks: &[Block]) -> bool {
    for (rect, block) in rects.iter().zip(blocks) {
        if !is_at(rect, block) {
            return false;
        }
    }
    rects.len() == blocks.len()
}

/// Whether more than so many maximal blocks are refused.
fn is_refused(alloc: Global, path: &[Corner], most: usize) -> bool {
    matches!(&cut(alloc, path, most as u64), Err(CutFault::TooMany))
}

/// Whether a path gives these blocks where as many are asked for, and is refused where one fewer is.
pub(crate) fn is_cut_into(
    alloc: Global,
    path: &[Corner],
    blocks: &[Block],
) -> Result<bool, CutFault> {
    let rects = cut(alloc, path, blocks.len() as u64)?;
    let refused = match blocks.len().checked_sub(1) {
        Some(fewer) => is_refused(alloc, path, fewer),
        None => true,
    };
    Ok(refused && are_at(rects.as_slice(), blocks))
}
