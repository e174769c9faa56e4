//! The maximal blocks of paths on a small grid by a plain count: of all blocks, those that are filled and lie in no other filled one.

use crate::blocks::Block;
use geom_core::Corner;
use std::alloc::{AllocError, Global};

/// A coordinate of the grid: the last digit of a number in the system of base 4.
pub(crate) fn digit(n: u32) -> i64 {
    i64::from(n % 4)
}

/// The block of four digits: as these ascend, so do the lower, left, upper and right sides.
fn block_of(n: u32) -> Block {
    Block {
        low: digit(n / 64),
        left: digit(n / 16),
        high: digit(n / 4),
        right: digit(n),
    }
}

/// Whether a corner of the path has this x.
fn has_x(path: &[Corner], x: i64) -> bool {
    for corner in path {
        if corner.x == x {
            return true;
        }
    }
    false
}

/// Whether a corner of the path has this y.
fn has_y(path: &[Corner], y: i64) -> bool {
    for corner in path {
        if corner.y == y {
            return true;
        }
    }
    false
}

/// Whether all sides lie on lines of the path.
fn is_lined(path: &[Corner], block: &Block) -> bool {
    has_y(path, block.low)
        && has_x(path, block.left)
        && has_y(path, block.high)
        && has_x(path, block.right)
}

/// Whether a step is a vertical edge beside the unit square that begins at x and y, to its left.
fn is_edge(from: &Corner, to: &Corner, x: i64, y: i64) -> bool {
    from.x == to.x && from.x <= x && from.y.min(to.y) <= y && y < from.y.max(to.y)
}

/// Whether an odd number of edges stands left of a unit square.
fn is_odd(path: &[Corner], x: i64, y: i64) -> bool {
    let Some(mut here) = path.last() else {
        return false;
    };
    let mut odd = false;
    for next in path {
        if is_edge(here, next, x, y) {
            odd = !odd;
        }
        here = next;
    }
    odd
}

/// Whether all unit squares of a block are filled.
fn is_filled(path: &[Corner], block: &Block) -> bool {
    for y in block.low..block.high {
        for x in block.left..block.right {
            if !is_odd(path, x, y) {
                return false;
            }
        }
    }
    true
}

/// Whether a block has an area, lies on lines and is filled.
fn is_filled_block(path: &[Corner], block: &Block) -> bool {
    block.low < block.high
        && block.left < block.right
        && is_lined(path, block)
        && is_filled(path, block)
}

/// The filled blocks among these first, by their digits.
fn filled_blocks(alloc: Global, path: &[Corner], count: u32) -> Result<Vec<Block>, AllocError> {
    let mut blocks = Vec::new(alloc);
    for n in 0..count {
        let block = block_of(n);
        if is_filled_block(path, &block) {
            blocks.push(block)?;
        }
    }
    Ok(blocks)
}

/// Whether a block lies in another one.
fn lies_in(inner: &Block, outer: &Block) -> bool {
    outer.low <= inner.low
        && outer.left <= inner.left
        && inner.high <= outer.high
        && inner.right <= outer.right
}

/// Whether a block lies in another one of these.
fn lies_in_another(block: &Block, others: &[Block]) -> bool {
    for other in others {
        if other != block && lies_in(block, other) {
            return true;
        }
    }
    false
}

/// Those blocks of these that lie in no other.
fn outer_blocks(alloc: Global, blocks: &[Block]) -> Result<Vec<Block>, AllocError> {
    let mut outer = Vec::new(alloc);
    for block in blocks {
        if !lies_in_another(block, blocks) {
            outer.push(*block)?;
        }
    }
    Ok(outer)
}

/// The maximal blocks of a path whose coordinates are 0, 1, 2 and 3.
pub(crate) fn plain_blocks(alloc: Global, path: &[Corner]) -> Result<Vec<Block>, AllocError> {
    let filled = filled_blocks(alloc, path, 256)?;
    outer_blocks(alloc, filled.as_slice())
}
