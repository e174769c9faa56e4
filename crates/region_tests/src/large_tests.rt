//! Paths of 2,000 points and stairs of 2,000 rectangles, whose maximal blocks are told by formulas, and paths that reach as far as a layout
//! may.

use crate::blocks::{Block, are_at, is_cut_into};
use geom_core::{Corner, Rect};
use region_cut::merge;
use std::alloc::{AllocError, Global};
use std::test::Fail;

fn corner(x: i64, y: i64) -> Corner {
    Corner { x, y }
}

fn corner_at(x: u32, y: u32) -> Corner {
    corner(i64::from(x), i64::from(y))
}

fn block_at(low: u32, left: u32, high: u32, right: u32) -> Block {
    Block {
        low: i64::from(low),
        left: i64::from(left),
        high: i64::from(high),
        right: i64::from(right),
    }
}

/// Teeth two high, one wide and one apart, on a back one high.
fn comb(alloc: Global, teeth: u16) -> Result<Vec<Corner>, AllocError> {
    let mut path = Vec::new(alloc);
    for tooth in 0..teeth {
        let left = 2 * u32::from(tooth);
        let from = if tooth == 0 { 0 } else { 1 };
        let to = if tooth + 1 == teeth { 0 } else { 1 };
        path.push(corner_at(left, from))?;
        path.push(corner_at(left, 2))?;
        path.push(corner_at(left + 1, 2))?;
        path.push(corner_at(left + 1, to))?;
    }
    Ok(path)
}

/// The back of a comb of these teeth, which ends at `right`, and the teeth.
fn comb_blocks(alloc: Global, teeth: u16, right: u32) -> Result<Vec<Block>, AllocError> {
    let mut blocks = Vec::new(alloc);
    blocks.push(block_at(0, 0, 1, right))?;
    for tooth in 0..teeth {
        let left = 2 * u32::from(tooth);
        blocks.push(block_at(0, left, 2, left + 1))?;
    }
    Ok(blocks)
}

#[test]
fn a_comb(rt: HostRuntime) -> Result<(), Fail> {
    let path = comb(rt.alloc(), 500)?;
    let blocks = comb_blocks(rt.alloc(), 500, 999)?;
    assert!(rt; path.len() == 2_000 && blocks.len() == 501);
    assert!(rt; is_cut_into(rt.alloc(), path.as_slice(), blocks.as_slice())?);
    Ok(())
}

/// A number, or the same below 0.
fn signed(n: u16, below: bool) -> i64 {
    if below {
        0 - i64::from(n)
    } else {
        i64::from(n)
    }
}

/// Stairs of so many steps from the right up to the middle and down to the left, or, turned by half, from the left down to the middle and up to the right. Each
/// step is one high and one wide.
fn put_stairs(path: &mut Vec<Corner>, steps: u16, turned: bool) -> Result<(), AllocError> {
    for i in 0..steps {
        let x = signed(steps - i, turned);
        let y = signed(i + 1, turned);
        path.push(corner(x, y))?;
        path.push(corner(signed(steps - i - 1, turned), y))?;
    }
    for i in 0..steps {
        let x = signed(i + 1, !turned);
        path.push(corner(x, signed(steps - i, turned)))?;
        path.push(corner(x, signed(steps - i - 1, turned)))?;
    }
    Ok(())
}

/// The blocks of stairs in all four directions: the higher one is, the narrower it is.
fn stair_blocks(alloc: Global, steps: u16) -> Result<Vec<Block>, AllocError> {
    let mut blocks = Vec::new(alloc);
    for i in 0..steps {
        blocks.push(Block {
            low: signed(steps - i, true),
            left: signed(i + 1, true),
            high: signed(steps - i, false),
            right: signed(i + 1, false),
        })?;
    }
    Ok(blocks)
}

#[test]
fn stairs_in_four_directions(rt: HostRuntime) -> Result<(), Fail> {
    let mut path = Vec::new(rt.alloc());
    put_stairs(&mut path, 250, false)?;
    put_stairs(&mut path, 250, true)?;
    let blocks = stair_blocks(rt.alloc(), 250)?;
    assert!(rt; path.len() == 2_000 && blocks.len() == 250);
    assert!(rt; is_cut_into(rt.alloc(), path.as_slice(), blocks.as_slice())?);
    Ok(())
}

/// Stairs up the lower right of a square and down its upper left, so many steps each. The two other corners are written twice.
fn facing_stairs(alloc: Global, steps: u16) -> Result<Vec<Corner>, AllocError> {
    let mut path = Vec::new(alloc);
    let side = u32::from(steps);
    for i in 0..steps {
        let x = side + 1 + u32::from(i);
        path.push(corner_at(x, u32::from(i)))?;
        path.push(corner_at(x, u32::from(i) + 1))?;
    }
    path.push(corner_at(2 * side, 2 * side))?;
    path.push(corner_at(2 * side, 2 * side))?;
    for i in 0..steps {
        let x = u32::from(steps - i - 1);
        path.push(corner_at(x, side + 1 + x))?;
        path.push(corner_at(x, side + x))?;
    }
    path.push(corner(0, 0))?;
    path.push(corner(0, 0))?;
    Ok(path)
}

/// The blocks from a step of the lower stairs to each of the upper ones.
fn put_facing(blocks: &mut Vec<Block>, steps: u16, low: u16) -> Result<(), AllocError> {
    let side = u32::from(steps);
    for i in 0..steps {
        let left = u32::from(i);
        blocks.push(block_at(
            u32::from(low),
            left,
            side + 1 + left,
            side + 1 + u32::from(low),
        ))?;
    }
    Ok(())
}

fn facing_blocks(alloc: Global, steps: u16) -> Result<Vec<Block>, AllocError> {
    let mut blocks = Vec::new(alloc);
    for low in 0..steps {
        put_facing(&mut blocks, steps, low)?;
    }
    Ok(blocks)
}

#[test]
fn stairs_that_face_stairs(rt: HostRuntime) -> Result<(), Fail> {
    let path = facing_stairs(rt.alloc(), 499)?;
    let blocks = facing_blocks(rt.alloc(), 499)?;
    assert!(rt; path.len() == 2_000 && blocks.len() == 249_001);
    assert!(rt; is_cut_into(rt.alloc(), path.as_slice(), blocks.as_slice())?);
    Ok(())
}

/// So many bars upright and as many across, one wide and one apart, in one path that crosses itself: the squares of a board.
fn board(alloc: Global, bars: u16, side: u32) -> Result<Vec<Corner>, AllocError> {
    let mut path = Vec::new(alloc);
    for bar in 0..bars {
        let x = 2 * u32::from(bar);
        path.push(corner_at(x, 0))?;
        path.push(corner_at(x, side))?;
        path.push(corner_at(x + 1, side))?;
        path.push(corner_at(x + 1, 0))?;
    }
    for bar in 0..bars {
        let y = 2 * u32::from(bar);
        path.push(corner_at(0, y))?;
        path.push(corner_at(side, y))?;
        path.push(corner_at(side, y + 1))?;
        path.push(corner_at(0, y + 1))?;
    }
    Ok(path)
}

/// The squares of a board of this side that are filled: those in an upright bar or in one across, but not in both.
fn squares(alloc: Global, side: u16) -> Result<Vec<Block>, AllocError> {
    let mut blocks = Vec::new(alloc);
    for n in 0..u32::from(side) * u32::from(side) {
        let low = n / u32::from(side.max(1));
        let left = n % u32::from(side.max(1));
        if (low % 2 == 0) != (left % 2 == 0) {
            blocks.push(Block {
                low: i64::from(low),
                left: i64::from(left),
                high: i64::from(low) + 1,
                right: i64::from(left) + 1,
            })?;
        }
    }
    Ok(blocks)
}

#[test]
fn a_board_by_bars_that_cross(rt: HostRuntime) -> Result<(), Fail> {
    let path = board(rt.alloc(), 250, 499)?;
    let blocks = squares(rt.alloc(), 499)?;
    assert!(rt; path.len() == 2_000 && blocks.len() == 124_500);
    assert!(rt; is_cut_into(rt.alloc(), path.as_slice(), blocks.as_slice())?);
    Ok(())
}

/// Rows one high, each from one further right than the row under it, and all up to the same right side.
fn rising_rows(alloc: Global, rows: u16) -> Result<Vec<Rect>, AllocError> {
    let mut rects = Vec::new(alloc);
    for row in 0..rows {
        rects.push(Rect {
            x0: i64::from(row),
            y0: i64::from(row),
            x1: i64::from(rows),
            y1: i64::from(row) + 1,
        })?;
    }
    Ok(rects)
}

/// The blocks of these rows: each has its left side and its upper side on those of a row, and reaches down to the lowest row.
fn rising_blocks(alloc: Global, rows: u16) -> Result<Vec<Block>, AllocError> {
    let mut blocks = Vec::new(alloc);
    for row in 0..u32::from(rows) {
        blocks.push(block_at(0, row, row + 1, u32::from(rows)))?;
    }
    Ok(blocks)
}

/// Rows one high, all from the same left side, and each up to one less far right than the row under it.
fn falling_rows(alloc: Global, rows: u16) -> Result<Vec<Rect>, AllocError> {
    let mut rects = Vec::new(alloc);
    for row in 0..rows {
        rects.push(Rect {
            x0: 0,
            y0: i64::from(row),
            x1: i64::from(rows - row),
            y1: i64::from(row) + 1,
        })?;
    }
    Ok(rects)
}

/// The blocks of these rows, which have the same lower left corner.
fn falling_blocks(alloc: Global, rows: u16) -> Result<Vec<Block>, AllocError> {
    let mut blocks = Vec::new(alloc);
    for row in 0..u32::from(rows) {
        blocks.push(block_at(0, 0, row + 1, u32::from(rows) - row))?;
    }
    Ok(blocks)
}

#[test]
fn stairs_of_rows(rt: HostRuntime) -> Result<(), Fail> {
    // 2,000 strips of 2,000 columns, and as many rectangles
    let rising = rising_rows(rt.alloc(), 2_000)?;
    let blocks = rising_blocks(rt.alloc(), 2_000)?;
    let merged = merge(rt.alloc(), rising.as_slice(), 8_000_000)?;
    assert!(rt; are_at(merged.as_slice(), blocks.as_slice()));
    let falling = falling_rows(rt.alloc(), 2_000)?;
    let blocks = falling_blocks(rt.alloc(), 2_000)?;
    let merged = merge(rt.alloc(), falling.as_slice(), 8_000_000)?;
    assert!(rt; are_at(merged.as_slice(), blocks.as_slice()));
    Ok(())
}

/// As far as a layout may reach.
const FAR: i64 = 4_000_000_000;

#[test]
fn a_path_as_far_as_a_layout_may_reach(rt: HostRuntime) -> Result<(), Fail> {
    let path = [
        corner(-FAR, -FAR),
        corner(FAR, -FAR),
        corner(FAR, 1),
        corner(-1, 1),
        corner(-1, FAR),
        corner(-FAR, FAR),
    ];
    let blocks = [
        Block {
            low: -FAR,
            left: -FAR,
            high: 1,
            right: FAR,
        },
        Block {
            low: -FAR,
            left: -FAR,
            high: FAR,
            right: -1,
        },
    ];
    assert!(rt; is_cut_into(rt.alloc(), &path, &blocks)?);
    Ok(())
}
