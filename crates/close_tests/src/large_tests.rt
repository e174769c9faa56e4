//! A million rectangles: a grid without a close pair, and one on the other.

ghost use Rattle.geom_core.specs.Reach.{IsExtentInWideReach};
ghost use Rattle.std.specs.Prelude.{◌≡◌, ◌<◌, ◌≤◌, ◌^◌, length, All, IfOk};

use close_rects::{RectSet, Scan};
use geom_core::Rect;
use std::alloc::{AllocError, Global};
use std::test::Fail;

// Squares of a side, of which each begins a step right of and above the one before.
pub(crate) fn stairs(
    alloc: Global,
    count: usize,
    step: u32,
    side: u32,
) -> Result<Vec<Rect>, AllocError>
    requires few { count ≤ 1000000 }
    requires flat { step ≤ 1000 }
    requires some { 0 < side }
    ensures len { IfOk result (λ v. length v.items ≡ count) }
    ensures wide { IfOk result (λ v. All IsExtentInWideReach v.items) }
{
    let mut squares = Vec::with_capacity(alloc, count)?;
    let mut at: u32 = 0;
    for _k in 0..count {
        squares.push(square(at, at, side))?;
        at += step;
    }
    Ok(squares)
}

// Squares of a side in rows and columns, which begin a pitch apart.
pub(crate) fn grid(
    alloc: Global,
    rows: usize,
    columns: usize,
    pitch: u32,
    side: u32,
) -> Result<Vec<Rect>, AllocError>
    requires few_rows { rows ≤ 1000 }
    requires few_columns { columns ≤ 1000 }
    requires near { pitch ≤ 1000 }
    requires some { 0 < side }
    ensures len { IfOk result (λ v. length v.items < 2 ^ 32) }
    ensures wide { IfOk result (λ v. All IsExtentInWideReach v.items) }
{
    let mut squares = Vec::new(alloc);
    let mut y: u32 = 0;
    for _row in 0..rows {
        let mut x: u32 = 0;
        for _column in 0..columns {
            squares.push(square(x, y, side))?;
            x += pitch;
        }
        y += pitch;
    }
    Ok(squares)
}

fn square(x: u32, y: u32, side: u32) -> Rect
    requires { 0 < side }
    ensures { IsExtentInWideReach result }
{
    Rect {
        x0: i64::from(x),
        y0: i64::from(y),
        x1: i64::from(x) + i64::from(side),
        y1: i64::from(y) + i64::from(side),
    }
}

// Squares 800 apart are not close at a reach of 800.
#[test]
fn a_grid_without_a_close_pair(rt: HostRuntime) -> Result<(), Fail> {
    let squares = grid(rt.alloc(), 1000, 1000, 1000, 200)?;
    assert_eq!(rt; squares.len(), 1_000_000);
    let mut scan = Scan::new(rt.alloc(), squares.as_slice(), 800)?;
    assert_eq!(rt; scan.next(), None);
    Ok(())
}

// A million squares of which each overlaps each other one: the first 1,001 of their pairs come at once.
#[test]
fn the_first_of_many_pairs(rt: HostRuntime) -> Result<(), Fail> {
    let squares = stairs(rt.alloc(), 1_000_000, 1, 2_000_000)?;
    let mut scan = Scan::new(rt.alloc(), squares.as_slice(), 0)?;
    for _ in 0..1001 {
        assert!(rt; scan.next().is_some());
    }
    Ok(())
}

// Of a million squares that all overlap each is taken once.
#[test]
fn all_that_overlap_are_taken(rt: HostRuntime) -> Result<(), Fail> {
    let squares = stairs(rt.alloc(), 1_000_000, 1, 2_000_000)?;
    let mut set = RectSet::new(rt.alloc(), squares.as_slice())?;
    for square in squares.as_slice() {
        assert!(rt; set.take(square).is_some());
    }
    for square in squares.as_slice() {
        assert_eq!(rt; set.take(square), None);
    }
    Ok(())
}
