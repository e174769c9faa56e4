//! The rectangles of a wire.

ghost use Rattle.geom_core.specs.Reach.{IsInReach};
ghost use Rattle.region_cut.specs.Steps.{Step};
ghost use Rattle.region_cut.specs.Strokes.{CoverPath, IsCornerInReach, stroke, strokes};
ghost use Rattle.std.specs.Int.{int_max, int_min};
ghost use Rattle.std.specs.List.{AllByRecursion};
ghost use Rattle.std.specs.Prelude.{◌≡◌, ◌<ℤ◌, ◌-ℤ◌, ◌+ℤ◌, pos, IfOk};

use geom_core::{Corner, Rect};
use std::alloc::{AllocError, Global};

// Where a step between two coordinates begins, `half` before the lower of them.
fn begin(from: i64, to: i64, half: i64) -> i64
    requires from { IsInReach from }
    requires to { IsInReach to }
    requires half { IsInReach half }
    ensures { result ≡ int_min from to -ℤ half }
{
    from.min(to) - half
}

// Where it ends, `half` behind the higher of them.
fn end(from: i64, to: i64, half: i64) -> i64
    requires from { IsInReach from }
    requires to { IsInReach to }
    requires half { IsInReach half }
    ensures { result ≡ int_max from to +ℤ half }
{
    from.max(to) + half
}

// The rectangle of a step between two points.
fn stroke(from: &Corner, to: &Corner, half: i64) -> Rect
    requires from { IsCornerInReach from.now }
    requires to { IsCornerInReach to.now }
    requires half { IsInReach half }
    requires wide { pos 0 <ℤ half }
    ensures { result ≡ stroke half (record { from = from.now; to = to.now }) }
{
    Rect {
        x0: begin(from.x, to.x, half),
        y0: begin(from.y, to.y, half),
        x1: end(from.x, to.x, half),
        y1: end(from.y, to.y, half),
    }
}

/// The rectangles of a wire along a path, which reach `half` past it on every side: one for each step, in order, and of a single
/// point the square round it. The points and `half` are in one unit, at most 10^15 of it, and `half` is above 0.
/// A step is meant to go along an axis: its rectangle has the step's two points in it with all between them in x and y.
/// The one error is want of memory.
pub fn strokes(alloc: Global, path: &[Corner], half: i64) -> Result<Vec<Rect>, AllocError>
    requires path { AllByRecursion IsCornerInReach path.now }
    requires half { IsInReach half }
    requires wide { pos 0 <ℤ half }
    ensures is { IfOk result (λ rects. rects.items ≡ strokes half path.now) }
    ensures cover { IfOk result (λ rects. CoverPath half path.now rects.items) }
{
    let mut rects = Vec::new(alloc);
    let Some((first, mut rest)) = path.split_first() else {
        return Ok(rects);
    };
    if rest.is_empty() {
        rects.push(stroke(first, first, half))?;
        return Ok(rects);
    }
    let mut here = first;
    while let Some((next, later)) = rest.split_first() {
        rects.push(stroke(here, next, half))?;
        here = next;
        rest = later;
    }
    Ok(rects)
}
