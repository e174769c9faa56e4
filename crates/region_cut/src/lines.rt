//! The lines of paths and rectangles: the different x and the different y of their corners.

ghost use Rattle.region_cut.specs.Cells.{lines_across, lines_up};
ghost use Rattle.region_cut.specs.Covered.{HasArea, sides_across, sides_up};
ghost use Rattle.std.specs.BTreeSet.{btree_set_len};
ghost use Rattle.std.specs.List.{AllByRecursion};
ghost use Rattle.std.specs.Prelude.{◌≡◌, IfOk};

use geom_core::{Corner, Rect};
use std::alloc::{AllocError, Global};
use std::collections::BTreeSet;

// The numbers of a set, ascending.
fn listed(alloc: Global, mut found: BTreeSet<i64>) -> Result<Vec<i64>, AllocError>
    ensures { IfOk result (λ lines. lines.items ≡ found.keys) }
{
    let mut lines = Vec::with_capacity(alloc, found.len())?;
    while let Some(lowest) = found.pop_first() {
        lines.push(lowest)?;
    }
    Ok(lines)
}

/// The different x of the corners of a path, ascending.
#[tactic(auto, unfolding(crate::specs::Grids::ascending))]
pub(crate) fn lines_across(alloc: Global, path: &[Corner]) -> Result<Vec<i64>, AllocError>
    ensures { IfOk result (λ lines. lines.items ≡ lines_across path.now) }
{
    let mut found = BTreeSet::new(alloc);
    let mut rest = path;
    while let Some((corner, later)) = rest.split_first() {
        found.insert(corner.x)?;
        rest = later;
    }
    listed(alloc, found)
}

/// The different y of the corners of a path, ascending.
#[tactic(auto, unfolding(crate::specs::Grids::ascending))]
pub(crate) fn lines_up(alloc: Global, path: &[Corner]) -> Result<Vec<i64>, AllocError>
    ensures { IfOk result (λ lines. lines.items ≡ lines_up path.now) }
{
    let mut found = BTreeSet::new(alloc);
    let mut rest = path;
    while let Some((corner, later)) = rest.split_first() {
        found.insert(corner.y)?;
        rest = later;
    }
    listed(alloc, found)
}

/// The different x of the sides of rectangles, ascending. Each of these has an area.
#[tactic(auto, unfolding(crate::specs::Grids::ascending))]
pub(crate) fn sides_across(alloc: Global, rects: &[Rect]) -> Result<Vec<i64>, AllocError>
    ensures is { IfOk result (λ lines. lines.items ≡ sides_across rects.now) }
    ensures areas { IfOk result (λ _. AllByRecursion HasArea rects.now) }
{
    let mut found = BTreeSet::new(alloc);
    let mut rest = rects;
    while let Some((rect, later)) = rest.split_first() {
        found.insert(rect.x0)?;
        found.insert(rect.x1)?;
        rest = later;
    }
    listed(alloc, found)
}

/// The different y of the sides of rectangles, ascending.
#[tactic(auto, unfolding(crate::specs::Grids::ascending))]
pub(crate) fn sides_up(alloc: Global, rects: &[Rect]) -> Result<Vec<i64>, AllocError>
    ensures { IfOk result (λ lines. lines.items ≡ sides_up rects.now) }
{
    let mut found = BTreeSet::new(alloc);
    let mut rest = rects;
    while let Some((rect, later)) = rest.split_first() {
        found.insert(rect.y0)?;
        found.insert(rect.y1)?;
        rest = later;
    }
    listed(alloc, found)
}
