//! Cells that rectangles cover.

ghost use Rattle.region_cut.specs.Covered.{covers, reaches};
ghost use Rattle.region_cut.specs.Grids.{line};
ghost use Rattle.std.specs.List.{list_any};
ghost use Rattle.std.specs.Prelude.{◌≡◌, ◌+◌, ◌-◌, ◌<◌, ◌≤◌, ◌<ℤ◌, ◌||◌, ℕ, false, IfOk, int_le, length, nat_le, slice_index_or, take};

use crate::heights::Heights;
use geom_core::Rect;
use std::alloc::{AllocError, Global};

// Whether a rectangle spans all from one height to another.
fn reaches(heights: &Heights, rect: &Rect) -> bool
    ensures { result ≡ reaches heights.now.low heights.now.high rect.now }
{
    rect.y0 <= heights.low && heights.high <= rect.y1
}

// The first of rising lines that does not lie left of a place, by halves.
fn line_from(across: &[i64], place: i64) -> usize
    requires { (i j : ℕ) → i < j → j < length across.now → line across.now i <ℤ line across.now j }
    ensures { (k : ℕ) → k < length across.now → int_le place (line across.now k) ≡ nat_le result k }
{
    let mut low = 0;
    let mut high = across.len();
    while low < high {
        let middle = low + (high - low) / 2;
        if across[middle] < place {
            low = middle + 1;
        } else {
            high = middle;
        }
    }
    low
}

// Lets the line that a rectangle begins on reach as far right as it does, if it spans all from one height to another.
fn extend(across: &[i64], ends: &mut [i64], heights: &Heights, rect: &Rect)
    requires rise { (i j : ℕ) → i < j → j < length across.now → line across.now i <ℤ line across.now j }
    requires long { length ends.old ≡ length across.now }
    ensures long { length ends.new ≡ length ends.old }
    ensures further { (column : ℕ) → column < length across.now - 1 → list_any (int_le (line across.now (column + 1))) (take (column + 1) ends.new) ≡ (covers (line across.now column) (line across.now (column + 1)) heights.now.low heights.now.high rect.now || list_any (int_le (line across.now (column + 1))) (take (column + 1) ends.old)) }
{
    if !reaches(heights, rect) {
        return;
    }
    let left = line_from(across, rect.x0);
    if left < ends.len() {
        ends[left] = ends[left].max(rect.x1);
    }
}

/// How far right the rectangles that span all from one height to another reach, by the lines that they begin on: a cell lies in one of them
/// where a line at or left of its left side reaches its right side. Takes O(C + N log C) time for C lines and N rectangles.
pub(crate) fn right_ends(
    alloc: Global,
    across: &[i64],
    heights: &Heights,
    rects: &[Rect],
) -> Result<Vec<i64>, AllocError>
    requires { (i j : ℕ) → i < j → j < length across.now → line across.now i <ℤ line across.now j }
    ensures long { IfOk result (λ ends. length ends.items ≡ length across.now) }
    ensures reached { IfOk result (λ ends. (column : ℕ) → column < length across.now - 1 → list_any (int_le (line across.now (column + 1))) (take (column + 1) ends.items) ≡ list_any (covers (line across.now column) (line across.now (column + 1)) heights.now.low heights.now.high) rects.now) }
{
    // At first each line reaches itself, and so no cell behind it.
    let mut ends = across.to_vec(alloc)?;
    let mut rest = rects;
    while let Some((rect, later)) = rest.split_first() {
        extend(across, &mut ends, heights, rect);
        rest = later;
    }
    Ok(ends)
}

/// Marks each cell up to whose right side a line at or left of its left side reaches, and no other.
pub(crate) fn mark_reached(across: &[i64], cells: &mut [bool], ends: &[i64])
    requires cells { length cells.old ≤ length across.now - 1 }
    requires ends { length cells.old ≤ length ends.now }
    ensures long { length cells.new ≡ length cells.old }
    ensures marked { (column : ℕ) → column < length cells.old → slice_index_or cells.new column false ≡ list_any (int_le (line across.now (column + 1))) (take (column + 1) ends.now) }
{
    let Some(first) = ends.first() else {
        return;
    };
    let mut end = *first;
    for column in 0..cells.len() {
        end = end.max(ends[column]);
        cells[column] = across[column + 1] <= end;
    }
}
