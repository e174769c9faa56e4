//! Cells that the edges of a closed path flip.

ghost use Rattle.region_cut.specs.Cells.{spans, stands_left};
ghost use Rattle.region_cut.specs.Grids.{line};
ghost use Rattle.region_cut.specs.Steps.{closed_steps};
ghost use Rattle.std.specs.List.{count_by};
ghost use Rattle.std.specs.Prelude.{◌≡◌, ◌==◌, ◌%◌, ◌<◌, ◌≤◌, ℕ, false, not, if◌then◌else◌, length, slice_index_or};

use crate::heights::Heights;
use geom_core::Corner;

// Whether a step is a vertical edge that spans all from one height to another.
fn spans(heights: &Heights, from: &Corner, to: &Corner) -> bool
    ensures { result ≡ spans heights.now.low heights.now.high (record { from = from.now; to = to.now }) }
{
    if from.x != to.x {
        return false;
    }
    let low = from.y.min(to.y);
    let high = from.y.max(to.y);
    if heights.low < low {
        return false;
    }
    heights.high <= high
}

// Flips the cells behind a step, if it is a vertical edge that spans all from one height to another.
fn flip(across: &[i64], cells: &mut [bool], heights: &Heights, from: &Corner, to: &Corner)
    requires { length cells.old ≤ length across.now }
    ensures long { length cells.new ≡ length cells.old }
    ensures flipped { (column : ℕ) → column < length cells.old → slice_index_or cells.new column false ≡ (if stands_left (line across.now column) heights.now.low heights.now.high (record { from = from.now; to = to.now }) then not (slice_index_or cells.old column false) else slice_index_or cells.old column false) }
{
    if !spans(heights, from, to) {
        return;
    }
    for column in 0..cells.len() {
        if from.x <= across[column] {
            cells[column] = !cells[column];
        }
    }
}

/// Flips the cells behind each vertical edge of a path that spans all from one height to another.
pub(crate) fn flip_all(across: &[i64], cells: &mut [bool], heights: &Heights, path: &[Corner])
    requires { length cells.old ≤ length across.now }
    ensures long { length cells.new ≡ length cells.old }
    ensures flipped { (column : ℕ) → column < length cells.old → slice_index_or cells.new column false ≡ (if count_by (stands_left (line across.now column) heights.now.low heights.now.high) (closed_steps path.now) % 2 == 1 then not (slice_index_or cells.old column false) else slice_index_or cells.old column false) }
{
    let Some((first, mut rest)) = path.split_first() else {
        return;
    };
    let mut here = first;
    while let Some((next, later)) = rest.split_first() {
        flip(across, cells, heights, here, next);
        here = next;
        rest = later;
    }
    flip(across, cells, heights, here, first);
}
