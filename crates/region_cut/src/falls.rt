//! Columns that are filled less far up than one before them.

ghost use Rattle.region_cut.specs.Falls.{AreFalls, IsFall};
ghost use Rattle.std.specs.Prelude.{◌≡◌, ◌<◌, ◌+◌, IfOk, length};

use std::alloc::{AllocError, Global};

// The first column behind one that is filled less far up, or the end, from those of the columns behind it.
fn fall(tops: &[usize], falls: &[usize], column: usize) -> usize
    requires within { column < length tops.now }
    requires behind { AreFalls tops.now (column + 1) falls.now }
    ensures { IsFall tops.now column result }
{
    let top = tops[column];
    let mut next = column + 1;
    while next < tops.len() && tops[next] >= top {
        next = falls[next];
    }
    next
}

/// Of each column the first behind it that is filled less far up, or the end. Takes O(C) time for C columns.
pub(crate) fn falls(alloc: Global, tops: &[usize]) -> Result<Vec<usize>, AllocError>
    ensures { IfOk result (λ falls. AreFalls tops.now 0 falls.items) }
{
    let mut falls = vec![in alloc; 0; tops.len()]?;
    let mut column = tops.len();
    while column > 0 {
        column -= 1;
        let next = fall(tops, &falls, column);
        falls[column] = next;
    }
    Ok(falls)
}
