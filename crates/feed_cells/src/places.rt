//! The first columns of the cells of a row, and how many of them lie left of a given column.

ghost use Rattle.feed_cells.specs.Feeds.{lefts_of};
ghost use Rattle.feed_cells.specs.RowFeeds.{place_among};
ghost use Rattle.std.specs.List.Sorted.{IsNonDecreasingBy};
ghost use Rattle.std.specs.Prelude.{◌≡◌, ◌≤◌, ℕ, length, nat_lt, IfOk};

use design_model::Design;
use limits::MOST_INSTANCES;
use row_model::{Seat, columns_of};
use std::alloc::{AllocError, Global};

/// The first columns of the seats of a row. The one error is want of memory.
pub(crate) fn lefts_of(
    alloc: Global,
    design: &Design,
    seats: &[Seat],
) -> Result<Vec<u64>, AllocError>
    requires short { length seats.now ≤ MOST_INSTANCES }
    ensures { IfOk result (λ v. v.items ≡ lefts_of design.now 0 seats.now) }
{
    let mut lefts = Vec::new(alloc);
    let mut left = 0;
    let mut rest = seats;
    while let Some((seat, after)) = rest.split_first() {
        lefts.push(left)?;
        left += u64::from(columns_of(design, seat.instance));
        rest = after;
    }
    Ok(lefts)
}

/// How many cells of a row begin left of a column, by their first columns, which do not fall. Takes no memory, and steps as the logarithm of the
/// number of cells.
pub(crate) fn place_among(lefts: &[u64], middle: u64) -> usize
    requires rising { IsNonDecreasingBy (λ (left : ℕ). left) lefts.now }
    ensures is { result ≡ place_among lefts.now middle }
    ensures within { result ≤ length lefts.now }
{
    lefts.partition_point(
        |left: &u64| -> bool
            ensures { result ≡ nat_lt left.now middle }
        { *left < middle },
    )
}
