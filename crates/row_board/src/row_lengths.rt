//! The width of each row in columns, the target for all, and by how many columns they miss it.

ghost use Rattle.row_board.specs.Cost.{difference};
ghost use Rattle.row_model.specs.Widths.{row_width};
ghost use Rattle.std.specs.Prelude.{◌≡◌, ◌≤◌, length};

use crate::amount::Amount;
use crate::summed::Summed;
use design_model::Design;
use limits::{MOST_INSTANCES, MOST_KIND_COLUMNS, MOST_PLACED_ROWS};
use row_model::{PlacedRows, Seat, all_columns, columns_of};
use std::alloc::{AllocError, Global};
use std::marker::Model;

/// The widths of rows in columns, and how far they are from the width that each should have. Contracts see the widths and that target.
#[derive(Drop)]
pub(crate) struct RowLengths {
    widths: Vec<u64>,
    misses: Summed,
    target: u64,
}

impl Model for RowLengths {
    ghost use Rattle.row_board.specs.RowLengths.{Lengths};

    ghost Value = { Lengths };

    ghost use Rattle.row_board.specs.RowLengthsView.{lengths_in, AreLengths};

    ghost view = { lengths_in };

    ghost invariant = { AreLengths };
}

/// The difference of two numbers, without sign.
pub(crate) fn difference(a: u64, b: u64) -> u64
    ensures { result ≡ difference a b }
{
    if a < b { b - a } else { a - b }
}

// The width of seats side by side.
fn row_width(design: &Design, seats: &[Seat]) -> u64
    requires { length seats.now ≤ MOST_INSTANCES }
    ensures is { result ≡ row_width design.now seats.now }
    ensures few { result ≤ 2000000000000 }
{
    let mut width = 0;
    let mut rest = seats;
    while let Some((seat, after)) = rest.split_first() {
        width += u64::from(columns_of(design, seat.instance));
        rest = after;
    }
    width
}

impl RowLengths {
    ghost use Rattle.row_board.specs.Board.{lengths_of};
    ghost use Rattle.row_board.specs.Cost.{difference};
    ghost use Rattle.row_board.specs.RowLengths.{Lengths, width_in};
    ghost use Rattle.row_board.specs.RowLengthsView.{misses_of};
    ghost use Rattle.std.specs.Option.{option_map};
    ghost use Rattle.std.specs.Prelude.{◌≡◌, ◌≢◌, ◌==◌, ◌+◌, ◌-◌, ◌*◌, ◌≤◌, ◌<◌, ℕ, Some, length, slice_get, sum, if◌then◌else◌, IfOk};

    /// The widths of rows, and the target: the width of all instances divided by the number of rows, rounded up. The one error is want of memory.
    pub(crate) fn of(alloc: Global, placed: &PlacedRows) -> Result<RowLengths, AllocError>
        ensures { IfOk result (λ lengths. lengths ≡ lengths_of placed.now.design placed.now.rows) }
    {
        let design = placed.design();
        let rows = placed.rows();
        let count = rows.len() as u64;
        let target = (all_columns(design) + (count - 1)) / count;
        let mut widths = Vec::new(alloc);
        let mut misses = Summed::new(alloc);
        let mut rest = rows;
        while let Some((seats, after)) = rest.split_first() {
            let width = row_width(design, seats.items());
            misses.push(Amount {
                number: difference(width, target),
            })?;
            widths.push(width)?;
            rest = after;
        }
        Ok(RowLengths {
            widths,
            misses,
            target,
        })
    }

    /// A row gets so many columns more, and then so many fewer, where there is this row. Takes no memory.
    pub(crate) fn change(&mut self, row: u16, more: u32, fewer: u32)
        requires small { (width : ℕ) → slice_get self.old.widths row ≡ Some width → width ≤ 2000100000000 }
        requires more { more ≤ MOST_KIND_COLUMNS }
        ensures widths { (r : ℕ) → slice_get self.new.widths r ≡ option_map (λ (width : ℕ). if r == row then width + more - fewer else width) (slice_get self.old.widths r) }
        ensures target { self.new.target ≡ self.old.target }
    {
        let n = row as usize;
        if n < self.widths.len() {
            let width = (self.widths[n] + u64::from(more)).saturating_sub(u64::from(fewer));
            let number = difference(width, self.target);
            self.misses.set(n, Amount { number });
            self.widths[n] = width;
        }
    }

    // The width of a row, 0 where there is no such row.
    fn width(&self, row: u16) -> u64
        ensures { result ≡ width_in (slice_get self.now.widths row) }
    {
        match self.widths.get(row as usize) {
            Some(width) => *width,
            None => 0,
        }
    }

    /// By how many columns all rows miss the target once a row got so many columns more and then so many fewer, and another the other way round. Of one row, which so is as wide
    /// as before, it is less by twice the difference of the two numbers. Takes no memory.
    pub(crate) fn unevenness_after(&self, one: u16, other: u16, more: u32, fewer: u32) -> u64
        requires small { (r width : ℕ) → slice_get self.now.widths r ≡ Some width → width ≤ 2000100000000 }
        requires more { more ≤ MOST_KIND_COLUMNS }
        requires fewer { fewer ≤ MOST_KIND_COLUMNS }
        ensures same { one ≡ other → result ≡ sum (misses_of self.now) - 2 * difference more fewer }
        ensures apart { one ≢ other → result ≡ (sum (misses_of self.now) + (difference (width_in (slice_get self.now.widths one) + more - fewer) self.now.target + difference (width_in (slice_get self.now.widths other) + fewer - more) self.now.target)) - (difference (width_in (slice_get self.now.widths one)) self.now.target + difference (width_in (slice_get self.now.widths other)) self.now.target) }
        ensures small { result ≤ 2199023255552 * (MOST_PLACED_ROWS + 4) }
    {
        let sum = self.unevenness();
        let more = u64::from(more);
        let fewer = u64::from(fewer);
        if one == other {
            return sum.saturating_sub(2 * difference(more, fewer));
        }
        let first = self.width(one);
        let second = self.width(other);
        let target = self.target;
        let before = difference(first, target) + difference(second, target);
        let first = (first + more).saturating_sub(fewer);
        let second = (second + fewer).saturating_sub(more);
        let after = difference(first, target) + difference(second, target);
        (sum + after).saturating_sub(before)
    }

    /// By how many columns all rows miss the target. Takes no memory.
    pub(crate) fn unevenness(&self) -> u64
        ensures is { result ≡ sum (misses_of self.now) }
        ensures small { result ≤ 2199023255552 * MOST_PLACED_ROWS }
    {
        self.misses.sum()
    }
}
