//! The rows that a design begins with, filled by width or by count, and how many make the layout about square.

ghost use Rattle.row_model.specs.Rows.{ArePlaced};
ghost use Rattle.row_model.specs.Start.{counted_row, counted_rows, default_rows, least_rows, rows_from, seats_from, start_rows, taken};
ghost use Rattle.std.specs.Prelude.{◌≡◌, ◌+◌, ◌<◌, ◌≤◌, IfOk, length};

use crate::rows::{Rows, Seat};
use crate::widths::{all_columns, columns_of};
use design_model::Design;
use geom_core::Items;
use limits::{MOST_HEIGHT, MOST_INSTANCES};
use std::alloc::{AllocError, Global};
use std::marker::Model;
use tech_rules::{Rules, StartBy};

/// As many rows as make the layout about square: the least number from 1 on whose square times the highest kind's height is at
/// least the width of all instances side by side, and 512 where that is greater. Takes no memory.
#[tactic(auto, unfolding(crate::specs::Start::default_rows))]
pub fn default_rows(design: &Design, rules: &Rules) -> u32
    ensures is { result ≡ default_rows rules.now design.now }
    ensures some { 1 ≤ result }
    ensures few { result ≤ 512 }
{
    let area = all_columns(design) * u64::from(rules.grid.column);
    least_rows(area, design.height, 511, 1)
}

// The least number from `first` on, among `more` further ones, of rows whose square has this area, or the last of them.
fn least_rows(area: u64, height: u32, more: u32, first: u32) -> u32
    requires few { first + more ≤ 512 }
    requires low { height ≤ MOST_HEIGHT }
    ensures is { result ≡ least_rows area height more first }
    ensures from { first ≤ result }
    ensures to { result ≤ first + more }
{
    let mut rows = first;
    let mut left = more;
    while left > 0 {
        if area <= u64::from(rows) * u64::from(rows) * u64::from(height) {
            return rows;
        }
        rows += 1;
        left -= 1;
    }
    rows
}

/// The rows that a design begins with, from 1 to 512, which take the instances in their order. By width each row takes instances
/// until it is at least as wide as the width of all divided by the number of rows, rounded up, and the last takes the rest. By
/// count of n instances in K rows row r takes those from n r / K on, up to n (r + 1) / K, both rounded down. No instance is
/// mirrored. The one error is want of memory.
pub fn start(alloc: Global, design: &Design, rows: u32, by: StartBy) -> Result<Rows, AllocError>
    requires some { 0 < rows }
    requires few { rows ≤ 512 }
    ensures is { IfOk result (λ made. made ≡ start_rows by design.now rows) }
    ensures placed { IfOk result (λ made. ArePlaced design.now made) }
{
    let count = RowCount { rows };
    Ok(Rows::new(Items::new(start_seats(alloc, design, count, by)?)))
}

// How many rows there are, from 1 to 512, which every value keeps.
#[derive(Clone, Copy)]
struct RowCount {
    rows: u32,
}

impl Model for RowCount {
    ghost use Rattle.std.specs.Prelude.{ℕ, ◌<◌, ◌≤◌};

    ghost Value = { ℕ };

    ghost view = { λ c. c.rows };

    ghost invariant = { λ c. (0 < c.rows) × (c.rows ≤ 512) };

    ghost inverse = { λ n. record { rows = n } };
}

impl RowCount {
    ghost use Rattle.std.specs.Prelude.{◌≡◌, ◌<◌, ◌≤◌};

    fn get(self) -> u32
        ensures is { result ≡ self }
        ensures some { 0 < result }
        ensures few { result ≤ 512 }
    {
        self.rows
    }
}

// The seats of these rows.
#[tactic(auto, unfolding(crate::specs::Start::start_rows))]
fn start_seats(
    alloc: Global,
    design: &Design,
    rows: RowCount,
    by: StartBy,
) -> Result<Vec<Items<Seat>>, AllocError>
    ensures { IfOk result (λ v. v.items ≡ start_rows by design.now rows) }
{
    match by {
        StartBy::Width => {
            let count = rows.get();
            let target = (all_columns(design) + u64::from(count - 1)) / u64::from(count);
            rows_from(alloc, design, target, rows)
        }
        StartBy::Count => counted_rows(alloc, design, rows),
    }
}

// All instances in so many rows, of which each takes the same number.
fn counted_rows(
    alloc: Global,
    design: &Design,
    rows: RowCount,
) -> Result<Vec<Items<Seat>>, AllocError>
    ensures { IfOk result (λ v. v.items ≡ counted_rows (length design.now.instances) rows) }
{
    let count = design.instances.items().len() as u32;
    let mut made = Vec::new(alloc);
    for row in 0..rows.get() {
        made.push(counted_row(alloc, count, rows, row)?)?;
    }
    Ok(made)
}

// One of these rows.
fn counted_row(
    alloc: Global,
    count: u32,
    rows: RowCount,
    row: u32,
) -> Result<Items<Seat>, AllocError>
    requires few { count ≤ MOST_INSTANCES }
    requires within { row < rows }
    ensures { IfOk result (λ seats. seats ≡ counted_row count rows row) }
{
    let rows = rows.get();
    let first = count * row / rows;
    let next = count * (row + 1) / rows;
    Ok(Items::new(seats(alloc, first, next - first)?))
}

// All instances in so many rows, each but the last at least as wide as the target.
fn rows_from(
    alloc: Global,
    design: &Design,
    target: u64,
    rows: RowCount,
) -> Result<Vec<Items<Seat>>, AllocError>
    ensures { IfOk result (λ v. v.items ≡ rows_from design.now target rows 0 (length design.now.instances)) }
{
    let mut made = Vec::new(alloc);
    let mut first = 0;
    let mut count = design.instances.items().len() as u32;
    let mut left = rows.get();
    while left > 1 {
        let row = taken(design, target, first, count);
        made.push(Items::new(seats(alloc, first, row)?))?;
        first += row;
        count -= row;
        left -= 1;
    }
    made.push(Items::new(seats(alloc, first, count)?))?;
    Ok(made)
}

// How many of so many instances from `first` on a row takes.
fn taken(design: &Design, target: u64, first: u32, count: u32) -> u32
    requires { first + count ≤ MOST_INSTANCES }
    ensures is { result ≡ taken design.now target first count }
    ensures few { result ≤ count }
{
    let mut wanted = target;
    for n in 0..count {
        if wanted == 0 {
            return n;
        }
        wanted = wanted.saturating_sub(u64::from(columns_of(design, first + n)));
    }
    count
}

// The seats of so many instances from `first` on, upright.
fn seats(alloc: Global, first: u32, count: u32) -> Result<Vec<Seat>, AllocError>
    requires { first + count ≤ MOST_INSTANCES }
    ensures { IfOk result (λ seats. seats.items ≡ seats_from first count) }
{
    let mut seats = Vec::new(alloc);
    for n in 0..count {
        seats.push(Seat {
            instance: first + n,
            mirror: false,
        })?;
    }
    Ok(seats)
}
