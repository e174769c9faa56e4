//! The numbers of rows that are tried: those of a layout that is about square, and some fewer and more.

ghost use Rattle.placement_tries.specs.RowCounts.{part_of, row_list, rows_at, with_new};
ghost use Rattle.std.specs.List.{AllByRecursion};
ghost use Rattle.std.specs.Prelude.{◌≡◌, ◌≤◌, IfOk, OnOk};

use limits::MOST_ROWS;
use std::alloc::{AllocError, Global};

// How many eighths of the first number the others are.
const EIGHTHS: [u32; 6] = [7, 6, 9, 5, 4, 3];

// So many eighths of a number of rows, rounded to the nearest, 1 to 512.
fn part_of(rows: u32, eighths: u32) -> u32
    requires few { rows ≤ MOST_ROWS }
    requires small { eighths ≤ 9 }
    ensures is { result ≡ part_of rows eighths }
{
    ((rows * eighths + 4) / 8).max(1).min(u32::from(MOST_ROWS))
}

// Puts a number behind others, unless it stands among them.
fn add_new(list: &mut Vec<u32>, rows: u32) -> Result<(), AllocError>
    ensures { OnOk result (list.new.items ≡ with_new list.old.items rows) }
{
    if !list.contains(&rows) {
        list.push(rows)?;
    }
    Ok(())
}

// The numbers of rows that are tried where this is the one of a layout that is about square.
#[tactic(auto, unfolding(crate::specs::RowCounts::row_list))]
fn row_list(alloc: Global, square: u32) -> Result<Vec<u32>, AllocError>
    requires few { square ≤ MOST_ROWS }
    ensures is { IfOk result (λ list. list.items ≡ row_list square) }
{
    let mut list = Vec::new(alloc);
    list.push(square)?;
    let mut rest: &[u32] = &EIGHTHS;
    while let Some((eighths, after)) = rest.split_first() {
        add_new(&mut list, part_of(square, *eighths))?;
        rest = after;
    }
    Ok(list)
}

/// The number of rows of the try of this number, from 0 on, where so many make the layout about square: the first has these, and the others have 7/8, 3/4, 9/8, 5/8, 1/2 and 3/8 of them, each rounded
/// to the nearest, halves up, at least 1 and at most 512, and each number once; after the last it begins anew. The one error is want of memory.
#[tactic(auto, using(crate::proofs::RowLaws::row_laws), unfolding(crate::specs::RowCounts::rows_at))]
pub fn rows_at(alloc: Global, square: u32, number: u32) -> Result<u32, AllocError>
    requires some { 1 ≤ square }
    requires few { square ≤ MOST_ROWS }
    ensures is { IfOk result (λ rows. rows ≡ rows_at square number) }
    ensures some { IfOk result (λ rows. 1 ≤ rows) }
    ensures few { IfOk result (λ rows. rows ≤ MOST_ROWS) }
{
    let list = row_list(alloc, square)?;
    Ok(list[number as usize % list.len()])
}
