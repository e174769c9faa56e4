//! Makes the table of where each instance stands from rows.

ghost use Rattle.row_board.specs.Board.{AreSeated};
ghost use Rattle.row_board.specs.Standings.{AreApart, HasEntered, KeepsOthers};
ghost use Rattle.std.specs.Prelude.{◌≡◌, ◌≤◌, ◌<◌, length, IfOk};

use crate::seats::row_at;
use crate::standings::Standing;
use design_model::Design;
use limits::{MOST_INSTANCES, MOST_PLACED_ROWS};
use row_model::{PlacedRows, Seat, columns_of};
use std::alloc::{AllocError, Global};

// Enters where the instances of a row's seats stand.
fn enter_row(design: &Design, row: u16, seats: &[Seat], standings: &mut [Standing])
    requires apart { AreApart (length standings.old) seats.now }
    requires short { length seats.now ≤ MOST_INSTANCES }
    requires low { row < MOST_PLACED_ROWS }
    ensures entered { HasEntered design.now row 0 (length seats.now) seats.now standings.new }
    ensures others { KeepsOthers 0 (length seats.now) seats.now standings.old standings.new }
{
    let mut left = 0;
    for place in 0..seats.len() {
        let seat = seats[place];
        standings[seat.instance as usize] = Standing {
            row,
            mirror: seat.mirror,
            place: place as u32,
            left,
        };
        left += u64::from(columns_of(design, seat.instance));
    }
}

/// Where each instance stands in rows. The one error is want of memory.
pub(crate) fn standings_of(alloc: Global, placed: &PlacedRows) -> Result<Vec<Standing>, AllocError>
    ensures { IfOk result (λ v. AreSeated placed.now.design placed.now.rows v.items) }
{
    let design = placed.design();
    let rows = placed.rows();
    let mut standings = vec![in alloc; Standing::lower_left(); design.instances.items().len()]?;
    for row in 0..rows.len() as u16 {
        let seats = row_at(rows, row);
        enter_row(design, row, seats, standings.as_mut_slice());
    }
    Ok(standings)
}
