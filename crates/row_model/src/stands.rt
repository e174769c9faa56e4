//! The row and the first column of an instance, found for one in the rows or for all in a table.

ghost use Rattle.row_model.specs.Stand.{Stand as Placed};
ghost use Rattle.row_model.specs.StandTables.{AreStands, stand_if};
ghost use Rattle.row_model.specs.Stands.{or_else, stand_in, stand_of};
ghost use Rattle.std.specs.Option.{option_map};
ghost use Rattle.std.specs.Prelude.{◌≡◌, ◌==◌, ◌≤◌, ℕ, Option, length, slice_get, IfOk};

use crate::placed::PlacedRows;
use crate::rows::Seat;
use crate::widths::columns_of;
use design_model::Design;
use limits::MOST_INSTANCES;
use std::alloc::{AllocError, Global};
use std::marker::Model;

/// Where an instance stands: its row, the first of its columns there, which is at most 2,000,000,000,000, and whether it is mirrored.
#[derive(Clone, Copy, Debug)]
pub struct Stand {
    pub row: u16,
    pub left: u64,
    pub mirror: bool,
}

impl Model for Stand {
    ghost use Rattle.row_model.specs.Stand.{Stand as Stood};

    ghost Value = { Stood };

    ghost use Rattle.row_model.specs.StandView.{stand_in, IsStandIn};

    ghost view = { stand_in };

    ghost invariant = { IsStandIn };

    ghost inverse = { λ s. record { row = s.row; left = s.left; mirror = s.mirror } };
}

// Where an instance stands among the seats of the row with this number, if it is one of them.
fn stand_in(design: &Design, row: u16, seats: &[Seat], instance: u32) -> Option<Stand>
    requires { length seats.now ≤ MOST_INSTANCES }
    ensures { result ≡ stand_in design.now row 0 seats.now instance }
{
    let mut left = 0;
    let mut rest = seats;
    while let Some((seat, after)) = rest.split_first() {
        if seat.instance == instance {
            return Some(Stand {
                row,
                left,
                mirror: seat.mirror,
            });
        }
        left += u64::from(columns_of(design, seat.instance));
        rest = after;
    }
    None
}

/// Where an instance stands in rows, if it stands there. Takes no memory.
pub(crate) fn stand_of(placed: &PlacedRows, instance: u32) -> Option<Stand>
    ensures { result ≡ stand_of placed.now.design placed.now.rows instance }
{
    let design = placed.design();
    let mut row = 0;
    let mut rest = placed.rows();
    while let Some((seats, after)) = rest.split_first() {
        let found = stand_in(design, row, seats.items(), instance);
        if found.is_some() {
            return found;
        }
        row += 1;
        rest = after;
    }
    None
}

/// Where each instance of a design stands, by the numbers of the instances. The one error is want of memory.
pub(crate) fn stands_of(
    alloc: Global,
    placed: &PlacedRows,
) -> Result<Vec<Option<Stand>>, AllocError>
    ensures { IfOk result (λ v. AreStands placed.now.design placed.now.rows v.items) }
{
    let design = placed.design();
    let mut stands = vec![in alloc; None; design.instances.items().len()]?;
    let mut row = 0;
    let mut rest = placed.rows();
    while let Some((seats, after)) = rest.split_first() {
        enter_row(design, row, seats.items(), stands.as_mut_slice());
        row += 1;
        rest = after;
    }
    Ok(stands)
}

// Enters where the instances of a row stand that have not been entered.
fn enter_row(design: &Design, row: u16, seats: &[Seat], stands: &mut [Option<Stand>])
    requires { length seats.now ≤ MOST_INSTANCES }
    ensures { (i : ℕ) → slice_get stands.new i ≡ option_map (λ (s : Option Placed). or_else s (stand_in design.now row 0 seats.now i)) (slice_get stands.old i) }
{
    let mut left = 0;
    let mut rest = seats;
    while let Some((seat, after)) = rest.split_first() {
        let stand = Stand {
            row,
            left,
            mirror: seat.mirror,
        };
        enter(stands, seat.instance, stand);
        left += u64::from(columns_of(design, seat.instance));
        rest = after;
    }
}

// Enters where an instance stands, unless it has been entered.
fn enter(stands: &mut [Option<Stand>], instance: u32, stand: Stand)
    ensures { (i : ℕ) → slice_get stands.new i ≡ option_map (λ (s : Option Placed). or_else s (stand_if (instance == i) stand)) (slice_get stands.old i) }
{
    let n = instance as usize;
    if n < stands.len() && stands[n].is_none() {
        stands[n] = Some(stand);
    }
}
