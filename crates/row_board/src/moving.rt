//! Exchanges seats and turns them over, and enters the seats that moved into the table of instances.

ghost use Rattle.row_board.specs.Board.{AreSeated};
ghost use Rattle.row_board.specs.Moving.{AreExchanged, AreUnmoved, IsReach, in_order, left_of, moved_end, row_length};
ghost use Rattle.row_board.specs.NetCosts.{Tabled};
ghost use Rattle.row_board.specs.Standings.{IsEntered};
ghost use Rattle.row_model.specs.Changes.{mirrored, swapped};
ghost use Rattle.row_model.specs.Rows.{ArePlaced};
ghost use Rattle.std.specs.Prelude.{◌≡◌, ◌≢◌, ◌==◌, ◌<◌, ◌≤◌, ◌+◌, ℕ, length, slice_get};

use crate::net_costs::NetCosts;
use crate::seats::{put, row_at};
use crate::standings::Standing;
use geom_core::Items;
use limits::{MOST_INSTANCES, MOST_KIND_COLUMNS, MOST_PLACED_ROWS};
use row_model::Seat;

/// The seats of a row from a place up to another, which a change moves.
#[derive(Clone, Copy)]
pub(crate) struct MovedSeats {
    pub(crate) row: u16,
    pub(crate) from: usize,
    pub(crate) to: usize,
}

/// Which seats of its row move where the instance that stands there exchanges its place with another. Cells of one width, which are
/// `even`, move no others.
pub(crate) fn moved_seats(
    rows: &[Items<Seat>],
    one: Standing,
    other: Standing,
    even: bool,
) -> MovedSeats
    ensures row { result.row ≡ one.row }
    ensures from { result.from ≡ one.place }
    ensures to { result.to ≡ moved_end even (one.row == other.row) one.place other.place (row_length (slice_get rows.now one.row)) }
{
    let to = if even {
        one.place as usize + 1
    } else if one.row == other.row {
        one.place.max(other.place) as usize + 1
    } else {
        row_at(rows, one.row).len()
    };
    MovedSeats {
        row: one.row,
        from: one.place as usize,
        to,
    }
}

// The first column of the seat at a place, by where the seat before it stands.
fn left_of(costs: &NetCosts, seats: &[Seat], place: usize) -> u64
    ensures { result ≡ left_of costs.now.design costs.now.standings seats.now place }
{
    if place == 0 {
        return 0;
    }
    let Some(before) = seats.get(place - 1) else {
        return 0;
    };
    let standing = costs.standing(before.instance);
    standing.left + u64::from(costs.columns_of(before.instance))
}

/// Enters where the instances of the seats stand that a change moved. The seat before them is entered.
pub(crate) fn enter_reach(costs: &mut NetCosts, rows: &[Items<Seat>], reach: MovedSeats)
    requires placed { ArePlaced costs.old.design rows.now }
    requires count { length costs.old.standings ≡ length costs.old.design.instances }
    requires reach { IsReach rows.now reach }
    requires before { (k : ℕ) → k + 1 ≡ reach.from → IsEntered costs.old.design rows.now costs.old.standings reach.row k }
    ensures rest { costs.new ≡ record costs.old { standings = costs.new.standings } }
    ensures count { length costs.new.standings ≡ length costs.old.standings }
    ensures entered { (k : ℕ) → reach.from ≤ k → k < reach.to → IsEntered costs.old.design rows.now costs.new.standings reach.row k }
    ensures kept { (row k : ℕ) → IsEntered costs.old.design rows.now costs.old.standings row k → IsEntered costs.old.design rows.now costs.new.standings row k }
{
    // What every design keeps is known by this call.
    let _design = costs.design();
    let seats = row_at(rows, reach.row);
    let mut left = left_of(costs, seats, reach.from);
    for place in reach.from..reach.to {
        let seat = seats[place];
        let standing = Standing {
            row: reach.row,
            mirror: seat.mirror,
            place: place as u32,
            left,
        };
        let width = costs.columns_of(seat.instance);
        costs.put(seat.instance, standing);
        left += u64::from(width);
    }
}

// Two reaches, the one that begins at the lower place first.
fn in_order(one: MovedSeats, other: MovedSeats) -> (MovedSeats, MovedSeats)
    ensures { result ≡ in_order one other }
{
    if one.from <= other.from {
        (one, other)
    } else {
        (other, one)
    }
}

/// Two instances exchange their places, and a table still tells where those before stood: which seats moved, those that begin at the lower place first.
pub(crate) fn exchange_seats(
    rows: &mut [Items<Seat>],
    costs: &NetCosts,
    a: u32,
    b: u32,
) -> (MovedSeats, MovedSeats)
    requires seated { AreSeated costs.now.design rows.old costs.now.standings }
    requires apart { a ≢ b }
    requires a { a < length costs.now.design.instances }
    requires b { b < length costs.now.design.instances }
    ensures swapped { rows.new ≡ swapped a b rows.old }
    ensures placed { ArePlaced costs.now.design rows.new }
    ensures exchanged { AreExchanged costs.now.standings a b rows.old rows.new }
    ensures unmoved { AreUnmoved costs.now.design rows.new costs.now.standings result.0 result.1 }
{
    // What every design keeps is known by this call.
    let _design = costs.design();
    let one = costs.standing(a);
    let other = costs.standing(b);
    let even = costs.columns_of(a) == costs.columns_of(b);
    let reach = moved_seats(rows, one, other, even);
    let other_reach = moved_seats(rows, other, one, even);
    put(rows, one, other.seat(b));
    put(rows, other, one.seat(a));
    in_order(reach, other_reach)
}

/// An instance is turned over, and a table still tells how it stood before: which seat changed.
pub(crate) fn turn_seat(rows: &mut [Items<Seat>], costs: &NetCosts, a: u32) -> MovedSeats
    requires seated { AreSeated costs.now.design rows.old costs.now.standings }
    requires a { a < length costs.now.design.instances }
    ensures mirrored { rows.new ≡ mirrored a rows.old }
    ensures placed { ArePlaced costs.now.design rows.new }
    ensures unmoved { AreUnmoved costs.now.design rows.new costs.now.standings result result }
{
    // What every design keeps is known by this call.
    let _design = costs.design();
    let one = costs.standing(a);
    let seat = one.seat(a);
    let mirror = !seat.mirror;
    put(rows, one, Seat { mirror, ..seat });
    moved_seats(rows, one, one, true)
}
