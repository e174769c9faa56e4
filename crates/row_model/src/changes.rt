//! The two changes of rows: two instances exchange their places, or one is turned over.

ghost use Rattle.row_model.specs.Changes.{exchanged, mirrored, seat_of, swapped, turned};
ghost use Rattle.std.specs.Prelude.{◌≡◌, ◌==◌, List, length, map, not};
ghost use Rattle.std.specs.List.{find};
ghost use Rattle.row_model.specs.declared.rows.Seat.{Seat as Place};

use crate::rows::{Rows, Seat};
use geom_core::Items;

/// Two instances exchange their places, each with its mirror. All else stays, and so does everything where one of both stands in no
/// row, or where both are the same. Takes no memory, and steps as the number of seats.
#[tactic(auto, unfolding(crate::specs::Changes::swapped))]
pub fn swap(rows: &mut Rows, a: u32, b: u32)
    ensures { rows.new ≡ swapped a b rows.old }
{
    let found = seat_of(rows.rows.items(), a);
    let other = seat_of(rows.rows.items(), b);
    if let (Some(one), Some(other)) = (found, other) {
        exchange_all(rows.rows.items_mut(), one, other);
    }
}

/// An instance is turned over: mirrored where it stood upright, and upright where it was mirrored. All else stays. Takes no memory, and
/// steps as the number of seats.
#[tactic(auto, unfolding(crate::specs::Changes::mirrored))]
pub fn mirror(rows: &mut Rows, a: u32)
    ensures { rows.new ≡ mirrored a rows.old }
{
    turn_all(rows.rows.items_mut(), a);
}

// The seat of an instance, if it has one.
#[tactic(auto, using(crate::proofs::ChangeLaws::seat_of_next))]
fn seat_of(rows: &[Items<Seat>], instance: u32) -> Option<Seat>
    ensures { result ≡ seat_of rows.now instance }
{
    let mut rest = rows;
    while let Some((seats, after)) = rest.split_first() {
        let found = seat_among(seats.items(), instance);
        if found.is_some() {
            return found;
        }
        rest = after;
    }
    None
}

// The seat of an instance among seats.
fn seat_among(seats: &[Seat], instance: u32) -> Option<Seat>
    ensures { result ≡ find (λ (s : Place). s.instance == instance) seats.now }
{
    seats.iter().copied().find(|s| s.instance == instance)
}

// What stands in a seat after two seats exchange their places.
fn exchanged(a: Seat, b: Seat, seat: Seat) -> Seat
    ensures { result ≡ exchanged a b seat }
{
    if seat.instance == a.instance {
        b
    } else if seat.instance == b.instance {
        a
    } else {
        seat
    }
}

// Two seats exchange their places in all rows.
fn exchange_all(rows: &mut [Items<Seat>], a: Seat, b: Seat)
    ensures { rows.new ≡ map (map (exchanged a b)) rows.old }
{
    for row in rows.iter_mut() {
        exchange_in(row.items_mut(), a, b);
    }
}

// And in one.
fn exchange_in(seats: &mut [Seat], a: Seat, b: Seat)
    ensures { seats.new ≡ map (exchanged a b) seats.old }
{
    for seat in seats.iter_mut() {
        *seat = exchanged(a, b, *seat);
    }
}

// A seat turned over, if it is that of an instance.
fn turned(instance: u32, seat: Seat) -> Seat
    ensures { result ≡ turned instance seat }
{
    if seat.instance == instance {
        Seat {
            instance: seat.instance,
            mirror: !seat.mirror,
        }
    } else {
        seat
    }
}

// An instance is turned over in all rows.
fn turn_all(rows: &mut [Items<Seat>], instance: u32)
    ensures { rows.new ≡ map (map (turned instance)) rows.old }
{
    for row in rows.iter_mut() {
        turn_in(row.items_mut(), instance);
    }
}

// And in one.
fn turn_in(seats: &mut [Seat], instance: u32)
    ensures { seats.new ≡ map (turned instance) seats.old }
{
    for seat in seats.iter_mut() {
        *seat = turned(instance, *seat);
    }
}
