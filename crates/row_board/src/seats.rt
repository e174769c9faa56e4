//! The seats of a row by its number, and a seat put at a place of a row.

ghost use Rattle.row_board.specs.Moving.{row_there};
ghost use Rattle.row_board.specs.Standings.{put_in};
ghost use Rattle.std.specs.Option.{option_map};
ghost use Rattle.std.specs.Prelude.{◌≡◌, ℕ, slice_get, slice_set};

use crate::standings::Standing;
use geom_core::Items;
use row_model::Seat;

/// The seats of a row, none where there is no such row.
pub(crate) fn row_at(rows: &[Items<Seat>], row: u16) -> &[Seat]
    ensures { result.now ≡ row_there (slice_get rows.now row) }
{
    match rows.get(row as usize) {
        Some(seats) => seats.items(),
        None => &[],
    }
}

/// Puts a seat where another stands, if there is this place.
pub(crate) fn put(rows: &mut [Items<Seat>], at: Standing, seat: Seat)
    ensures { (r : ℕ) → slice_get rows.new r ≡ option_map (put_in at.row at.place seat r) (slice_get rows.old r) }
{
    put_at(rows, at.row, at.place, seat);
}

// Puts a seat at a place of a row, where there is this place.
fn put_at(rows: &mut [Items<Seat>], row: u16, place: u32, seat: Seat)
    ensures { (r : ℕ) → slice_get rows.new r ≡ option_map (put_in row place seat r) (slice_get rows.old r) }
{
    let n = row as usize;
    if n < rows.len() {
        let seats = &mut rows[n];
        put_seat(seats.items_mut(), place as usize, seat);
    }
}

// Puts a seat at a place, where there is this place.
fn put_seat(seats: &mut [Seat], place: usize, seat: Seat)
    ensures { seats.new ≡ slice_set seats.old place seat }
{
    if place < seats.len() {
        seats[place] = seat;
    }
}
