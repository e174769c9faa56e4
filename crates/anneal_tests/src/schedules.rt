//! Schedules with the weights of the sample rules, and rows that are the same.

use anneal_int::Schedule;
use row_board::Weights;
use row_model::{Rows, Seat};

/// The weights of the sample rules.
pub(crate) fn weights() -> Weights {
    Weights {
        row_cost: 4,
        length_cost: 1,
    }
}

/// A schedule with the weights of the sample rules; None where a number is out of its range.
pub(crate) fn schedule_of(temperature: u64, stages: u64, moves: u64) -> Option<Schedule> {
    if temperature == 0 || temperature > 1_000_000_000 || stages > 1000 || moves > 1000 {
        return None;
    }
    Some(Schedule {
        temperature,
        stages,
        moves,
        weights: weights(),
    })
}

/// Whether two placements have the same seats.
pub(crate) fn are_same(rows: &Rows, others: &Rows) -> bool {
    if rows.rows.items().len() != others.rows.items().len() {
        return false;
    }
    for (seats, others) in rows.rows.items().iter().zip(others.rows.items()) {
        if !are_same_seats(seats.items(), others.items()) {
            return false;
        }
    }
    true
}

fn are_same_seats(seats: &[Seat], others: &[Seat]) -> bool {
    seats == others
}
