//! Where an instance stands: row, place among the seats, first column, and whether it is mirrored.

use row_model::Seat;
use std::marker::Model;

/// Where an instance stands: its row, whether it is mirrored, its place among the seats of the row, and the first of its columns there. The row is one of 514, and the column
/// is at most 2,000,000,000,000, which every value keeps.
#[derive(Clone, Copy, Debug)]
pub(crate) struct Standing {
    pub(crate) row: u16,
    pub(crate) mirror: bool,
    pub(crate) place: u32,
    pub(crate) left: u64,
}

impl Model for Standing {
    ghost use Rattle.row_board.specs.Spot.{Spot};

    ghost Value = { Spot };

    ghost use Rattle.row_board.specs.SpotView.{spot_in, IsStanding};

    ghost view = { spot_in };

    ghost invariant = { IsStanding };

    ghost inverse = { λ s. record { row = s.row; mirror = s.mirror; place = s.place; left = s.left } };
}

impl Standing {
    ghost use Rattle.row_board.specs.Standings.{in_place_of, lower_left};
    ghost use Rattle.std.specs.Prelude.{◌≡◌};

    /// The lower left, where a table tells nothing.
    pub(crate) fn lower_left() -> Standing
        ensures { result ≡ lower_left }
    {
        Standing {
            row: 0,
            mirror: false,
            place: 0,
            left: 0,
        }
    }

    /// The seat of an instance that stands so.
    pub(crate) fn seat(self, instance: u32) -> Seat
        ensures { result ≡ record { instance = instance; mirror = self.mirror } }
    {
        Seat {
            instance,
            mirror: self.mirror,
        }
    }

    /// This place for another instance, which keeps its own mirror.
    pub(crate) fn taken_by(self, one: Standing) -> Standing
        ensures { result ≡ in_place_of self one }
    {
        Standing {
            row: self.row,
            mirror: one.mirror,
            place: self.place,
            left: self.left,
        }
    }
}
