//! What a row between pins, and a column by which a row misses its width, weigh against a column of wire.

use std::marker::Model;

/// What annealing weighs against a column of wire: a row of distance between a net's pins, and a column by which a row's width differs from the target. Each is at most
/// 1,000, which every value keeps.
#[derive(Clone, Copy, Debug, PartialEq, Eq)]
pub struct Weights {
    pub row_cost: u64,
    pub length_cost: u64,
}

impl Model for Weights {
    ghost use Rattle.row_board.specs.Weights.{Weighing};
    ghost use Rattle.row_board.specs.WeightsView.{weighing_in, AreWeights};

    ghost Value = { Weighing };

    ghost view = { weighing_in };

    ghost invariant = { AreWeights };

    ghost inverse = { λ w. record { row_cost = w.row_cost; length_cost = w.length_cost } };
}
