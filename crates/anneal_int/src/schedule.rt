//! How rows are annealed: first temperature, stages, changes for each instance, and what the cost weighs.

use row_board::Weights;
use std::marker::Model;

/// How rows are annealed: the temperature at first, 1 to 1,000,000,000; the number of stages and the number of changes of a stage for each instance, each at most 1,000; and
/// what the cost weighs. Every value keeps these ranges.
#[derive(Clone, Copy, Debug, PartialEq, Eq)]
pub struct Schedule {
    pub temperature: u64,
    pub stages: u64,
    pub moves: u64,
    pub weights: Weights,
}

impl Model for Schedule {
    ghost use Rattle.anneal_int.specs.Schedule.{Annealing};

    ghost Value = { Annealing };

    ghost use Rattle.anneal_int.specs.ScheduleView.{annealing_in, IsValid};

    ghost view = { annealing_in };

    ghost invariant = { IsValid };

    ghost inverse = { λ s. record { temperature = s.temperature; stages = s.stages; moves = s.moves; weights = s.weights } };
}
