//! What the lines of a model gave so far.

use crate::file::{BlifWord, Gate, Join};
use std::marker::Model;

/// The words of inputs and outputs, the gates, the words that are joined and the constant nets of the lines so far. Contracts see the five lists.
#[derive(Debug, Drop)]
pub(crate) struct Found {
    pub(crate) inputs: Vec<BlifWord>,
    pub(crate) outputs: Vec<BlifWord>,
    pub(crate) gates: Vec<Gate>,
    pub(crate) joins: Vec<Join>,
    pub(crate) constants: Vec<BlifWord>,
}

impl Model for Found {
    ghost use Rattle.blif_reader.specs.Parts.{Parts};

    ghost Value = { Parts };

    ghost view = { λ f. record { inputs = f.inputs.items; outputs = f.outputs.items; gates = f.gates.items; joins = f.joins.items; constants = f.constants.items } };
}
