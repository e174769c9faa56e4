//! The turn of a call whose offset lies within 4,000,000,000 half centimicrons.

ghost use Rattle.cif_reader.specs.Sides.{IsNearTurn, unless_far};
ghost use Rattle.std.specs.Prelude.{◌≡◌, ◌∷◌, [], IfOk};

use crate::limit_passing::near;
use crate::scales::WideTurn;
use geom_core::Turn;
use std::marker::Model;

/// A call's turn whose offset is not too far.
#[derive(Clone, Copy, Debug)]
pub(crate) struct NearTurn {
    turn: Turn,
}

impl Model for NearTurn {
    ghost use Rattle.geom_core.specs.Turning.{Turning};
    ghost use Rattle.cif_reader.specs.Sides.{IsNearTurn};

    ghost Value = { Turning };

    ghost view = { λ t. t.turn };

    ghost invariant = { λ t. IsNearTurn t.turn };

    ghost inverse = { λ t. record { turn = t } };
}

impl NearTurn {
    /// The turn, or the first number of its offset that is too far.
    #[tactic(auto, using(std_laws::proofs::Integers::read_back))]
    pub(crate) fn new(turn: &WideTurn) -> Result<NearTurn, i128>
        ensures is { result ≡ unless_far (turn.now.dx ∷ turn.now.dy ∷ []) turn.now }
        ensures near { IfOk result IsNearTurn }
    {
        let Some(dx) = near(turn.dx) else {
            return Err(turn.dx);
        };
        let Some(dy) = near(turn.dy) else {
            return Err(turn.dy);
        };
        let turn = Turn {
            flip: turn.flip,
            quarters: turn.quarters,
            dx,
            dy,
        };
        Ok(NearTurn { turn })
    }

    /// The turn.
    pub(crate) fn turn(&self) -> &Turn
        ensures is { result.now ≡ self.now }
        ensures near { IsNearTurn self.now }
    {
        &self.turn
    }
}
