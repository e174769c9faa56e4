//! The rectangles around what symbols draw: joined, moved under a turn, and tested for sides that are too far.

ghost use Rattle.cif_reader.specs.Bounds.{around_both, joined};
ghost use Rattle.cif_reader.specs.Sides.{AreSidesNear};
ghost use Rattle.cif_reader.specs.Table.{ReachesWithin};
ghost use Rattle.geom_core.specs.Turning.{moved};
ghost use Rattle.std.specs.Bool.{OnTrue};
ghost use Rattle.std.specs.Int.{int_max, int_min};
ghost use Rattle.std.specs.Option.{ForSome};
ghost use Rattle.std.specs.Prelude.{◌≡◌, ◌≤ℤ◌, option_map};

use crate::limit_passing::{far_side, wide};
use crate::near_turn::NearTurn;
use geom_core::{Rect, moved};

#[tactic(auto, using(std_laws::proofs::Integers::read_back))]
fn lesser(a: i64, b: i64) -> i64
    ensures is { result ≡ int_min a b }
    ensures first { result ≤ℤ a }
    ensures second { result ≤ℤ b }
{
    a.min(b)
}

#[tactic(auto, using(std_laws::proofs::Integers::read_back))]
fn greater(a: i64, b: i64) -> i64
    ensures is { result ≡ int_max a b }
    ensures first { a ≤ℤ result }
    ensures second { b ≤ℤ result }
{
    a.max(b)
}

#[tactic(auto, using(std_laws::proofs::Integers::read_back))]
fn around_both(a: Rect, b: Rect) -> Rect
    ensures { result ≡ around_both a b }
{
    Rect {
        x0: lesser(a.x0, b.x0),
        y0: lesser(a.y0, b.y0),
        x1: greater(a.x1, b.x1),
        y1: greater(a.y1, b.y1),
    }
}

/// The rectangle around two, where there are such.
pub(crate) fn joined(a: Option<Rect>, b: Option<Rect>) -> Option<Rect>
    ensures { result ≡ joined a b }
{
    match a {
        Some(a) => match b {
            Some(b) => Some(around_both(a, b)),
            None => Some(a),
        },
        None => b,
    }
}

/// The rectangle under a turn, where there is one.
pub(crate) fn moved_bounds(bounds: Option<Rect>, turn: &NearTurn) -> Option<Rect>
    requires { ForSome bounds (ReachesWithin 64) }
    ensures { result ≡ option_map (moved turn.now) bounds }
{
    match bounds {
        Some(rect) => Some(moved(&rect, turn.turn())),
        None => None,
    }
}

/// Whether no side of the rectangle is too far, where there is one.
pub(crate) fn are_near(bounds: Option<Rect>) -> bool
    ensures { OnTrue result (ForSome bounds AreSidesNear) }
{
    match bounds {
        Some(rect) => far_side(&wide(&rect)).is_none(),
        None => true,
    }
}
