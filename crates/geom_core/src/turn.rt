//! Flips, quarter turns and offsets of cells, the places of cells in rows, and rectangles that are turned.

ghost use Rattle.geom_core.specs.Reach.{IsExtentInReach, IsInReach};
ghost use Rattle.geom_core.specs.Turning.{flipped, moved, quarter_turned, quarters_turned, shifted};
ghost use Rattle.std.specs.Prelude.{◌≡◌, ◌<◌, ◌+ℤ◌, neg_ℤ};

use crate::rect::Rect;
use std::marker::Model;

/// How a cell's shapes are moved, as a CIF call does it: x is negated where `flip` is set, then come `quarters` turns by
/// 90 degrees counter-clockwise, 0 to 3 of them, and then the offset (`dx`, `dy`) in half centimicrons.
#[derive(Clone, Copy, Debug, PartialEq, Eq)]
pub struct Turn {
    pub flip: bool,
    pub quarters: u8,
    pub dx: i64,
    pub dy: i64,
}

impl Model for Turn {
    ghost use Rattle.std.specs.Prelude.{◌<◌};
    ghost use Rattle.geom_core.specs.Turning.{Turning};

    ghost Value = { Turning };

    ghost view = { λ t. record { flip = t.flip; quarters = t.quarters; dx = t.dx; dy = t.dy } };

    ghost invariant = { λ t. t.quarters < 4 };

    ghost inverse = { λ t. record { flip = t.flip; quarters = t.quarters; dx = t.dx; dy = t.dy } };
}

/// Where a cell of a row stands: x is negated where `mirror` is set, and then the offset (`dx`, `dy`) is added, in half
/// centimicrons. It is the turn with `flip` equal to `mirror` and without quarters.
#[derive(Clone, Copy, Debug, PartialEq, Eq)]
pub struct Place {
    pub dx: i64,
    pub dy: i64,
    pub mirror: bool,
}

/// The rectangle of the turned corners of a rectangle. Its sides and the turn's offset lie within 10^15. Takes no memory.
pub fn moved(a: &Rect, turn: &Turn) -> Rect
    requires rect { IsExtentInReach a.now }
    requires across { IsInReach turn.now.dx }
    requires up { IsInReach turn.now.dy }
    ensures { result ≡ moved turn.now a.now }
{
    let turned = quarters_turned(turn.quarters, flipped(turn.flip, *a));
    shifted(turn.dx, turn.dy, turned)
}

// The rectangle of which x is negated where `flip` is set.
#[tactic(auto, using(std_laws::proofs::Integers::read_back))]
fn flipped(flip: bool, rect: Rect) -> Rect
    requires { IsExtentInReach rect }
    ensures is { result ≡ flipped flip rect }
    ensures reach { IsExtentInReach result }
{
    if flip {
        Rect {
            x0: negated(rect.x1),
            y0: rect.y0,
            x1: negated(rect.x0),
            y1: rect.y1,
        }
    } else {
        rect
    }
}

// The rectangle after a quarter turn, counter-clockwise.
#[tactic(auto, using(std_laws::proofs::Integers::read_back))]
fn quarter_turned(rect: Rect) -> Rect
    requires { IsExtentInReach rect }
    ensures is { result ≡ quarter_turned rect }
    ensures reach { IsExtentInReach result }
{
    Rect {
        x0: negated(rect.y1),
        y0: rect.x0,
        x1: negated(rect.y0),
        y1: rect.x1,
    }
}

// The rectangle after so many quarter turns.
fn quarters_turned(quarters: u8, rect: Rect) -> Rect
    requires few { quarters < 4 }
    requires reach { IsExtentInReach rect }
    ensures is { result ≡ quarters_turned quarters rect }
    ensures reach { IsExtentInReach result }
{
    match quarters {
        0 => rect,
        1 => quarter_turned(rect),
        2 => quarter_turned(quarter_turned(rect)),
        _ => quarter_turned(quarter_turned(quarter_turned(rect))),
    }
}

// The rectangle with an offset.
#[tactic(auto, using(std_laws::proofs::Integers::read_back))]
fn shifted(dx: i64, dy: i64, rect: Rect) -> Rect
    requires rect { IsExtentInReach rect }
    requires across { IsInReach dx }
    requires up { IsInReach dy }
    ensures { result ≡ shifted dx dy rect }
{
    Rect {
        x0: plus(rect.x0, dx),
        y0: plus(rect.y0, dy),
        x1: plus(rect.x1, dx),
        y1: plus(rect.y1, dy),
    }
}

#[tactic(auto, using(std::proofs::lemmas::Int::ints))]
fn negated(n: i64) -> i64
    requires { IsInReach n }
    ensures is { result ≡ neg_ℤ n }
    ensures reach { IsInReach result }
{
    -n
}

#[tactic(auto, using(std::proofs::lemmas::Int::ints))]
fn plus(a: i64, b: i64) -> i64
    requires first { IsInReach a }
    requires second { IsInReach b }
    ensures { result ≡ a +ℤ b }
{
    a + b
}
