//! Rectangles: whether two touch, the gaps between them, and whether one lies in the other.

ghost use Rattle.geom_core.specs.Reach.{IsExtentInWideReach};
ghost use Rattle.geom_core.specs.Rectangles.{Encloses, Meet, gap, gap_between};
ghost use Rattle.std.specs.Prelude.{◌≡◌, ◌≤ℤ◌, ◌↔◌, negsuc, pos, IsTrue};

use std::marker::Model;

/// A rectangle of the layout, with sides along the axes, in half centimicrons.
/// The left side lies at `x0` and the right one at `x1`, above `x0`; the lower side lies at `y0` and the upper one
/// at `y1`, above `y0`.
#[derive(Clone, Copy, Debug, PartialEq, Eq)]
pub struct Rect {
    pub x0: i64,
    pub y0: i64,
    pub x1: i64,
    pub y1: i64,
}

impl Model for Rect {
    ghost use Rattle.std.specs.Prelude.{◌<ℤ◌};
    ghost use Rattle.geom_core.specs.Extent.{Extent};

    ghost Value = { Extent };

    ghost view = { λ r. record { x0 = r.x0; y0 = r.y0; x1 = r.x1; y1 = r.y1 } };

    ghost invariant = { λ r. (r.x0 <ℤ r.x1) × (r.y0 <ℤ r.y1) };

    ghost inverse = { λ e. record { x0 = e.x0; y0 = e.y0; x1 = e.x1; y1 = e.y1 } };
}

/// Whether two closed rectangles share a point. Takes no memory.
pub fn touch(a: &Rect, b: &Rect) -> bool
    ensures { IsTrue result ↔ Meet a.now b.now }
{
    a.x0 <= b.x1 && b.x0 <= a.x1 && a.y0 <= b.y1 && b.y0 <= a.y1
}

/// The gaps between two rectangles in x and in y, in half centimicrons: the greater beginning less the lesser end, below
/// 0 where they overlap. Their sides lie within 10^16. Takes no memory.
pub fn gap(a: &Rect, b: &Rect) -> (i64, i64)
    requires first { IsExtentInWideReach a.now }
    requires second { IsExtentInWideReach b.now }
    ensures { result ≡ gap a.now b.now }
{
    (
        gap_between(a.x0, a.x1, b.x0, b.x1),
        gap_between(a.y0, a.y1, b.y0, b.y1),
    )
}

// The gap between two stretches.
fn gap_between(low: i64, high: i64, other_low: i64, other_high: i64) -> i64
    requires low { negsuc 9999999999999999 ≤ℤ low }
    requires high { high ≤ℤ pos 10000000000000000 }
    requires some { low ≤ℤ high }
    requires other_low { negsuc 9999999999999999 ≤ℤ other_low }
    requires other_high { other_high ≤ℤ pos 10000000000000000 }
    requires other_some { other_low ≤ℤ other_high }
    ensures { result ≡ gap_between low high other_low other_high }
{
    let begin = other_low.max(low);
    let end = high.min(other_high);
    begin - end
}

/// Whether the first rectangle lies in the second. Takes no memory.
pub fn inside(a: &Rect, b: &Rect) -> bool
    ensures { IsTrue result ↔ Encloses b.now a.now }
{
    b.x0 <= a.x0 && b.y0 <= a.y0 && a.x1 <= b.x1 && a.y1 <= b.y1
}
