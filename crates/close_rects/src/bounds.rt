//! Four sides round rectangles or of a search window, turned inside out perhaps, and whether two such meet.

ghost use Rattle.close_rects.specs.Blocks.{inside_out};
ghost use Rattle.geom_core.specs.Reach.{IsExtentInWideReach};
ghost use Rattle.geom_core.specs.Rectangles.{Encloses, Meet, grown};
ghost use Rattle.std.specs.Prelude.{◌≡◌, ◌<ℤ◌, ◌≤ℤ◌, ◌↔◌, ◌-ℤ◌, pos, IsTrue};

use crate::reach::CloseLength;
use geom_core::Rect;
use std::marker::Model;

// Four sides, of which the left one may also lie right of the right one and the lower one above the upper one.
#[derive(Clone, Copy, PartialEq, Eq)]
pub(crate) struct Bounds {
    x0: i64,
    y0: i64,
    x1: i64,
    y1: i64,
}

impl Model for Bounds {
    ghost use Rattle.geom_core.specs.Extent.{Extent};

    ghost Value = { Extent };

    ghost view = { λ b. record { x0 = b.x0; y0 = b.y0; x1 = b.x1; y1 = b.y1 } };

    ghost inverse = { λ e. record { x0 = e.x0; y0 = e.y0; x1 = e.x1; y1 = e.y1 } };
}

impl Bounds {
    // Bounds in which nothing lies, and which nothing meets that lies within numbers of 64 bits.
    pub(crate) fn none() -> Bounds {
        Bounds {
            x0: i64::MAX,
            y0: i64::MAX,
            x1: i64::MIN,
            y1: i64::MIN,
        }
    }

    pub(crate) fn of(rect: &Rect) -> Bounds
        ensures same { result ≡ rect.now }
        ensures across { rect.now.x0 <ℤ rect.now.x1 }
        ensures up { rect.now.y0 <ℤ rect.now.y1 }
    {
        Bounds {
            x0: rect.x0,
            y0: rect.y0,
            x1: rect.x1,
            y1: rect.y1,
        }
    }

    // The bounds that just those rectangles meet whose two gaps from this one are both below `reach`.
    pub(crate) fn near(rect: &Rect, reach: CloseLength) -> Bounds
        requires { IsExtentInWideReach rect.now }
        ensures { result ≡ grown (reach.length -ℤ pos 1) rect.now }
    {
        let d = reach.length - 1;
        Bounds {
            x0: rect.x0 - d,
            y0: rect.y0 - d,
            x1: rect.x1 + d,
            y1: rect.y1 + d,
        }
    }

    // The sides of a rectangle, each in the place of the opposite one: just what holds the rectangle meets them.
    pub(crate) fn inside_out(rect: &Rect) -> Bounds
        ensures { result ≡ inside_out rect.now }
    {
        Bounds {
            x0: rect.x1,
            y0: rect.y1,
            x1: rect.x0,
            y1: rect.y0,
        }
    }

    // The least bounds round two.
    pub(crate) fn over(&self, other: &Bounds) -> Bounds
        ensures first { Encloses result self.now }
        ensures second { Encloses result other.now }
    {
        Bounds {
            x0: self.x0.min(other.x0),
            y0: self.y0.min(other.y0),
            x1: self.x1.max(other.x1),
            y1: self.y1.max(other.y1),
        }
    }

    pub(crate) fn meets(&self, other: &Bounds) -> bool
        ensures { IsTrue result ↔ Meet self.now other.now }
    {
        share(self.x0, self.x1, other.x0, other.x1) && share(self.y0, self.y1, other.y0, other.y1)
    }
}

// Whether each of two stretches ends at or after the beginning of the other.
fn share(low: i64, high: i64, other_low: i64, other_high: i64) -> bool
    ensures { IsTrue result ↔ ((low ≤ℤ other_high) × (other_low ≤ℤ high)) }
{
    low <= other_high && other_low <= high
}
