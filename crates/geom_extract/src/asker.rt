//! What a shape asks for others with.

use crate::plane::{Plane, raised, tie_at};
use geom_core::Rect;
use std::marker::Model;

// The three rectangles with which a shape asks for others.
#[derive(Clone, Copy)]
pub(crate) struct Asks {
    pub(crate) first: Rect,
    pub(crate) second: Rect,
    pub(crate) third: Rect,
}

// The same in short: a shape's rectangle, its layer and its number. Contracts see the three rectangles.
#[derive(Drop)]
pub(crate) struct Asker {
    rect: Rect,
    plane: Plane,
    number: u32,
}

impl Model for Asker {
    ghost use Rattle.geom_extract.specs.Asking.{asks_in, IsAsker};
    ghost use Rattle.geom_extract.specs.declared.asker.Asks.{Asks as Asked};

    ghost Value = { Asked };

    ghost view = { asks_in };

    ghost invariant = { IsAsker };
}

impl Asker {
    ghost use Rattle.geom_core.specs.Reach.{IsExtentInReach};
    ghost use Rattle.geom_extract.specs.Asking.{asks_of};
    ghost use Rattle.std.specs.Prelude.{◌≡◌};

    // A shape of this rectangle, layer and number.
    pub(crate) fn new(plane: Plane, rect: &Rect, number: u32) -> Asker
        requires { IsExtentInReach rect.now }
        ensures { result ≡ asks_of plane rect.now number }
    {
        Asker {
            rect: *rect,
            plane,
            number,
        }
    }

    // What it asks with.
    pub(crate) fn asks(&self) -> Asks
        ensures { result ≡ self.now }
    {
        let rect = &self.rect;
        let third = tie_at(self.number);
        match self.plane {
            Plane::Horizontal => Asks {
                first: raised(rect, Plane::Horizontal),
                second: raised(rect, Plane::Cut),
                third,
            },
            Plane::Vertical => Asks {
                first: raised(rect, Plane::Vertical),
                second: raised(rect, Plane::Cut),
                third,
            },
            Plane::Cut => Asks {
                first: raised(rect, Plane::Horizontal),
                second: raised(rect, Plane::Vertical),
                third,
            },
            Plane::Other => Asks {
                first: third,
                second: third,
                third,
            },
        }
    }
}
