//! Shapes that can be judged: fewer than 2^32, with sides within 10^15 half centimicrons.

ghost use Rattle.geom_core.specs.Reach.{IsShapeInReach};
ghost use Rattle.std.specs.Prelude.{◌≡◌, ◌<◌, ◌^◌, length, All};

use crate::layout::Shape;
use std::marker::Model;

/// Shapes that can be judged: fewer than 2^32, whose sides lie within 10^15 half centimicrons. Contracts see the list of them.
#[derive(Debug, Drop)]
pub struct ShapesInReach<'a> {
    shapes: &'a [Shape],
}

impl<'a> Model for ShapesInReach<'a> {
    ghost use Rattle.std.specs.Prelude.{List, ◌<◌, ◌^◌, length, All};
    ghost use Rattle.geom_core.specs.Reach.{IsShapeInReach};
    ghost use Rattle.geom_core.specs.declared.layout.Shape.{Shape};

    ghost Value = { List Shape };

    ghost view = { λ a. a.shapes.now };

    ghost invariant = { λ a. (length a.shapes.now < 2 ^ 32) × All IsShapeInReach a.shapes.now };
}

impl<'a> ShapesInReach<'a> {
    /// These shapes, as they can be judged. Takes no memory.
    pub fn new(shapes: &'a [Shape]) -> ShapesInReach<'a>
        requires few { length shapes.now < 2 ^ 32 }
        requires reach { All IsShapeInReach shapes.now }
        ensures { result ≡ shapes.entry.now }
    {
        ShapesInReach { shapes }
    }

    /// The shapes. Takes no memory.
    pub fn shapes(&self) -> &[Shape]
        ensures is { result.now ≡ self.now }
        ensures few { length result.now < 2 ^ 32 }
        ensures reach { All IsShapeInReach result.now }
    {
        self.shapes
    }
}
