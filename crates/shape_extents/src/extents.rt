//! The least rectangles round two others, and round shapes.

ghost use Rattle.shape_extents.specs.Extents.{around, around_all, extent_of};
ghost use Rattle.std.specs.Prelude.{◌≡◌};

use geom_core::{Rect, Shape};

/// The least rectangle round two. Takes no memory.
pub fn around(a: &Rect, b: &Rect) -> Rect
    ensures { result ≡ around a.now b.now }
{
    Rect {
        x0: a.x0.min(b.x0),
        y0: a.y0.min(b.y0),
        x1: a.x1.max(b.x1),
        y1: a.y1.max(b.y1),
    }
}

// That round one and those of shapes.
fn around_all(first: Rect, shapes: &[Shape]) -> Rect
    ensures { result ≡ around_all first shapes.now }
{
    let mut place = first;
    let mut rest = shapes;
    while let Some((shape, after)) = rest.split_first() {
        place = around(&place, &shape.rect);
        rest = after;
    }
    place
}

/// The least rectangle round shapes, or None exactly where there are none. Takes no memory.
pub fn extent_of(shapes: &[Shape]) -> Option<Rect>
    ensures { result ≡ extent_of shapes.now }
{
    match shapes.split_first() {
        Some((shape, others)) => Some(around_all(shape.rect, others)),
        None => None,
    }
}
