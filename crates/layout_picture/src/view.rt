//! What a picture shows of a layout, and what its layers are called.

ghost use Rattle.geom_core.specs.Extent.{Extent};
ghost use Rattle.layout_picture.specs.Frame.{bare_frame, do_meet, do_overlap, frame_around, frame_of};
ghost use Rattle.std.specs.Prelude.{◌≡◌};

use geom_core::{LayerName, Layout, Rect, Shape};
use shape_extents::extent_of;

/// The layers of a process by what they are for.
#[derive(Clone, Copy, Debug)]
pub struct Roles {
    pub horizontal: LayerName,
    pub vertical: LayerName,
    pub cut: LayerName,
    pub outline: LayerName,
}

/// What a picture shows of a layout: a part of it, in half centimicrons, or all of it; and what its layers are for, where that is known.
#[derive(Clone, Copy, Debug)]
pub struct View {
    pub part: Option<Rect>,
    pub roles: Option<Roles>,
}

// A square of a micron, the frame of a picture without shapes.
fn bare_frame() -> Rect
    ensures { result ≡ bare_frame }
{
    Rect {
        x0: 0,
        y0: 0,
        x1: 200,
        y1: 200,
    }
}

// The frame round all shapes.
fn frame_around(shapes: &[Shape]) -> Rect
    ensures { result ≡ frame_around shapes.now }
{
    match extent_of(shapes) {
        Some(extent) => extent,
        None => bare_frame(),
    }
}

/// The frame of a picture.
pub(crate) fn frame_of(layout: &Layout, view: &View) -> Rect
    ensures { result ≡ frame_of layout.now view.now }
{
    match view.part {
        Some(part) => part,
        None => frame_around(layout.shapes.items()),
    }
}

// Whether two stretches share a point.
fn do_overlap(low: i64, high: i64, other_low: i64, other_high: i64) -> bool
    ensures { result ≡ do_overlap low high other_low other_high }
{
    low <= other_high && other_low <= high
}

/// Whether two closed rectangles share a point.
pub(crate) fn do_meet(a: &Rect, b: &Rect) -> bool
    ensures { result ≡ do_meet a.now b.now }
{
    do_overlap(a.x0, a.x1, b.x0, b.x1) && do_overlap(a.y0, a.y1, b.y0, b.y1)
}
