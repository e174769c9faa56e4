//! The layers of wires and cuts, each in a plane of its own, so that no shape meets one of another layer.

ghost use Rattle.geom_core.specs.Reach.{IsExtentInReach};
ghost use Rattle.geom_extract.specs.Planes.{number_of, plane_of, raised, tie_at};
ghost use Rattle.std.specs.Prelude.{◌≡◌, ◌≤◌};

use close_rects::in_plane;
use geom_core::{LayerName, Rect};
use tech_rules::Rules;

// Which layer a shape is of, as far as shapes conduct to one another.
#[derive(Clone, Copy, Debug, PartialEq, Eq)]
pub(crate) enum Plane {
    Horizontal,
    Vertical,
    Cut,
    Other,
}

pub(crate) fn plane_of(rules: &Rules, layer: &LayerName) -> Plane
    ensures { result ≡ plane_of rules.now layer.now }
{
    let text = layer.text();
    if text == rules.horizontal.layer.text() {
        Plane::Horizontal
    } else if text == rules.vertical.layer.text() {
        Plane::Vertical
    } else if text == rules.cut.layer.text() {
        Plane::Cut
    } else {
        Plane::Other
    }
}

// The number of a layer's plane.
fn number_of(plane: Plane) -> u8
    ensures is { result ≡ number_of plane }
    ensures few { result ≤ 3 }
{
    match plane {
        Plane::Horizontal => 0,
        Plane::Vertical => 1,
        Plane::Cut => 2,
        Plane::Other => 3,
    }
}

// A rectangle in the plane of a layer.
pub(crate) fn raised(rect: &Rect, plane: Plane) -> Rect
    requires { IsExtentInReach rect.now }
    ensures { result ≡ raised plane rect.now }
{
    in_plane(rect, number_of(plane))
}

// A rectangle above all layers that meets that of no other shape.
pub(crate) fn tie_at(shape: u32) -> Rect
    ensures { result ≡ tie_at shape }
{
    let x = 2 * i64::from(shape);
    Rect {
        x0: x,
        y0: 16_000_000_000_000_000,
        x1: x + 1,
        y1: 16_000_000_000_000_001,
    }
}
