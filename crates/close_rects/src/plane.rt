//! Planes, so far apart that rectangles of different planes neither meet nor are close.

ghost use Rattle.close_rects.specs.Planes.{in_plane, plane_height};
ghost use Rattle.geom_core.specs.Reach.{IsExtentInReach};
ghost use Rattle.std.specs.Prelude.{◌≡◌, ◌<◌, ◌≤ℤ◌, pos};

use geom_core::Rect;

/// A rectangle in the plane of a number, 0 to 4. Its sides lie within 10^15 half centimicrons, and each plane lies 4 * 10^15 of these above
/// the one before, so that rectangles of different planes neither meet nor are close.
#[tactic(auto, using(std_laws::proofs::Integers::read_back, std::proofs::lemmas::Int::ints))]
pub fn in_plane(rect: &Rect, plane: u8) -> Rect
    requires reach { IsExtentInReach rect.now }
    requires plane { plane < 5 }
    ensures { result ≡ in_plane plane rect.now }
{
    let by = plane_height(plane);
    Rect {
        x0: rect.x0,
        y0: rect.y0 + by,
        x1: rect.x1,
        y1: rect.y1 + by,
    }
}

// How far a plane lies above the first.
#[tactic(auto, using(std_laws::proofs::Integers::read_back, std::proofs::lemmas::Int::ints))]
fn plane_height(plane: u8) -> i64
    requires { plane < 5 }
    ensures is { result ≡ plane_height plane }
    ensures low { pos 0 ≤ℤ result }
    ensures high { result ≤ℤ pos 16000000000000000 }
{
    i64::from(plane) * 4_000_000_000_000_000
}
