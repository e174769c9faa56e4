//! A number for each shape, equal along chains of shapes that touch or are tied.

ghost use Rattle.geom_core.specs.Reach.{IsShapeInReach};
ghost use Rattle.geom_extract.specs.Touching.{Connected};
ghost use Rattle.std.specs.Prelude.{◌≡◌, ◌<◌, ◌↔◌, ◌^◌, length, slice_index, All, IfOk, ℕ};

use crate::tied_shapes::TiedShapes;
use geom_core::Shape;
use std::alloc::{AllocError, Global};
use tech_rules::Rules;

/// A number for each of these shapes, some pairs of which are tied: two shapes have equal numbers exactly where a chain leads from the
/// one to the other in which each shape touches the next or is tied to it. The one error is want of memory.
pub fn shape_classes(
    alloc: Global,
    shapes: &[Shape],
    ties: &[(u32, u32)],
    rules: &Rules,
) -> Result<Vec<u32>, AllocError>
    requires few { length shapes.now < 2 ^ 32 }
    requires reach { All IsShapeInReach shapes.now }
    requires ties { All (λ t. (t.0 < length shapes.now) × (t.1 < length shapes.now)) ties.now }
    ensures len { IfOk result (λ v. length v.items ≡ length shapes.now) }
    ensures classes { IfOk result (λ v. (x y : ℕ) → x < length v.items → y < length v.items → (slice_index v.items x ≡ slice_index v.items y) ↔ Connected rules.now shapes.now ties.now x y) }
{
    TiedShapes::new(shapes, ties, rules).classes(alloc)
}
