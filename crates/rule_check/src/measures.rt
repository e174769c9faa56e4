//! Lengths in half centimicrons, rectangles compared with them, and rectangles grown by them.

ghost use Rattle.close_rects.specs.Items.{HasInside};
ghost use Rattle.geom_core.specs.Reach.{IsExtentInReach, IsInReach};
ghost use Rattle.geom_core.specs.Rectangles.{grown};
ghost use Rattle.rule_check.specs.Narrow.{has_sides, is_on, is_square};
ghost use Rattle.std.specs.Ordering.{int_eq};
ghost use Rattle.std.specs.Prelude.{◌≡◌, ◌≤◌, ◌≤ℤ◌, ◌+ℤ◌, int_le, pos};
ghost use Rattle.tech_rules.specs.Lengths.{length_in};

use geom_core::{LayerName, Rect, Shape};
use limits::MOST_LENGTH;
use tech_rules::Rules;

// A length in half centimicrons.
pub(crate) fn length_in(rules: &Rules, units: u32) -> i64
    ensures is { result ≡ length_in rules.now units }
    ensures low { pos 0 ≤ℤ result }
    ensures high { units ≤ MOST_LENGTH → result ≤ℤ pos 2000000 }
{
    2 * i64::from(units) * i64::from(rules.grid.centi)
}

pub(crate) fn is_on(layer: &LayerName, shape: &Shape) -> bool
    ensures { result ≡ is_on layer.now shape.now }
{
    shape.layer.text() == layer.text()
}

// Whether both sides are at least this long.
pub(crate) fn has_sides(side: i64, rect: &Rect) -> bool
    ensures { result ≡ has_sides side rect.now }
{
    let across = reaches(rect.x0, side, rect.x1);
    let up = reaches(rect.y0, side, rect.y1);
    across && up
}

pub(crate) fn is_square(side: i64, rect: &Rect) -> bool
    ensures is { result ≡ is_square side rect.now }
    ensures inside { HasInside rect.now }
{
    let across = fills(rect.x0, side, rect.x1);
    let up = fills(rect.y0, side, rect.y1);
    across && up
}

// Where a stretch of this length ends.
#[tactic(auto, using(std_laws::proofs::Integers::read_back, std::proofs::lemmas::Int::ints))]
fn end_of(low: i64, length: i64) -> i128
    ensures { result ≡ low +ℤ length }
{
    i128::from(low) + i128::from(length)
}

// Whether a stretch is at least this long.
#[tactic(auto, using(std_laws::proofs::Integers::read_back, std::proofs::lemmas::Int::ints))]
fn reaches(low: i64, length: i64, high: i64) -> bool
    ensures { result ≡ int_le (low +ℤ length) high }
{
    end_of(low, length) <= i128::from(high)
}

// Whether a stretch is just this long.
#[tactic(auto, using(std_laws::proofs::Integers::read_back, std::proofs::lemmas::Int::ints))]
fn fills(low: i64, length: i64, high: i64) -> bool
    ensures { result ≡ int_eq (low +ℤ length) high }
{
    end_of(low, length) == i128::from(high)
}

// A rectangle that reaches further on each side.
pub(crate) fn grown(rect: &Rect, by: i64) -> Rect
    requires reach { IsExtentInReach rect.now }
    requires low { pos 0 ≤ℤ by }
    requires high { by ≤ℤ pos 2000000 }
    ensures { result ≡ grown by rect.now }
{
    Rect {
        x0: rect.x0 - by,
        y0: rect.y0 - by,
        x1: rect.x1 + by,
        y1: rect.y1 + by,
    }
}
