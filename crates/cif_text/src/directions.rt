//! Directions along an axis, as quarter turns from the x axis.

ghost use Rattle.cif_text.specs.Answers.{quarters_along, upright_of};
ghost use Rattle.cif_text.specs.Calls.{quarters_to};
ghost use Rattle.cif_text.specs.Forms.{axis_of};
ghost use Rattle.std.specs.Prelude.{◌≡◌, ◌<◌, IfSome, if◌then◌else◌};

/// How many quarter turns, counter-clockwise, bring the x axis to a direction; None where that is not along an axis.
pub(crate) fn quarters_to(a: i64, b: i64) -> Option<u8>
    ensures value { result ≡ quarters_to a b }
    ensures few { IfSome result (λ quarters. quarters < 4) }
{
    if b == 0 {
        return quarters_along(a, false);
    }
    if a == 0 {
        return quarters_along(b, true);
    }
    None
}

/// The quarter turns to the positive side of the x axis, or of the y axis where `upright` is set, or two more to its negative side.
fn quarters_along(z: i64, upright: bool) -> Option<u8>
    ensures { result ≡ quarters_along z (if upright then 1 else 0) }
{
    let quarters = if upright { 1 } else { 0 };
    if z > 0 {
        return Some(quarters);
    }
    if z < 0 {
        return Some(quarters + 2);
    }
    None
}

/// Whether a direction lies along y; None where it lies along no axis.
pub(crate) fn is_upright(dx: i64, dy: i64) -> Option<bool>
    ensures { result ≡ upright_of (axis_of dx dy) }
{
    let quarters = quarters_to(dx, dy)?;
    Some(quarters % 2 == 1)
}
