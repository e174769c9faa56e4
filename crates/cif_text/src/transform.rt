//! The steps of a call put together to one flip, quarter turns and an offset.

ghost use Rattle.cif_text.specs.Calls.{after, at_rest, mirrored, quarter_turned, translated, turned};
ghost use Rattle.cif_text.specs.Numbers.{greatest};
ghost use Rattle.cif_text.specs.Transforms.{IsWithin, step_seen};
ghost use Rattle.std.specs.Prelude.{◌≡◌, ◌<◌, ◌≤◌, ◌+◌, ◌+ℤ◌, ◌^◌, ℕ, IfOk, nat_abs};

use crate::directions::quarters_to;
use crate::fault::CifKind;
use crate::numbers::Number;
use std::marker::Model;

/// A step of a call's transformation.
#[derive(Clone, Copy, Debug)]
pub(crate) enum Step {
    /// Adds to x and y.
    Translate(Number, Number),
    /// Negates x.
    MirrorX,
    /// Negates y.
    MirrorY,
    /// Turns the x axis to this direction.
    Rotate(Number, Number),
}

/// What some steps of a call do together: x is negated where `flip` is set, then come `quarters` quarter turns,
/// counter-clockwise, 0 to 3 of them, and then the offset (`dx`, `dy`), which may pass what one number can be.
#[derive(Clone, Copy, Debug)]
pub(crate) struct Transform {
    pub(crate) flip: bool,
    pub(crate) quarters: u8,
    pub(crate) dx: i128,
    pub(crate) dy: i128,
}

impl Model for Transform {
    ghost use Rattle.std.specs.Prelude.{◌<◌, ◌≤◌, ◌^◌, nat_abs};
    ghost use Rattle.geom_core.specs.Turning.{Turning};

    ghost Value = { Turning };

    ghost view = { λ t. record { flip = t.flip; quarters = t.quarters; dx = t.dx; dy = t.dy } };

    ghost invariant = { λ t. (t.quarters < 4) × (nat_abs t.dx ≤ 2 ^ 120) × (nat_abs t.dy ≤ 2 ^ 120) };

    ghost inverse = { λ t. record { flip = t.flip; quarters = t.quarters; dx = t.dx; dy = t.dy } };
}

/// What no step does.
pub(crate) fn at_rest() -> Transform
    ensures { result ≡ at_rest }
{
    Transform {
        flip: false,
        quarters: 0,
        dx: 0,
        dy: 0,
    }
}

fn mirrored(t: Transform) -> Transform
    ensures is { result ≡ mirrored t }
    ensures within { (most : ℕ) → IsWithin most t → IsWithin most result }
{
    Transform {
        flip: !t.flip,
        quarters: (4 - t.quarters) % 4,
        dx: -t.dx,
        dy: t.dy,
    }
}

fn quarter_turned(t: Transform) -> Transform
    ensures is { result ≡ quarter_turned t }
    ensures within { (most : ℕ) → IsWithin most t → IsWithin most result }
{
    Transform {
        flip: t.flip,
        quarters: (t.quarters + 1) % 4,
        dx: -t.dy,
        dy: t.dx,
    }
}

fn turned(quarters: u8, t: Transform) -> Transform
    requires { quarters < 4 }
    ensures is { result ≡ turned quarters t }
    ensures within { (most : ℕ) → IsWithin most t → IsWithin most result }
{
    match quarters {
        0 => t,
        1 => quarter_turned(t),
        2 => quarter_turned(quarter_turned(t)),
        _ => quarter_turned(quarter_turned(quarter_turned(t))),
    }
}

#[tactic(auto, using(std::proofs::lemmas::Int::ints))]
fn plus(a: i128, b: Number) -> i128
    requires { nat_abs a ≤ 2 ^ 119 }
    ensures is { result ≡ a +ℤ b.value }
    ensures within { (most : ℕ) → nat_abs a ≤ most → nat_abs result ≤ most + greatest }
{
    a + i128::from(b.value)
}

fn translated(x: Number, y: Number, t: Transform) -> Transform
    requires { IsWithin (2 ^ 119) t }
    ensures is { result ≡ translated x.value y.value t }
    ensures within { (most : ℕ) → IsWithin most t → IsWithin (most + greatest) result }
{
    Transform {
        flip: t.flip,
        quarters: t.quarters,
        dx: plus(t.dx, x),
        dy: plus(t.dy, y),
    }
}

/// What a step does behind others; Turned where it has a direction that is not along an axis.
pub(crate) fn after(step: Step, t: Transform) -> Result<Transform, CifKind>
    requires { IsWithin (2 ^ 119) t }
    ensures is { result ≡ after (step_seen step) t }
    ensures within { (most : ℕ) → IsWithin most t → IfOk result (IsWithin (most + greatest)) }
{
    match step {
        Step::Translate(x, y) => Ok(translated(x, y, t)),
        Step::MirrorX => Ok(mirrored(t)),
        Step::MirrorY => Ok(turned(2, mirrored(t))),
        Step::Rotate(a, b) => match quarters_to(a.value, b.value) {
            Some(quarters) => Ok(turned(quarters, t)),
            None => Err(CifKind::Turned),
        },
    }
}
