//! The scale of a definition, and box sides, corners and call offsets in half centimicrons, however far they are.

ghost use Rattle.cif_text.specs.Printable.{IsNearCorner, IsPart};
ghost use Rattle.cif_text.specs.Scales.{doubled_corner, scaled, scaled_corner, scaled_extent, scaled_natural, scaled_turning};
ghost use Rattle.std.specs.Prelude.{◌≡◌, ◌≤◌, ◌^◌, nat_abs, option_map, pos, IfSome};

use crate::unscaled::{Sides, UnscaledTurn};
use crate::wires::doubled_corner;
use geom_core::Corner;
use std::marker::Model;

/// The scale of a definition, whose numbers count as `a / b` centimicrons each.
#[derive(Clone, Copy, Debug)]
pub(crate) struct Scale {
    pub(crate) a: u64,
    pub(crate) b: u64,
    ghost a_is: { IsPart a },
    ghost b_is: { IsPart b },
}

/// The sides of a rectangle in half centimicrons, however far they are.
#[derive(Clone, Copy, Debug)]
pub(crate) struct WideSides {
    pub(crate) x0: i128,
    pub(crate) y0: i128,
    pub(crate) x1: i128,
    pub(crate) y1: i128,
}

impl Model for WideSides {
    ghost use Rattle.std.specs.Prelude.{◌<ℤ◌};
    ghost use Rattle.geom_core.specs.Extent.{Extent};

    ghost Value = { Extent };

    ghost view = { λ r. record { x0 = r.x0; y0 = r.y0; x1 = r.x1; y1 = r.y1 } };

    ghost invariant = { λ r. (r.x0 <ℤ r.x1) × (r.y0 <ℤ r.y1) };

    ghost inverse = { λ e. record { x0 = e.x0; y0 = e.y0; x1 = e.x1; y1 = e.y1 } };
}

/// A point in half centimicrons, however far it is.
#[derive(Clone, Copy, Debug)]
pub struct WideCorner {
    pub x: i128,
    pub y: i128,
}

impl Model for WideCorner {
    ghost use Rattle.geom_core.specs.declared.corner.Corner.{Corner};

    ghost Value = { Corner };

    ghost view = { λ c. record { x = c.x; y = c.y } };

    ghost inverse = { λ c. record { x = c.x; y = c.y } };
}

/// A call's turn in half centimicrons, however far its offset is.
#[derive(Clone, Copy, Debug)]
pub(crate) struct WideTurn {
    pub(crate) flip: bool,
    pub(crate) quarters: u8,
    pub(crate) dx: i128,
    pub(crate) dy: i128,
}

impl Model for WideTurn {
    ghost use Rattle.std.specs.Prelude.{◌<◌};
    ghost use Rattle.geom_core.specs.Turning.{Turning};

    ghost Value = { Turning };

    ghost view = { λ t. record { flip = t.flip; quarters = t.quarters; dx = t.dx; dy = t.dy } };

    ghost invariant = { λ t. t.quarters < 4 };

    ghost inverse = { λ t. record { flip = t.flip; quarters = t.quarters; dx = t.dx; dy = t.dy } };
}

impl Scale {
    /// The scale of the main level.
    pub(crate) fn whole() -> Scale
        ensures a { result.a ≡ 1 }
        ensures b { result.b ≡ 1 }
    {
        Scale { a: 1, b: 1 }
    }

    fn scaled_natural(self, n: u64) -> Option<i128>
        ensures is { result ≡ option_map (λ m. pos m) (scaled_natural self.a self.b n) }
        ensures small { IfSome result (λ z. nat_abs z ≤ 2 ^ 104) }
    {
        let product = u128::from(n) * u128::from(self.a);
        if product % u128::from(self.b) == 0 {
            Some((product / u128::from(self.b)) as i128)
        } else {
            None
        }
    }

    fn scaled(self, z: i64) -> Option<i128>
        ensures { result ≡ scaled self.a self.b z }
    {
        if z < 0 {
            Some(-self.scaled_natural(z.unsigned_abs())?)
        } else {
            self.scaled_natural(z.unsigned_abs())
        }
    }

    /// A rectangle at a scale, where its four sides are whole.
    #[tactic(auto, using(std_laws::proofs::Integers::read_back))]
    pub(crate) fn scaled_sides(self, sides: Sides) -> Option<WideSides>
        ensures { result ≡ scaled_extent self.a self.b sides }
    {
        let x0 = self.scaled(sides.x0)?;
        let y0 = self.scaled(sides.y0)?;
        let x1 = self.scaled(sides.x1)?;
        let y1 = self.scaled(sides.y1)?;
        Some(WideSides { x0, y0, x1, y1 })
    }

    /// A point at a scale, where its coordinates are whole.
    #[tactic(auto, using(std_laws::proofs::Integers::read_back))]
    pub(crate) fn scaled_corner(self, corner: Corner) -> Option<WideCorner>
        ensures { result ≡ scaled_corner self.a self.b corner }
    {
        let x = self.scaled(corner.x)?;
        let y = self.scaled(corner.y)?;
        Some(WideCorner { x, y })
    }

    /// A call's turn at a scale, where its offset is whole in half centimicrons.
    #[tactic(auto, using(std_laws::proofs::Integers::read_back))]
    pub(crate) fn scaled_turn(self, turn: UnscaledTurn) -> Option<WideTurn>
        ensures { result ≡ scaled_turning self.a self.b turn.flip turn.quarters turn.dx turn.dy }
    {
        let dx = self.scaled(turn.across())?;
        let dy = self.scaled(turn.up())?;
        Some(WideTurn {
            flip: turn.flip,
            quarters: turn.quarters,
            dx,
            dy,
        })
    }
}

/// A point of a level whose numbers count as `a / b` centimicrons each, where it is whole in half centimicrons. Takes no memory.
pub fn place_at_scale(a: u64, b: u64, place: Corner) -> Option<WideCorner>
    requires a { IsPart a }
    requires b { IsPart b }
    requires near { IsNearCorner place }
    ensures { result ≡ scaled_corner a b (doubled_corner place) }
{
    Scale { a, b }.scaled_corner(doubled_corner(place))
}
