//! What commands say in the unit of their numbers, before the scale of their definition.
ghost use Rattle.cif_text.specs.Printable.{IsCifNumber, IsSize};
ghost use Rattle.cif_text.specs.Scales.{around, box_around, doubled};
ghost use Rattle.std.specs.Prelude.{◌≡◌, ◌≤◌, ◌-ℤ◌, ◌+ℤ◌};

use std::marker::Model;

#[derive(Clone, Copy, Debug)]
struct Number {
    value: i64,
    ghost near: { IsCifNumber value },
}

#[derive(Clone, Copy, Debug)]
struct Size {
    value: i64,
    ghost is: { IsSize value },
}

/// The numbers of a box, which lies along y where `upright` is set.
#[derive(Clone, Copy, Debug)]
pub(crate) struct UnscaledBox {
    pub(crate) length: i64,
    pub(crate) width: i64,
    pub(crate) cx: i64,
    pub(crate) cy: i64,
    pub(crate) upright: bool,
    ghost length_is: { IsSize length },
    ghost width_is: { IsSize width },
    ghost cx_near: { IsCifNumber cx },
    ghost cy_near: { IsCifNumber cy },
}

/// The turn of a call.
#[derive(Clone, Copy, Debug)]
pub(crate) struct UnscaledTurn {
    pub(crate) flip: bool,
    pub(crate) quarters: u8,
    pub(crate) dx: i64,
    pub(crate) dy: i64,
    ghost turned: { quarters ≤ 3 },
    ghost across_near: { IsCifNumber dx },
    ghost up_near: { IsCifNumber dy },
}

/// The sides of a rectangle in half of the unit.
#[derive(Clone, Copy, Debug)]
pub(crate) struct Sides {
    pub(crate) x0: i64,
    pub(crate) y0: i64,
    pub(crate) x1: i64,
    pub(crate) y1: i64,
}

impl Model for Sides {
    ghost use Rattle.std.specs.Prelude.{◌<ℤ◌};
    ghost use Rattle.geom_core.specs.Extent.{Extent};

    ghost Value = { Extent };

    ghost view = { λ r. record { x0 = r.x0; y0 = r.y0; x1 = r.x1; y1 = r.y1 } };

    ghost invariant = { λ r. (r.x0 <ℤ r.x1) × (r.y0 <ℤ r.y1) };

    ghost inverse = { λ e. record { x0 = e.x0; y0 = e.y0; x1 = e.x1; y1 = e.y1 } };
}

impl Number {
    #[tactic(auto, using(std::proofs::lemmas::Int::ints))]
    fn doubled(self) -> i64
        ensures { result ≡ doubled self.value }
    {
        2 * self.value
    }

    // A side that lies so far below the doubled number, and one that lies as far above it.
    #[tactic(auto, using(std::proofs::lemmas::Int::ints))]
    fn side_below(self, half: Size) -> i64
        ensures { result ≡ doubled self.value -ℤ half.value }
    {
        2 * self.value - half.value
    }

    #[tactic(auto, using(std::proofs::lemmas::Int::ints))]
    fn side_above(self, half: Size) -> i64
        ensures { result ≡ doubled self.value +ℤ half.value }
    {
        2 * self.value + half.value
    }
}

#[tactic(auto, using(std_laws::proofs::Integers::read_back, std::proofs::lemmas::Int::ints))]
fn around(across: Size, up: Size, cx: Number, cy: Number) -> Sides
    ensures { result ≡ around across.value up.value cx.value cy.value }
{
    Sides {
        x0: cx.side_below(across),
        y0: cy.side_below(up),
        x1: cx.side_above(across),
        y1: cy.side_above(up),
    }
}

impl UnscaledBox {
    /// The rectangle of a box.
    pub(crate) fn sides(&self) -> Sides
        ensures { result ≡ box_around self.now.length self.now.width self.now.cx self.now.cy self.now.upright }
    {
        let length = Size { value: self.length };
        let width = Size { value: self.width };
        let cx = Number { value: self.cx };
        let cy = Number { value: self.cy };
        if self.upright {
            around(width, length, cx, cy)
        } else {
            around(length, width, cx, cy)
        }
    }
}

impl UnscaledTurn {
    /// The offset in x, in half of the unit.
    pub(crate) fn across(&self) -> i64
        ensures { result ≡ doubled self.now.dx }
    {
        Number { value: self.dx }.doubled()
    }

    /// The offset in y, in half of the unit.
    pub(crate) fn up(&self) -> i64
        ensures { result ≡ doubled self.now.dy }
    {
        Number { value: self.dy }.doubled()
    }
}
