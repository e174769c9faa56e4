//! The rectangle of a module, from the four corners of its DIMENSIONS.

ghost use Rattle.netlist_core.specs.Outline.{are_pairs, between, has_turns, IsOutlineOf, outline_of};
ghost use Rattle.std.specs.List.{AllByRecursion};
ghost use Rattle.std.specs.Prelude.{◌≡◌};
ghost use Rattle.yal_reader.specs.Kept.{IsCoordinate};

/// The rectangle of a module, in units: its least x and y, and its sides, which are above 0.
#[derive(Clone, Copy, Debug, PartialEq, Eq)]
pub(crate) struct Outline {
    pub(crate) left: i64,
    pub(crate) low: i64,
    pub(crate) width: u32,
    pub(crate) height: u32,
}

// A corner of a module that was read.
#[derive(Clone, Copy)]
struct Corner {
    x: i64,
    y: i64,
    ghost near_x: { IsCoordinate x },
    ghost near_y: { IsCoordinate y },
}

/// The outline whose four corners these are, as pairs of x and y in order, in either direction and from any corner on; None
/// where they are no corners of a rectangle with sides along the axes, in order. Takes no memory.
pub(crate) fn outline_of(corners: &[i64]) -> Option<Outline>
    requires { AllByRecursion IsCoordinate corners.now }
    ensures is { result ≡ outline_of corners.now }
    ensures corners { IsOutlineOf corners.now result }
{
    match corners {
        [x0, y0, x1, y1, x2, y2, x3, y3] => {
            if !has_turns((*x0, *y0), (*x1, *y1), (*x2, *y2), (*x3, *y3)) {
                return None;
            }
            between(Corner { x: *x0, y: *y0 }, Corner { x: *x2, y: *y2 })
        }
        _ => None,
    }
}

// Whether each pair is of one number twice.
#[tactic(auto, unfolding(crate::specs::Outline::are_pairs))]
fn are_pairs(a: (i64, i64), b: (i64, i64), c: (i64, i64), d: (i64, i64)) -> bool
    ensures { result ≡ are_pairs a.0 a.1 b.0 b.1 c.0 c.1 d.0 d.1 }
{
    a.0 == a.1 && b.0 == b.1 && c.0 == c.1 && d.0 == d.1
}

// Whether the sides between these corners go along x and along y in turn.
#[tactic(auto, unfolding(crate::specs::Outline::has_turns))]
fn has_turns(a: (i64, i64), b: (i64, i64), c: (i64, i64), d: (i64, i64)) -> bool
    ensures { result ≡ has_turns a.0 a.1 b.0 b.1 c.0 c.1 d.0 d.1 }
{
    are_pairs((a.1, b.1), (b.0, c.0), (c.1, d.1), (d.0, a.0))
        || are_pairs((a.0, b.0), (b.1, c.1), (c.0, d.0), (d.1, a.1))
}

// The outline between opposite corners, if they differ in x and in y.
#[tactic(auto, unfolding(crate::specs::Outline::between))]
fn between(a: Corner, c: Corner) -> Option<Outline>
    ensures { result ≡ between a.x a.y c.x c.y }
{
    if a.x == c.x {
        return None;
    }
    if a.y == c.y {
        return None;
    }
    Some(Outline {
        left: a.x.min(c.x),
        low: a.y.min(c.y),
        width: a.x.abs_diff(c.x) as u32,
        height: a.y.abs_diff(c.y) as u32,
    })
}
