//! The net of each shape, and the shapes of pins.

ghost use Rattle.geom_core.specs.Reach.{IsInReach, IsShapeInReach};
ghost use Rattle.std.specs.Prelude.{◌<◌, length, All, IsTrue};

use crate::judged::JudgedLayout;
use crate::pin_shapes::pin_shapes;
use crate::untold::Untold;
use geom_core::Shape;
use geom_extract::shape_classes;
use std::alloc::Global;
use std::collections::BTreeMap;

// The farthest that a side may lie from 0, in half centimicrons.
const FARTHEST: i64 = 1_000_000_000_000_000;

/// A number for each shape, equal where shapes are joined; the shape of each pin; and for each number the net of its first pin.
#[derive(Drop)]
pub(crate) struct ShapeNets {
    classes: Vec<u32>,
    pins: Vec<u32>,
    nets: BTreeMap<u32, u32>,
}

// Whether a number lies within reach.
fn is_in_reach(n: i64) -> bool
    ensures { IsTrue result → IsInReach n }
{
    -FARTHEST <= n && n <= FARTHEST
}

// Whether the sides of a shape lie within reach.
#[tactic(auto, using(std_laws::proofs::Integers::read_back))]
fn is_shape_in_reach(shape: &Shape) -> bool
    ensures { IsTrue result → IsShapeInReach shape.now }
{
    if !is_in_reach(shape.rect.x0) {
        return false;
    }
    if !is_in_reach(shape.rect.y0) {
        return false;
    }
    if !is_in_reach(shape.rect.x1) {
        return false;
    }
    is_in_reach(shape.rect.y1)
}

// Whether the sides of all shapes lie within reach.
fn are_in_reach(shapes: &[Shape]) -> bool
    ensures { IsTrue result → All IsShapeInReach shapes.now }
{
    shapes.iter().all(|shape| is_shape_in_reach(shape))
}

// Whether ties are between the first so many shapes.
fn are_among(ties: &[(u32, u32)], count: usize) -> bool
    ensures { IsTrue result → All (λ t. (t.0 < count) × (t.1 < count)) ties.now }
{
    ties.iter()
        .all(|tie| (tie.0 as usize) < count && (tie.1 as usize) < count)
}

// A number for each shape, equal where shapes are joined.
fn classes_of(
    alloc: Global,
    judged: &JudgedLayout<'_>,
    ties: &[(u32, u32)],
) -> Result<Vec<u32>, Untold> {
    let shapes = judged.layout.shapes.items();
    if shapes.len() > 0xffff_ffff {
        return Err(Untold);
    }
    if !are_in_reach(shapes) {
        return Err(Untold);
    }
    if !are_among(ties, shapes.len()) {
        return Err(Untold);
    }
    Ok(shape_classes(alloc, shapes, ties, judged.rules)?)
}

// Enters the net of a pin at a shape, where its number has none yet.
fn enter(nets: &mut BTreeMap<u32, u32>, class: u32, net: u32) -> Result<(), Untold> {
    if nets.get(&class).is_some() {
        return Ok(());
    }
    let _ = nets.insert(class, net)?;
    Ok(())
}

fn nets_in(alloc: Global, judged: &JudgedLayout<'_>) -> Result<ShapeNets, Untold> {
    let drawn = pin_shapes(alloc, judged)?;
    let ties = drawn.ties(alloc, judged)?;
    let classes = classes_of(alloc, judged, ties.as_slice())?;
    let mut pins = Vec::new(alloc);
    let mut nets = BTreeMap::new(alloc);
    for pin in judged.pins() {
        let shape = drawn.shape_of(judged, *pin)?;
        pins.push(shape)?;
        if let Some(class) = classes.as_slice().get(shape as usize) {
            enter(&mut nets, *class, pin.net)?;
        }
    }
    Ok(ShapeNets {
        classes,
        pins,
        nets,
    })
}

/// The nets of the shapes of a layout, whose cells are those of the design; None where memory is out.
pub(crate) fn shape_nets(alloc: Global, judged: &JudgedLayout<'_>) -> Option<ShapeNets> {
    nets_in(alloc, judged).ok()
}

impl ShapeNets {
    // The number of a shape.
    fn class_of(&self, shape: u32) -> Option<u32> {
        self.classes.as_slice().get(shape as usize).copied()
    }

    /// The shape of a pin's first position.
    pub(crate) fn shape_of_pin(&self, pin: u32) -> Option<u32> {
        self.pins.as_slice().get(pin as usize).copied()
    }

    /// The number of a pin, equal where shapes join pins.
    pub(crate) fn class_of_pin(&self, pin: u32) -> Option<u32> {
        self.class_of(self.shape_of_pin(pin)?)
    }

    /// The net of a shape.
    pub(crate) fn net_of(&self, shape: u32) -> Option<u32> {
        self.nets.get(&self.class_of(shape)?).copied()
    }

    /// The numbers of the shapes that are joined with a shape, in order, it among them. The one error is want of memory.
    pub(crate) fn joined_with(&self, alloc: Global, shape: u32) -> Result<Vec<u32>, Untold> {
        let wanted = self.class_of(shape).ok_or(Untold)?;
        let mut members = Vec::new(alloc);
        let mut number: u32 = 0;
        for class in self.classes.as_slice() {
            if *class == wanted {
                members.push(number)?;
            }
            number = number.saturating_add(1);
        }
        Ok(members)
    }
}
