//! What is told of open and short nets.

use crate::judged::JudgedLayout;
use crate::lengths::{shape_text, shown};
use crate::naming::pin_text;
use crate::pieces::pieces_text;
use crate::shape_nets::ShapeNets;
use crate::told::Told;
use crate::untold::Untold;
use crate::ways::way_text;
use std::alloc::Global;

// Where a pin is drawn: the shape of its first position.
fn pin_place(
    alloc: Global,
    judged: &JudgedLayout<'_>,
    nets: &ShapeNets,
    pin: u32,
) -> Result<String, Untold> {
    let name = pin_text(alloc, judged, pin)?;
    let shape = nets.shape_of_pin(pin).ok_or(Untold)?;
    let place = shape_text(alloc, judged.shape(shape)?)?;
    Ok(format!(in alloc; "{name} is {place}")?)
}

/// What is told of two pins of a net that hang apart: the net, its pieces, and where the pins are.
pub(crate) fn opened(
    alloc: Global,
    judged: &JudgedLayout<'_>,
    nets: &ShapeNets,
    p: u32,
    q: u32,
) -> Result<Told, Untold> {
    let net = shown(alloc, judged.signal(judged.pin(p)?.net)?)?;
    let pieces = pieces_text(alloc, judged, nets, p, q)?;
    let first = pin_place(alloc, judged, nets, p)?;
    let second = pin_place(alloc, judged, nets, q)?;
    Ok(Told {
        text: format!(in alloc; "net {net} hangs in {pieces}; {first}, {second}")?,
        first: nets.shape_of_pin(p),
        second: nets.shape_of_pin(q),
    })
}

/// What is told of two pins that are joined and are of different nets: both nets, where the pins are, and the shapes that join them.
pub(crate) fn shorted(
    alloc: Global,
    judged: &JudgedLayout<'_>,
    nets: &ShapeNets,
    p: u32,
    q: u32,
) -> Result<Told, Untold> {
    let net = shown(alloc, judged.signal(judged.pin(p)?.net)?)?;
    let other = shown(alloc, judged.signal(judged.pin(q)?.net)?)?;
    let first = pin_place(alloc, judged, nets, p)?;
    let second = pin_place(alloc, judged, nets, q)?;
    let way = way_text(alloc, judged, nets, p, q)?;
    Ok(Told {
        text: format!(in alloc; "net {net} and net {other} are joined; {first}, {second}{way}")?,
        first: nets.shape_of_pin(p),
        second: nets.shape_of_pin(q),
    })
}
