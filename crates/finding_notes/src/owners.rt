//! The cell that a shape is of, and its net.

use crate::judged::JudgedLayout;
use crate::lengths::{shape_text, shown};
use crate::shape_nets::ShapeNets;
use crate::untold::Untold;
use geom_core::Cell;
use std::alloc::Global;

// The cell that a shape is of.
fn cell_of<'a>(judged: &JudgedLayout<'a>, shape: u32) -> Option<&'a Cell> {
    for cell in judged.layout.cells.items() {
        if cell.first <= shape && shape.saturating_sub(cell.first) < cell.count {
            return Some(cell);
        }
    }
    None
}

/// An outline, with the cell that it is of.
pub(crate) fn outline_text(
    alloc: Global,
    judged: &JudgedLayout<'_>,
    n: u32,
) -> Result<String, Untold> {
    let shape = shape_text(alloc, judged.shape(n)?)?;
    match cell_of(judged, n) {
        Some(cell) => {
            let name = shown(alloc, cell.name.items())?;
            Ok(format!(in alloc; "{shape} of cell {name}")?)
        }
        None => Ok(format!(in alloc; "{shape} of no cell")?),
    }
}

// The words for the cell of a shape, where it is of one.
fn cell_words(alloc: Global, judged: &JudgedLayout<'_>, shape: u32) -> Result<String, Untold> {
    match cell_of(judged, shape) {
        Some(cell) => {
            let name = shown(alloc, cell.name.items())?;
            Ok(format!(in alloc; " in cell {name}")?)
        }
        None => Ok(String::new(alloc)),
    }
}

// The words for the net of a shape, where the nets are known.
fn net_words(
    alloc: Global,
    judged: &JudgedLayout<'_>,
    nets: Option<&ShapeNets>,
    shape: u32,
) -> Result<String, Untold> {
    let Some(nets) = nets else {
        return Ok(String::new(alloc));
    };
    let Some(net) = nets.net_of(shape) else {
        return Ok(String::from_str(alloc, " of no net")?);
    };
    let signal = shown(alloc, judged.signal(net)?)?;
    Ok(format!(in alloc; " of net {signal}")?)
}

/// A wire or a cut, with the cell that it is in, if it is in one, and with its net, where the nets are known.
pub(crate) fn wire_text(
    alloc: Global,
    judged: &JudgedLayout<'_>,
    nets: Option<&ShapeNets>,
    n: u32,
) -> Result<String, Untold> {
    let shape = shape_text(alloc, judged.shape(n)?)?;
    let cell = cell_words(alloc, judged, n)?;
    let net = net_words(alloc, judged, nets, n)?;
    Ok(format!(in alloc; "{shape}{cell}{net}")?)
}
