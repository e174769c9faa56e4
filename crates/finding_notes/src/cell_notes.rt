//! What is told of cells: missing, doubled and strange ones, and those that are drawn otherwise than their modules.

use crate::judged::JudgedLayout;
use crate::lengths::{microns, shape_text, shown};
use crate::naming::{cell_like, instance_like};
use crate::told::Told;
use crate::untold::Untold;
use geom_core::{Cell, Shape};
use std::alloc::Global;

/// The shapes of a cell.
pub(crate) fn shapes_of<'a>(judged: &JudgedLayout<'a>, cell: &Cell) -> &'a [Shape] {
    let shapes = judged.layout.shapes.items();
    let first = cell.first as usize;
    let count = cell.count as usize;
    if first <= shapes.len() && count <= shapes.len() - first {
        &shapes[first..first + count]
    } else {
        &[]
    }
}

/// The first shape of a cell.
pub(crate) fn first_of(cell: &Cell) -> Option<u32> {
    if cell.count == 0 {
        None
    } else {
        Some(cell.first)
    }
}

// The shape by which a cell is found: its first outline, and else its first shape.
fn mark_of<'a>(judged: &JudgedLayout<'a>, cell: &Cell) -> Option<&'a Shape> {
    let rules = judged.rules;
    let shapes = shapes_of(judged, cell);
    for shape in shapes {
        if shape.layer.text() == rules.outline.layer.text() {
            return Some(shape);
        }
    }
    shapes.first()
}

// Where a cell stands: its mark, and of a cell without shapes its offset.
fn place_text(alloc: Global, judged: &JudgedLayout<'_>, cell: &Cell) -> Result<String, Untold> {
    if let Some(shape) = mark_of(judged, cell) {
        return Ok(shape_text(alloc, shape)?);
    }
    let x = microns(alloc, cell.turn.dx)?;
    let y = microns(alloc, cell.turn.dy)?;
    Ok(format!(in alloc; "without shapes at ({x}, {y})")?)
}

/// What is told of an instance without a cell: its module, and a cell whose name differs in case alone.
pub(crate) fn missing(alloc: Global, judged: &JudgedLayout<'_>, i: u32) -> Result<Told, Untold> {
    let instance = judged.instance(i)?;
    let kind = shown(alloc, judged.kind(instance)?.name.items())?;
    let Some(cell) = cell_like(judged, instance.name.items()) else {
        let text = format!(in alloc; "no cell has the name of this instance of {kind}")?;
        return Ok(Told {
            text,
            first: None,
            second: None,
        });
    };
    let like = shown(alloc, cell.name.items())?;
    let text = format!(in alloc;
        "no cell has the name of this instance of {kind}; that of the cell {like} differs in case alone"
    )?;
    Ok(Told {
        text,
        first: first_of(cell),
        second: None,
    })
}

/// What is told of two cells of one name: their places.
pub(crate) fn doubled(
    alloc: Global,
    judged: &JudgedLayout<'_>,
    c: u32,
    d: u32,
) -> Result<Told, Untold> {
    let cell = judged.cell(c)?;
    let other = judged.cell(d)?;
    let here = place_text(alloc, judged, cell)?;
    let there = place_text(alloc, judged, other)?;
    Ok(Told {
        text: format!(in alloc; "two cells have this name, {here} and {there}")?,
        first: first_of(cell),
        second: first_of(other),
    })
}

// The words for an instance whose name differs from that of a cell in case alone.
fn like_words(alloc: Global, judged: &JudgedLayout<'_>, name: &[u8]) -> Result<String, Untold> {
    match instance_like(judged, name) {
        Some(like) => {
            let like = shown(alloc, like)?;
            Ok(format!(in alloc; "; that of {like} differs in case alone")?)
        }
        None => Ok(String::new(alloc)),
    }
}

/// What is told of a cell without an instance: its place and symbol, and an instance whose name differs in case alone.
pub(crate) fn strange(alloc: Global, judged: &JudgedLayout<'_>, c: u32) -> Result<Told, Untold> {
    let cell = judged.cell(c)?;
    let symbol = shown(alloc, cell.symbol.items())?;
    let place = place_text(alloc, judged, cell)?;
    let like = like_words(alloc, judged, cell.name.items())?;
    Ok(Told {
        text: format!(in alloc;
            "no instance has the name of this cell of symbol {symbol}, {place}{like}"
        )?,
        first: first_of(cell),
        second: None,
    })
}
