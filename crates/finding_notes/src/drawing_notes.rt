//! What is told of a cell that is drawn otherwise than its module: what differs first.

use crate::cell_notes::{first_of, shapes_of};
use crate::judged::JudgedLayout;
use crate::lengths::{Sides, placed, shape_text, shown, sides_of};
use crate::told::Told;
use crate::untold::Untold;
use design_model::{Inst, drawing};
use geom_core::{Cell, Rect, Shape, Turn};
use std::alloc::{AllocError, Global};

// The sides of a rectangle under a turn without quarters.
fn moved_sides(rect: &Rect, turn: &Turn) -> Sides {
    let (x0, x1) = if turn.flip {
        (rect.x1.wrapping_neg(), rect.x0.wrapping_neg())
    } else {
        (rect.x0, rect.x1)
    };
    Sides {
        x0: x0.wrapping_add(turn.dx),
        y0: rect.y0.wrapping_add(turn.dy),
        x1: x1.wrapping_add(turn.dx),
        y1: rect.y1.wrapping_add(turn.dy),
    }
}

// Whether a shape is this one of a drawing under a turn.
fn is_moved(shape: &Shape, drawn: &Shape, turn: &Turn) -> bool {
    let is_there = sides_of(&shape.rect) == moved_sides(&drawn.rect, turn);
    shape.layer.text() == drawn.layer.text() && is_there
}

// The drawing of a kind.
fn drawing_of(alloc: Global, judged: &JudgedLayout<'_>, kind: u32) -> Result<Vec<Shape>, Untold> {
    let design = judged.design;
    let rules = judged.rules;
    let Some(found) = design.kinds.items().get(kind as usize) else {
        return Err(Untold);
    };
    let least = 2 * u64::from(rules.grid.pin) + u64::from(rules.vertical.space);
    if u64::from(found.height) < least {
        return Err(Untold);
    }
    Ok(drawing(alloc, design, rules, kind)?)
}

// The first shapes, of a cell and of a drawing, in which they differ, with the next ones.
#[derive(Clone, Copy)]
struct Difference<'a> {
    shape: Option<&'a Shape>,
    next_shape: Option<&'a Shape>,
    drawn: Option<&'a Shape>,
    next_drawn: Option<&'a Shape>,
}

// Where shapes first differ from a drawing under a turn.
fn first_difference<'a>(shapes: &'a [Shape], drawn: &'a [Shape], turn: &Turn) -> Difference<'a> {
    let mut same: usize = 0;
    for (shape, other) in shapes.iter().zip(drawn) {
        if !is_moved(shape, other, turn) {
            break;
        }
        same = same.saturating_add(1);
    }
    let next = same.saturating_add(1);
    Difference {
        shape: shapes.get(same),
        next_shape: shapes.get(next),
        drawn: drawn.get(same),
        next_drawn: drawn.get(next),
    }
}

// Whether both are there, and the shape is this one of a drawing under a turn.
fn is_same(shape: Option<&Shape>, drawn: Option<&Shape>, turn: &Turn) -> bool {
    match (shape, drawn) {
        (Some(shape), Some(drawn)) => is_moved(shape, drawn, turn),
        _ => false,
    }
}

// A shape of a drawing under a turn.
fn drawn_text(alloc: Global, drawn: &Shape, turn: &Turn) -> Result<String, AllocError> {
    placed(alloc, &drawn.layer, &moved_sides(&drawn.rect, turn))
}

// The words for a shape more than a module has.
fn more_words(alloc: Global, kind: &String, shape: &Shape) -> Result<String, AllocError> {
    let kind = kind.as_str();
    let shape = shape_text(alloc, shape)?;
    format!(in alloc; "{kind} has no {shape}")
}

// The words for a shape that a cell lacks.
fn lack_words(
    alloc: Global,
    kind: &String,
    drawn: &Shape,
    turn: &Turn,
) -> Result<String, AllocError> {
    let kind = kind.as_str();
    let drawn = drawn_text(alloc, drawn, turn)?;
    format!(in alloc; "it lacks {drawn} of {kind}")
}

// The words for a shape that stands for another.
fn other_words(
    alloc: Global,
    kind: &String,
    shape: &Shape,
    drawn: &Shape,
    turn: &Turn,
) -> Result<String, AllocError> {
    let kind = kind.as_str();
    let shape = shape_text(alloc, shape)?;
    let drawn = drawn_text(alloc, drawn, turn)?;
    format!(in alloc; "it has {shape}, and {kind} has {drawn} there")
}

// The words for a difference from a module's drawing: a shape more, one that is lacking, or another one.
fn difference_words(
    alloc: Global,
    kind: &String,
    found: &Difference<'_>,
    turn: &Turn,
) -> Result<String, Untold> {
    let words = match (found.shape, found.drawn) {
        (None, None) => return Err(Untold),
        (Some(shape), None) => more_words(alloc, kind, shape),
        (None, Some(drawn)) => lack_words(alloc, kind, drawn, turn),
        (Some(shape), Some(drawn)) => {
            if is_same(found.next_shape, found.drawn, turn) {
                more_words(alloc, kind, shape)
            } else if is_same(found.shape, found.next_drawn, turn) {
                lack_words(alloc, kind, drawn, turn)
            } else {
                other_words(alloc, kind, shape, drawn, turn)
            }
        }
    };
    Ok(words?)
}

// The words for a turn by quarters.
fn turn_words(alloc: Global, turn: &Turn) -> Result<String, AllocError> {
    let how = match (turn.quarters, turn.flip) {
        (1, false) => "it is turned by 90 degrees",
        (2, false) => "it is turned by 180 degrees",
        (3, false) => "it is turned by 270 degrees",
        (2, true) => "it is upside down",
        _ => "it is mirrored and turned by quarters",
    };
    format!(in alloc; "{how}, and cells stand upright, mirrored by M X at most")
}

// What differs first in a cell from the module of its instance.
fn words_for(
    alloc: Global,
    judged: &JudgedLayout<'_>,
    cell: &Cell,
    instance: &Inst,
) -> Result<String, Untold> {
    let name = judged.kind(instance)?.name.items();
    let kind = shown(alloc, name)?;
    if cell.symbol.items() != name {
        let symbol = shown(alloc, cell.symbol.items())?;
        return Ok(format!(in alloc; "its symbol is {symbol}, and the instance is one of {kind}")?);
    }
    if cell.turn.quarters != 0 {
        return Ok(turn_words(alloc, &cell.turn)?);
    }
    let drawn = drawing_of(alloc, judged, instance.kind)?;
    let found = first_difference(shapes_of(judged, cell), drawn.as_slice(), &cell.turn);
    difference_words(alloc, &kind, &found, &cell.turn)
}

// The instance of a name.
fn instance_of<'a>(judged: &JudgedLayout<'a>, name: &[u8]) -> Result<&'a Inst, Untold> {
    for instance in judged.instances() {
        if instance.name.items() == name {
            return Ok(instance);
        }
    }
    Err(Untold)
}

/// What is told of a cell that is drawn otherwise than its instance's module.
pub(crate) fn misdrawn(alloc: Global, judged: &JudgedLayout<'_>, c: u32) -> Result<Told, Untold> {
    let cell = judged.cell(c)?;
    let instance = instance_of(judged, cell.name.items())?;
    Ok(Told {
        text: words_for(alloc, judged, cell, instance)?,
        first: first_of(cell),
        second: None,
    })
}
