//! Notes on the pins of a module that is no cell on the grid of the rules.

use crate::design_again::{Design, Terminals, terminals_of};
use crate::design_notes::plain;
use crate::shape_notes::Outline;
use indexmap::IndexSet;
use list_facts::is_among;
use std::alloc::{AllocError, Global};
use text_places::{Shown, Sought, Told, line_of, place_of, units};
use yal_reader::{Line, Module, Spot};

/// A line with a spot that counts, and its number among the lines of its module.
#[derive(Clone, Copy)]
struct Pin<'m> {
    number: usize,
    line: &'m Line,
    spot: &'m Spot,
}

// The pin of a line, where it has one.
fn pin_of<'m>(terminals: &Terminals<'m>, number: usize, line: &'m Line) -> Option<Pin<'m>> {
    if is_among(&terminals.power, line.name.items()) {
        return None;
    }
    match &line.spot {
        Some(spot) => Some(Pin { number, line, spot }),
        None => None,
    }
}

// Whether a pin is at neither edge.
fn is_inside(outline: Outline, spot: &Spot) -> bool {
    spot.y != outline.low && spot.y != outline.low.saturating_add(outline.height)
}

// Whether a pin is not in the middle of a column inside the module.
fn is_beside(outline: Outline, pitch: i64, spot: &Spot) -> bool {
    let from = spot.x.saturating_sub(outline.left);
    if from < 0 || from >= outline.width || pitch <= 0 {
        return true;
    }
    from % pitch != pitch / 2
}

// The middles of the first columns of a module.
fn middles(
    alloc: Global,
    design: &Design<'_>,
    outline: Outline,
    pitch: i64,
) -> Result<String, AllocError> {
    let decimals = design.rules.decimals;
    let mut text = String::new(alloc);
    let mut from = pitch / 2;
    for _ in 0..3u8 {
        if from >= outline.width {
            return Ok(text);
        }
        if !text.is_empty() {
            text.push_str(", ")?;
        }
        let middle = units(alloc, outline.left.saturating_add(from), decimals)?;
        text.push_str(middle.as_str())?;
        from = from.saturating_add(pitch);
    }
    if from < outline.width {
        text.push_str(" ..")?;
    }
    Ok(text)
}

// A pin that is at neither edge.
fn inside(
    alloc: Global,
    design: &Design<'_>,
    outline: Outline,
    module: &Module,
    pin: Pin<'_>,
) -> Result<String, AllocError> {
    let decimals = design.rules.decimals;
    let name = Shown(module.name.items());
    let terminal = Shown(pin.line.name.items());
    let y = units(alloc, pin.spot.y, decimals)?;
    let low = units(alloc, outline.low, decimals)?;
    let high = units(alloc, outline.low.saturating_add(outline.height), decimals)?;
    format!(in alloc;
        "pin {terminal} of {name} stands at y {y}; pins stand at an edge of their cell, y {low} or {high}"
    )
}

// A pin that is not in the middle of a column.
fn beside(
    alloc: Global,
    design: &Design<'_>,
    outline: Outline,
    module: &Module,
    pin: Pin<'_>,
) -> Result<String, AllocError> {
    let name = Shown(module.name.items());
    let terminal = Shown(pin.line.name.items());
    let x = units(alloc, pin.spot.x, design.rules.decimals)?;
    let pitch = i64::from(design.rules.grid.column);
    let middles = middles(alloc, design, outline, pitch)?;
    format!(in alloc;
        "pin {terminal} of {name} stands at x {x}; columns of this width have their middle at {middles}"
    )
}

/// The first pin of a module that is off the grid.
pub(crate) fn off_pin(
    alloc: Global,
    design: &Design<'_>,
    outline: Outline,
    n: u32,
    module: &Module,
) -> Result<Told, AllocError> {
    let terminals = terminals_of(alloc, module.lines.items())?;
    let pitch = i64::from(design.rules.grid.column);
    for (number, line) in module.lines.items().iter().enumerate() {
        let Some(pin) = pin_of(&terminals, number, line) else {
            continue;
        };
        let text = if is_inside(outline, pin.spot) {
            inside(alloc, design, outline, module, pin)?
        } else if is_beside(outline, pitch, pin.spot) {
            beside(alloc, design, outline, module, pin)?
        } else {
            continue;
        };
        let place = place_of(design.text, Sought::Line(n as usize, number, 1));
        return Ok(Told::perhaps_at(place, text));
    }
    plain(alloc)
}

/// Where a pin stands.
#[derive(Clone, Copy, Debug, PartialEq, Eq, Hash)]
struct Point {
    x: i64,
    y: i64,
}

// Whether this point is new among these, which have it then.
fn is_new(points: &mut IndexSet<Point>, point: Point) -> Result<bool, AllocError> {
    match points.insert(point) {
        Ok(new) => Ok(new),
        Err(_) => Err(AllocError),
    }
}

// Two pins at one point.
fn clash(
    alloc: Global,
    design: &Design<'_>,
    n: u32,
    module: &Module,
    pin: Pin<'_>,
) -> Result<Told, AllocError> {
    let decimals = design.rules.decimals;
    let name = Shown(module.name.items());
    let terminal = Shown(pin.line.name.items());
    let x = units(alloc, pin.spot.x, decimals)?;
    let y = units(alloc, pin.spot.y, decimals)?;
    let place = place_of(design.text, Sought::Line(n as usize, pin.number, 1));
    for (number, line) in module.lines.items().iter().enumerate() {
        let Some(spot) = &line.spot else {
            continue;
        };
        if spot.x == pin.spot.x && spot.y == pin.spot.y && number != pin.number {
            let first = Shown(line.name.items());
            let at = line_of(design.text, Sought::Line(n as usize, number, 1));
            let text = format!(in alloc;
                "pin {terminal} of {name} stands at x {x}, y {y}, where {first} stands too, at line {at}"
            )?;
            return Ok(Told::perhaps_at(place, text));
        }
    }
    plain(alloc)
}

/// A module of which two pins share a point.
pub(crate) fn pin_clash(
    alloc: Global,
    design: &Design<'_>,
    n: u32,
    module: &Module,
) -> Result<Told, AllocError> {
    let terminals = terminals_of(alloc, module.lines.items())?;
    let mut points = IndexSet::new(alloc);
    for (number, line) in module.lines.items().iter().enumerate() {
        let Some(pin) = pin_of(&terminals, number, line) else {
            continue;
        };
        let point = Point {
            x: pin.spot.x,
            y: pin.spot.y,
        };
        if !is_new(&mut points, point)? {
            return clash(alloc, design, n, module, pin);
        }
    }
    plain(alloc)
}

/// A module of which a pin is on another layer than the rules name.
pub(crate) fn wrong_layer(
    alloc: Global,
    design: &Design<'_>,
    n: u32,
    module: &Module,
) -> Result<Told, AllocError> {
    let terminals = terminals_of(alloc, module.lines.items())?;
    let word = design.rules.yal.items();
    for (number, line) in module.lines.items().iter().enumerate() {
        let Some(pin) = pin_of(&terminals, number, line) else {
            continue;
        };
        if pin.spot.layer.items().eq_ignore_ascii_case(word) {
            continue;
        }
        let name = Shown(module.name.items());
        let terminal = Shown(line.name.items());
        let layer = Shown(pin.spot.layer.items());
        let wanted = Shown(word);
        let text = format!(in alloc;
            "pin {terminal} of {name} is on {layer}; the rules want pins on {wanted} (yal)"
        )?;
        let place = place_of(design.text, Sought::Line(n as usize, number, 6));
        return Ok(Told::perhaps_at(place, text));
    }
    plain(alloc)
}
