//! Notes on the DIMENSIONS of a module that is no cell on the grid of the rules.

use crate::design_again::Design;
use crate::design_notes::plain;
use crate::pin_notes::off_pin;
use std::alloc::{AllocError, Global};
use text_places::{Shown, Sought, Told, place_of, units};
use yal_reader::Module;

/// The rectangle of a module, in units.
#[derive(Clone, Copy)]
pub(crate) struct Outline {
    pub(crate) left: i64,
    pub(crate) low: i64,
    pub(crate) width: i64,
    pub(crate) height: i64,
}

// How far two numbers are apart.
fn distance(a: i64, b: i64) -> i64 {
    a.max(b).saturating_sub(a.min(b))
}

/// The rectangle of a module whose corners are those of one.
pub(crate) fn outline_of(module: &Module) -> Option<Outline> {
    match module.corners.items() {
        [x0, y0, _, _, x2, y2, _, _] => Some(Outline {
            left: (*x0).min(*x2),
            low: (*y0).min(*y2),
            width: distance(*x0, *x2),
            height: distance(*y0, *y2),
        }),
        _ => None,
    }
}

/// A module whose corners are no rectangle.
pub(crate) fn no_shape(alloc: Global, module: &Module) -> Result<String, AllocError> {
    let name = Shown(module.name.items());
    let count = module.corners.items().len();
    let example = "as DIMENSIONS 0 0 8 0 8 40 0 40;";
    if count == 0 {
        return format!(in alloc;
            "{name} has no DIMENSIONS; the four corners of its rectangle are wanted, {example}"
        );
    }
    if count == 8 {
        return format!(in alloc;
            "DIMENSIONS of {name} are not the corners of a rectangle one behind another, {example}"
        );
    }
    format!(in alloc;
        "DIMENSIONS of {name} have {count} numbers; 8 are wanted, the x and y of four corners, {example}"
    )
}

/// Where the DIMENSIONS of a module stand, or else its name.
pub(crate) fn dimensions_place(design: &Design<'_>, n: u32) -> Option<usize> {
    let dimensions = Sought::Section(n as usize, b"DIMENSIONS");
    match place_of(design.text, dimensions) {
        Some(at) => Some(at),
        None => place_of(design.text, Sought::Module(n as usize)),
    }
}

/// A module that is off the grid.
pub(crate) fn off_grid(
    alloc: Global,
    design: &Design<'_>,
    n: u32,
    module: &Module,
) -> Result<Told, AllocError> {
    let Some(outline) = outline_of(module) else {
        return plain(alloc);
    };
    let pitch = i64::from(design.rules.grid.column);
    if pitch <= 0 || outline.width % pitch == 0 {
        return off_pin(alloc, design, outline, n, module);
    }
    let decimals = design.rules.decimals;
    let name = Shown(module.name.items());
    let width = units(alloc, outline.width, decimals)?;
    let column = units(alloc, pitch, decimals)?;
    let below = units(
        alloc,
        outline.width.saturating_sub(outline.width % pitch),
        decimals,
    )?;
    let text = format!(in alloc;
        "{name} is {width} wide; a whole number of columns of {column} is wanted (grid.column), as {below}"
    )?;
    Ok(Told::perhaps_at(dimensions_place(design, n), text))
}

/// A module that is too low.
pub(crate) fn too_low(
    alloc: Global,
    design: &Design<'_>,
    n: u32,
    module: &Module,
) -> Result<Told, AllocError> {
    let Some(outline) = outline_of(module) else {
        return plain(alloc);
    };
    let decimals = design.rules.decimals;
    let name = Shown(module.name.items());
    let pin = i64::from(design.rules.grid.pin);
    let space = i64::from(design.rules.vertical.space);
    let height = units(alloc, outline.height, decimals)?;
    let least = pin.saturating_add(pin).saturating_add(space);
    let least = units(alloc, least, decimals)?;
    let text = format!(in alloc;
        "{name} is {height} high; {least} at least are wanted, two pins and the space between them (2*{pin} + {space}: grid.pin and vertical.space)"
    )?;
    Ok(Told::perhaps_at(dimensions_place(design, n), text))
}
