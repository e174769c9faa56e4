//! Designs and layouts of texts, and how their shapes and pins are numbered.

ghost use Rattle.geom_core.specs.Reach.{IsShapeInReach};
ghost use Rattle.std.specs.Prelude.{◌<◌, ◌^◌, length, All, IfOk, IfSome};

use crate::matching::cells_match;
use cif_reader::expand;
use cif_text::read_commands;
use geom_core::Layout;
use geom_extract::{Extract, classes};
use samples::{designed, sample_rules};
use std::alloc::{AllocError, Global};

// The layout of a text of CIF, or None where it has none.
fn layout_of(alloc: Global, text: &[u8]) -> Result<Option<Layout>, AllocError>
    ensures few { IfOk result (λ found. IfSome found (λ l. length l.shapes < 2 ^ 32)) }
    ensures reach { IfOk result (λ found. IfSome found (λ l. All IsShapeInReach l.shapes)) }
{
    if text.len() >= 1 << 24 {
        return Ok(None);
    }
    let Ok(commands) = read_commands(alloc, text) else {
        return Ok(None);
    };
    match expand(alloc, commands.as_slice()) {
        Ok(layout) => Ok(Some(layout)),
        Err(_) => Ok(None),
    }
}

/// The numbers of the pins of a design of these modules and calls and of the shapes of a text of CIF, or None where the cells of that are
/// not those of the design in their order.
pub(crate) fn extract_of(
    alloc: Global,
    modules: &str,
    calls: &str,
    text: &[u8],
) -> Result<Option<Extract>, AllocError> {
    let rules = sample_rules(alloc)?;
    let Ok(design) = designed(alloc, modules, calls) else {
        return Ok(None);
    };
    let Some(layout) = layout_of(alloc, text)? else {
        return Ok(None);
    };
    if !cells_match(alloc, &layout, &design, &rules)? {
        return Ok(None);
    }
    Ok(Some(classes(alloc, &layout, &design, &rules)?))
}

/// For each number the place of the first that is equal to it, or the number of numbers where there is none.
pub(crate) fn first_equal(alloc: Global, numbers: &[u32]) -> Result<Vec<usize>, AllocError> {
    let mut places = Vec::new(alloc);
    for number in numbers {
        let place = numbers.iter().position(|other| *other == *number);
        places.push(place.unwrap_or(numbers.len()))?;
    }
    Ok(places)
}
