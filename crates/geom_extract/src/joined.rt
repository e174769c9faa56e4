//! A number for each pin of a design and each shape of its layout, equal where shapes join them.

ghost use Rattle.design_model.specs.CellsMatch.{CellsMatch};
ghost use Rattle.geom_core.specs.Reach.{IsShapeInReach};
ghost use Rattle.geom_extract.specs.Extracts.{IsExtract};
ghost use Rattle.std.specs.Prelude.{◌<◌, ◌^◌, length, All, IfOk};

use crate::places::{Places, all_first_places};
use crate::shapes::shape_classes;
use crate::starts::starts_of;
use design_model::Design;
use geom_core::Layout;
use std::alloc::{AllocError, Global};
use tech_rules::Rules;

/// A number for each pin of a design, and for each shape of its layout. Equal numbers mean that shapes join them.
#[derive(Debug, Drop)]
pub struct Extract {
    pub pins: Vec<u32>,
    pub shapes: Vec<u32>,
}

/// A number for each pin of a design and for each shape of its layout, whose cells are those of the design: numbers are equal exactly where shapes
/// are joined, and exactly where pins are joined, and a pin has the number of its shapes. The one error is want of memory.
pub fn classes(
    alloc: Global,
    layout: &Layout,
    design: &Design,
    rules: &Rules,
) -> Result<Extract, AllocError>
    requires few { length layout.now.shapes < 2 ^ 32 }
    requires reach { All IsShapeInReach layout.now.shapes }
    requires cells { CellsMatch rules.now design.now layout.now }
    ensures { IfOk result (IsExtract rules.now design.now layout.now) }
{
    let places = Places {
        design,
        firsts: all_first_places(alloc, design.kinds.items())?,
        starts: starts_of(alloc, layout, design)?,
    };
    let ties = places.ties(alloc)?;
    let shapes = shape_classes(alloc, layout.shapes.items(), ties.as_slice(), rules)?;
    let pins = places.pin_classes(alloc, shapes.as_slice())?;
    Ok(Extract { pins, shapes })
}
