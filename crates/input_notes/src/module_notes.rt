//! Notes on a module that is no cell on the grid of the rules.

use crate::design_again::Design;
use crate::design_notes::plain;
use crate::pin_notes::{pin_clash, wrong_layer};
use crate::shape_notes::{dimensions_place, no_shape, off_grid, too_low};
use netlist_core::DesignFault;
use std::alloc::{AllocError, Global};
use text_places::Told;

/// What is wrong with the module of this number that is no cell.
pub(crate) fn told_of_module(
    alloc: Global,
    design: &Design<'_>,
    fault: DesignFault,
    n: u32,
) -> Result<Told, AllocError> {
    let Some(module) = design.module(n) else {
        return plain(alloc);
    };
    match fault {
        DesignFault::OffGrid(_) => off_grid(alloc, design, n, module),
        DesignFault::TooLow(_) => too_low(alloc, design, n, module),
        DesignFault::PinClash(_) => pin_clash(alloc, design, n, module),
        DesignFault::WrongLayer(_) => wrong_layer(alloc, design, n, module),
        _ => {
            let text = no_shape(alloc, module)?;
            Ok(Told::perhaps_at(dimensions_place(design, n), text))
        }
    }
}
