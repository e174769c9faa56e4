//! The width of each instance of a design in columns, side by side.

ghost use Rattle.row_model.specs.Widths.{columns_of};
ghost use Rattle.std.specs.List.{range_with_len};
ghost use Rattle.std.specs.Prelude.{◌≡◌, length, map, IfOk};

use design_model::Design;
use row_model::columns_of;
use std::alloc::{AllocError, Global};

/// The width of each instance in columns. The one error is want of memory; steps as the number of instances.
pub(crate) fn widths_of(alloc: Global, design: &Design) -> Result<Vec<u32>, AllocError>
    ensures { IfOk result (λ widths. widths.items ≡ map (columns_of design.now) (range_with_len 0 (length design.now.instances))) }
{
    let count = design.instances.items().len() as u32;
    let mut widths = Vec::new(alloc);
    for instance in 0..count {
        widths.push(columns_of(design, instance))?;
    }
    Ok(widths)
}
