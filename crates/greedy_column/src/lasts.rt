//! The columns of the nets' last pins, in a table by their numbers.

ghost use Rattle.greedy_column.specs.Uses.{AreAtEdges, AreLasts};
ghost use Rattle.std.specs.Prelude.{◌≡◌, ◌==◌, ℕ, IfOk, OnOk, if◌then◌else◌, max, slice_index};

use crate::table::{entry, put, reach};
use crate::uses::Use;
use std::alloc::{AllocError, Global};

// The columns of the last uses of all nets of some.
pub(crate) fn lasts_of(alloc: Global, uses: &[Use]) -> Result<Vec<u32>, AllocError>
    requires { AreAtEdges uses.now }
    ensures { IfOk result (λ lasts. AreLasts uses.now lasts.items) }
{
    let mut lasts = Vec::new(alloc);
    let mut rest = uses;
    while let Some((used, others)) = rest.split_first() {
        note_use(&mut lasts, used.net, used.column)?;
        rest = others;
    }
    Ok(lasts)
}

// Notes the column of one more use of a net.
fn note_use(lasts: &mut Vec<u32>, net: u32, column: u32) -> Result<(), AllocError>
    ensures { OnOk result ((k : ℕ) → slice_index lasts.new.items k
        ≡ (if net == k then max (slice_index lasts.old.items k) column else slice_index lasts.old.items k)) }
{
    reach(lasts, net, 0)?;
    let last = entry(lasts, net).max(column);
    put(lasts, net, last);
    Ok(())
}
