//! How many kinds a design has, and how high the highest of kinds is.

ghost use Rattle.netlist_core.specs.OnGrid.{greatest_height};
ghost use Rattle.std.specs.Prelude.{◌≡◌, ◌≤◌, length};

use design_model::{CellKind, Design};
use limits::MOST_INSTANCES;

/// How many kinds a design has: at most 20,000, since each has an instance. Takes no memory.
pub(crate) fn kind_count(design: &Design) -> u32
    ensures is { result ≡ length design.now.kinds }
    ensures few { result ≤ MOST_INSTANCES }
{
    // The bounds of the design's type are known once a field is read.
    design.kinds.items().len() as u32
}

/// The greatest height of these kinds in units, or 0 where there is none. Takes no memory.
pub(crate) fn greatest_height(kinds: &[CellKind]) -> u32
    ensures { result ≡ greatest_height kinds.now }
{
    let mut greatest = 0;
    for kind in kinds {
        greatest = greatest.max(kind.height);
    }
    greatest
}
