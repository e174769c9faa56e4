//! The kind of an instance, its width in columns and its height, and the width of all instances together.

ghost use Rattle.row_model.specs.Widths.{all_columns, cell_height, columns_of, kind_of};
ghost use Rattle.std.specs.Option.{option_map};
ghost use Rattle.std.specs.Prelude.{◌≡◌, ◌≤◌};

use design_model::{CellKind, Design};
use limits::{MOST_HEIGHT, MOST_KIND_COLUMNS};

/// The kind of the instance with this number, if there is one. Takes no memory.
pub fn kind_of<'d>(design: &'d Design, instance: u32) -> Option<&'d CellKind>
    ensures { option_map (λ k. k.now) result ≡ kind_of design.now instance }
{
    let found = design.instances.items().get(instance as usize)?;
    design.kinds.items().get(found.kind as usize)
}

/// The width of the instance with this number in columns, 1 to 100,000,000; 0 where there is none. Takes no memory.
pub fn columns_of(design: &Design, instance: u32) -> u32
    ensures width { result ≡ columns_of design.now instance }
    ensures few { result ≤ MOST_KIND_COLUMNS }
{
    // The bounds of the design's type are known once a field is read.
    let _instances = &design.instances;
    match kind_of(design, instance) {
        Some(kind) => kind.columns,
        None => 0,
    }
}

/// The height of the instance with this number in units, at most 200,000,000; 0 where there is none. Takes no memory.
pub fn cell_height(design: &Design, instance: u32) -> u32
    ensures height { result ≡ cell_height design.now instance }
    ensures low { result ≤ MOST_HEIGHT }
{
    // The bounds of the design's type are known once a field is read.
    let _instances = &design.instances;
    match kind_of(design, instance) {
        Some(kind) => kind.height,
        None => 0,
    }
}

/// The width of all instances in columns. Takes no memory.
#[tactic(auto, unfolding(crate::specs::Widths::all_columns))]
pub fn all_columns(design: &Design) -> u64
    ensures width { result ≡ all_columns design.now }
    ensures few { result ≤ 2000000000000 }
{
    let mut width = 0;
    for instance in 0..design.instances.items().len() as u32 {
        width += u64::from(columns_of(design, instance));
    }
    width
}
