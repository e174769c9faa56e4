//! The shape of the first position in each instance's cell, which is found by its name.

ghost use Rattle.design_model.specs.CellsMatch.{cell_names, instance_names};
ghost use Rattle.geom_extract.specs.CellTies.{starts_of};
ghost use Rattle.list_facts.specs.Names.{mentions};
ghost use Rattle.list_facts.specs.Texts.{texts};
ghost use Rattle.std.specs.List.Sorted.{IsPermutation};
ghost use Rattle.std.specs.Prelude.{◌≡◌, IfOk};

use design_model::Design;
use geom_core::Layout;
use indexmap::IndexSet;
use list_facts::{number, place_of};
use std::alloc::{AllocError, Global};
use std::marker::Model;

// The names of the cells of a layout, which are all different. Contracts see the layout.
#[derive(Drop)]
struct CellNames<'a> {
    layout: &'a Layout,
    names: IndexSet<&'a [u8]>,
}

impl<'a> Model for CellNames<'a> {
    ghost use Rattle.design_model.specs.CellsMatch.{cell_names};
    ghost use Rattle.geom_core.specs.declared.layout.Layout.{Layout as Drawing};
    ghost use Rattle.list_facts.specs.Texts.{texts};
    ghost use Rattle.std.specs.Prelude.{◌≡◌};

    ghost Value = { Drawing };

    ghost view = { λ a. a.layout.now };

    ghost invariant = { λ a. texts a.names.keys ≡ cell_names a.layout.now };
}

impl<'a> CellNames<'a> {
    ghost use Rattle.geom_extract.specs.CellTies.{start_of};
    ghost use Rattle.std.specs.Prelude.{◌≡◌};

    // The number of the shape behind the outline of the cell of this name, or 0 where there is none.
    fn start_of(&self, name: &[u8]) -> usize
        ensures { result ≡ start_of self.now name.now }
    {
        let layout = self.layout;
        match layout.cells.items().get(place_of(&self.names, name)) {
            Some(cell) => cell.first as usize + 1,
            None => 0,
        }
    }
}

// For each instance the number of the shape of the first position of the cell that bears its name.
pub(crate) fn starts_of(
    alloc: Global,
    layout: &Layout,
    design: &Design,
) -> Result<Vec<usize>, AllocError>
    requires { IsPermutation (instance_names design.now) (cell_names layout.now) }
    ensures { IfOk result (λ v. v.items ≡ starts_of layout.now design.now) }
{
    let instances = design.instances.items();
    let names = CellNames {
        layout,
        names: cell_names(alloc, layout)?,
    };
    let mut starts = Vec::with_capacity(alloc, instances.len())?;
    for inst in instances {
        starts.push(names.start_of(inst.name.items()))?;
    }
    Ok(starts)
}

// The different names of the cells, in their order.
fn cell_names<'a>(alloc: Global, layout: &'a Layout) -> Result<IndexSet<&'a [u8]>, AllocError>
    ensures { IfOk result (λ names. texts names.keys ≡ mentions (cell_names layout.now)) }
{
    let mut names = IndexSet::new(alloc);
    for cell in layout.cells.items() {
        number(&mut names, cell.name.items())?;
    }
    Ok(names)
}
