//! The first position of each terminal of a kind, and the shape that is drawn at a pin's first position.

ghost use Rattle.geom_extract.specs.CellTies.{first_places};
ghost use Rattle.std.specs.Prelude.{◌≡◌, map, IfOk};

use crate::cell_ties::push_ties;
use design_model::{CellKind, Design, Pin};
use geom_core::Items;
use std::alloc::{AllocError, Global};
use std::marker::Model;

// Where the positions of a design stand: for each kind the first place of the positions of each of its terminals, and for each
// instance the number of the shape of the first position of its cell.
#[derive(Drop)]
pub(crate) struct Places<'d> {
    pub(crate) design: &'d Design,
    pub(crate) firsts: Vec<Items<usize>>,
    pub(crate) starts: Vec<usize>,
}

impl<'d> Model for Places<'d> {
    ghost use Rattle.geom_extract.specs.CellTies.{Placing};

    ghost Value = { Placing };

    ghost use Rattle.geom_extract.specs.PlacesView.{placing_in, StandThere};

    ghost view = { placing_in };

    ghost invariant = { StandThere };
}

impl<'d> Places<'d> {
    ghost use Rattle.geom_extract.specs.CellTies.{pin_shape, ties_among};
    ghost use Rattle.std.specs.Prelude.{◌≡◌, ◌<◌, length, map, slice_index, All, Contains, IfOk};

    // The ties in the cells of all instances. The one error is want of memory.
    pub(crate) fn ties(&self, alloc: Global) -> Result<Vec<(u32, u32)>, AllocError>
        ensures { IfOk result (λ v. v.items ≡ ties_among self.now.design self.now.starts (length self.now.design.instances)) }
    {
        let design = self.design;
        let kinds = design.kinds.items();
        let instances = design.instances.items();
        let mut ties = Vec::new(alloc);
        for n in 0..instances.len() {
            let kind = instances[n].kind as usize;
            let firsts = self.firsts[kind].items();
            push_ties(&mut ties, self.starts[n], &kinds[kind], firsts)?;
        }
        Ok(ties)
    }

    // The numbers of the shapes of the first positions of all pins. The one error is want of memory.
    pub(crate) fn pin_classes(&self, alloc: Global, classes: &[u32]) -> Result<Vec<u32>, AllocError>
        requires { All (λ p. pin_shape self.now.design self.now.starts p < length classes.now) self.now.design.pins }
        ensures { IfOk result (λ v. v.items ≡ map (λ p. slice_index classes.now (pin_shape self.now.design self.now.starts p)) self.now.design.pins) }
    {
        let design = self.design;
        let pins = design.pins.items();
        let mut numbers = Vec::with_capacity(alloc, pins.len())?;
        for pin in pins {
            numbers.push(classes[self.pin_shape(*pin)])?;
        }
        Ok(numbers)
    }

    // The number of the shape of the first position of a pin of the design.
    fn pin_shape(&self, pin: Pin) -> usize
        requires { Contains self.now.design.pins pin }
        ensures { result ≡ pin_shape self.now.design self.now.starts pin }
    {
        let design = self.design;
        let instance = pin.instance as usize;
        let kind = design.instances.items()[instance].kind as usize;
        self.starts[instance] + self.firsts[kind].items()[pin.terminal as usize]
    }
}

// For each kind, the first place at which a position of each of its terminals stands.
pub(crate) fn all_first_places(
    alloc: Global,
    kinds: &[CellKind],
) -> Result<Vec<Items<usize>>, AllocError>
    ensures { IfOk result (λ v. v.items ≡ map first_places kinds.now) }
{
    let mut tables = Vec::with_capacity(alloc, kinds.len())?;
    for kind in kinds {
        tables.push(first_places(alloc, kind)?)?;
    }
    Ok(tables)
}

// The places are entered from the last position to the first, so that the first of a terminal stands at the end.
fn first_places(alloc: Global, kind: &CellKind) -> Result<Items<usize>, AllocError>
    ensures { IfOk result (λ table. table ≡ first_places kind.now) }
{
    let positions = kind.positions.items();
    let mut table = vec![in alloc; positions.len(); kind.terminals.items().len()]?;
    let mut place = positions.len();
    while place > 0 {
        place -= 1;
        let terminal = positions[place].terminal as usize;
        if terminal < table.len() {
            table[terminal] = place;
        }
    }
    Ok(Items::new(table))
}
