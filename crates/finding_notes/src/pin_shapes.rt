//! The shapes at which the pins of a design are drawn, and the shapes that cells join.

use crate::judged::JudgedLayout;
use crate::untold::Untold;
use design_model::{CellKind, Pin, Position};
use geom_core::Items;
use indexmap::IndexSet;
use list_facts::{number, place_of};
use std::alloc::{AllocError, Global};

// What stands for no shape.
const NONE: u32 = 0xffff_ffff;

/// For each kind the place of the first position of each of its terminals, and for each instance the shape of its cell's first position.
#[derive(Drop)]
pub(crate) struct PinShapes {
    firsts: Vec<Items<u32>>,
    starts: Vec<u32>,
}

// Enters a position of a terminal, unless one stands there.
fn enter(places: &mut [u32], terminal: u32, place: u32) {
    let at = terminal as usize;
    if at < places.len() && places[at] == NONE {
        places[at] = place;
    }
}

// The place of the first position of each terminal of a kind.
fn first_places(alloc: Global, kind: &CellKind) -> Result<Items<u32>, AllocError> {
    let mut places = vec![in alloc; NONE; kind.terminals.items().len()]?;
    let mut place: u32 = 0;
    for position in kind.positions.items() {
        enter(&mut places, position.terminal, place);
        place = place.saturating_add(1);
    }
    Ok(Items::new(places))
}

// The same of each kind.
fn all_first_places(alloc: Global, kinds: &[CellKind]) -> Result<Vec<Items<u32>>, AllocError> {
    let mut tables = Vec::new(alloc);
    for kind in kinds {
        tables.push(first_places(alloc, kind)?)?;
    }
    Ok(tables)
}

// The different names of the cells, in their order.
fn cell_names<'a>(
    alloc: Global,
    judged: &JudgedLayout<'a>,
) -> Result<IndexSet<&'a [u8]>, AllocError> {
    let mut names = IndexSet::new(alloc);
    for cell in judged.layout.cells.items() {
        let _ = number(&mut names, cell.name.items())?;
    }
    Ok(names)
}

// For each instance the shape behind the outline of the cell of its name.
fn starts_of(alloc: Global, judged: &JudgedLayout<'_>) -> Result<Vec<u32>, AllocError> {
    let names = cell_names(alloc, judged)?;
    let cells = judged.layout.cells.items();
    let mut starts = Vec::new(alloc);
    for instance in judged.instances() {
        let start = match cells.get(place_of(&names, instance.name.items())) {
            Some(cell) => cell.first.saturating_add(1),
            None => NONE,
        };
        starts.push(start)?;
    }
    Ok(starts)
}

/// The shapes of the pins of a layout, whose cells are meant to be those of the design. The one error is want of memory.
pub(crate) fn pin_shapes(
    alloc: Global,
    judged: &JudgedLayout<'_>,
) -> Result<PinShapes, AllocError> {
    Ok(PinShapes {
        firsts: all_first_places(alloc, judged.kinds())?,
        starts: starts_of(alloc, judged)?,
    })
}

// Puts the ties of a cell at the end: each position with the first of its terminal.
fn push_ties(
    ties: &mut Vec<(u32, u32)>,
    start: u32,
    positions: &[Position],
    firsts: &[u32],
) -> Result<(), AllocError> {
    let mut shape = start;
    for position in positions {
        let first = start.saturating_add(first_of(firsts, position.terminal));
        if first != shape {
            ties.push((first, shape))?;
        }
        shape = shape.saturating_add(1);
    }
    Ok(())
}

// The first place of a terminal.
fn first_of(firsts: &[u32], terminal: u32) -> u32 {
    firsts.get(terminal as usize).copied().unwrap_or(NONE)
}

impl PinShapes {
    // The first places of the terminals of a kind.
    fn firsts_of(&self, kind: u32) -> &[u32] {
        match self.firsts.as_slice().get(kind as usize) {
            Some(firsts) => firsts.items(),
            None => &[],
        }
    }

    // The shape of the first position of an instance's cell.
    fn start_of(&self, instance: u32) -> u32 {
        first_of(self.starts.as_slice(), instance)
    }

    /// The shape of a pin's first position.
    pub(crate) fn shape_of(&self, judged: &JudgedLayout<'_>, pin: Pin) -> Result<u32, Untold> {
        let instance = judged.instance(pin.instance)?;
        let place = first_of(self.firsts_of(instance.kind), pin.terminal);
        Ok(self.start_of(pin.instance).saturating_add(place))
    }

    /// The pairs of shapes that cells join, each position with the first of its terminal.
    pub(crate) fn ties(
        &self,
        alloc: Global,
        judged: &JudgedLayout<'_>,
    ) -> Result<Vec<(u32, u32)>, Untold> {
        let mut ties = Vec::new(alloc);
        let instances = judged.instances();
        for (instance, start) in instances.iter().zip(self.starts.as_slice()) {
            let kind = judged.kind(instance)?;
            let firsts = self.firsts_of(instance.kind);
            push_ties(&mut ties, *start, kind.positions.items(), firsts)?;
        }
        Ok(ties)
    }
}
