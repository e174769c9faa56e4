//! Notes on a gate of a netlist that does not fit its cell.

use crate::design_again::{Terminals, kind_word, terminals_of};
use crate::netlist_again::Netlist;
use std::alloc::{AllocError, Global};
use text_places::{Shown, meant};
use yal_reader::Kind;

/// How many terminals are told.
const MOST_TOLD: usize = 8;

// A question whether another cell was meant, if there is one whose name is near.
fn cell_meant(alloc: Global, netlist: &Netlist<'_>, name: &[u8]) -> Result<String, AllocError> {
    let mut names = Vec::new(alloc);
    for module in netlist.modules() {
        if module.kind == Kind::Standard {
            names.push(module.name.items())?;
        }
    }
    meant(alloc, name, names.as_slice())
}

/// A gate of no cell.
pub(crate) fn no_cell(
    alloc: Global,
    netlist: &Netlist<'_>,
    name: Shown<'_>,
) -> Result<String, AllocError> {
    if let Some(module) = netlist.module_named(name.0) {
        let kind = kind_word(module.kind);
        return format!(in alloc;
            "{name} is of TYPE {kind} in CELLS; gates are of modules of TYPE STANDARD"
        );
    }
    if name.0.starts_with(b"$") {
        return format!(in alloc;
            "{name} is no module of CELLS but a cell of yosys itself; dfflibmap and abc -liberty map such to cells of a library"
        );
    }
    let near = cell_meant(alloc, netlist, name.0)?;
    format!(in alloc; "no module of CELLS has the name {name}{near}")
}

// The names of terminals that gates give.
fn given<'m>(alloc: Global, terminals: &Terminals<'m>) -> Result<Vec<&'m [u8]>, AllocError> {
    let mut names = Vec::new(alloc);
    for name in terminals.all.iter() {
        if !terminals.power.contains(*name) {
            names.push(*name)?;
        }
    }
    Ok(names)
}

// Names behind one another, of many the first ones.
fn names_shown(alloc: Global, names: &[&[u8]]) -> Result<String, AllocError> {
    let mut text = String::new(alloc);
    for name in names.iter().take(MOST_TOLD) {
        if !text.is_empty() {
            text.push_str(", ")?;
        }
        let name = Shown(*name);
        let piece = format!(in alloc; "{name}")?;
        text.push_str(piece.as_str())?;
    }
    if names.len() > MOST_TOLD {
        text.push_str(" ..")?;
    }
    Ok(text)
}

/// A pin at a terminal that the cell does not have, or that is one of power.
pub(crate) fn no_pin(
    alloc: Global,
    netlist: &Netlist<'_>,
    name: Shown<'_>,
    at: u64,
) -> Result<String, AllocError> {
    let cell = match netlist.gate_at(at) {
        Some(gate) => netlist.cell_named(gate.module.items()),
        None => None,
    };
    let Some(cell) = cell else {
        return format!(in alloc; "the module of this gate has no terminal {name}");
    };
    let module = Shown(cell.name.items());
    let terminals = terminals_of(alloc, cell.lines.items())?;
    if terminals.power.contains(name.0) {
        return format!(in alloc;
            "{name} is a power terminal of {module}, which gets its word by itself; leave this pin out"
        );
    }
    let names = given(alloc, &terminals)?;
    if names.is_empty() {
        return format!(in alloc; "{module} has no terminal {name}, and no other for gates");
    }
    let known = names_shown(alloc, names.as_slice())?;
    let near = meant(alloc, name.0, names.as_slice())?;
    format!(in alloc; "{module} has no terminal {name}; its terminals are {known}{near}")
}

/// A second pin at a terminal.
pub(crate) fn pin_twice(
    alloc: Global,
    netlist: &Netlist<'_>,
    name: Shown<'_>,
    at: u64,
) -> Result<String, AllocError> {
    if let Some(gate) = netlist.gate_at(at) {
        for pin in gate.pins.items() {
            if pin.terminal.items() == name.0 {
                let module = Shown(gate.module.items());
                let net = Shown(pin.net.items());
                return format!(in alloc;
                    "this gate of {module} has {name}={net} already; each terminal has one pin"
                );
            }
        }
    }
    format!(in alloc; "this gate has {name} already; each terminal has one pin")
}

/// A terminal without a pin.
pub(crate) fn missing_pin(
    alloc: Global,
    netlist: &Netlist<'_>,
    name: Shown<'_>,
    at: u64,
) -> Result<String, AllocError> {
    let module = match netlist.gate_at(at) {
        Some(gate) => Shown(gate.module.items()),
        None => Shown(b"its module"),
    };
    format!(in alloc;
        "terminal {name} of {module} has no pin in this gate; {name}=NET is wanted, with a net of its own where nothing else is joined to it"
    )
}
