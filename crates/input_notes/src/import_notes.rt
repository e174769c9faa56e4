//! Notes on a netlist that does not fit its cells: its model with its terminals, its nets and the names of its gates.

use crate::gate_notes::{missing_pin, no_cell, no_pin, pin_twice};
use crate::netlist_again::{Netlist, NetlistRead, netlist_again, words_joined};
use blif_reader::Gate;
use netlist_import::{ImportFlaw, ImportKind};
use note_text::place_at;
use std::alloc::{AllocError, Global};
use text_places::{Shown, Sought, Told, line_of, place_of};

// A module of the cells that is a PARENT.
fn cells_parent(alloc: Global, netlist: &Netlist<'_>, name: Shown<'_>) -> Result<Told, AllocError> {
    let place = place_of(netlist.cells_text, Sought::Parent(0));
    let what = format!(in alloc;
        "{name} is of TYPE PARENT, which CELLS may not have, since the netlist becomes the PARENT; leave this module out"
    )?;
    Ok(Told::perhaps_at(place, what))
}

// A model with the name of a module.
fn model_name(alloc: Global, netlist: &Netlist<'_>, name: Shown<'_>) -> Result<String, AllocError> {
    let line = line_of(netlist.cells_text, Sought::Named(name.0));
    format!(in alloc;
        "the model is named {name}, as is the module at line {line} of CELLS; another name is wanted, as rename -top of yosys gives one"
    )
}

// A name that spells a keyword.
fn keyword(alloc: Global, name: Shown<'_>) -> Result<String, AllocError> {
    if name.0.eq_ignore_ascii_case(b"ENDIOLIST") {
        return format!(in alloc;
            "a terminal named {name} would end the IOLIST of the PARENT in YAL; another name is wanted"
        );
    }
    format!(in alloc;
        "a gate named {name} would end the NETWORK of the PARENT in YAL; another name is wanted"
    )
}

// A terminal on the net of another one.
fn shared_net(
    alloc: Global,
    netlist: &Netlist<'_>,
    name: Shown<'_>,
    at: u64,
) -> Result<String, AllocError> {
    let words = words_joined(alloc, &netlist.file, name.0)?;
    let Some(other) = netlist.other_terminal(at, &words) else {
        return format!(in alloc; "{name} is on the net of another terminal of the model");
    };
    let line = place_at(netlist.text, other.at).line;
    if other.text.items() == name.0 {
        return format!(in alloc;
            "terminal {name} stands at line {line} too; each terminal of the model stands once"
        );
    }
    let other = Shown(other.text.items());
    format!(in alloc;
        "terminal {name} is one net with terminal {other} of line {line}, by .names; a net has one terminal at most, so a buffer between both is wanted, as insbuf of yosys puts one in"
    )
}

// Whether a word is that of power terminals.
fn is_power(word: &[u8]) -> bool {
    word == b"VDD".as_slice() || word == b"GND".as_slice()
}

// A net that goes by a word of power terminals.
fn power_net(alloc: Global, netlist: &Netlist<'_>, name: Shown<'_>) -> Result<String, AllocError> {
    if is_power(name.0) {
        return format!(in alloc;
            "{name} is the word that power terminals of cells get; a net wants another name"
        );
    }
    let words = words_joined(alloc, &netlist.file, name.0)?;
    let power = match words.iter().find(|word| is_power(**word)) {
        Some(word) => Shown(*word),
        None => Shown(b"VDD or GND"),
    };
    format!(in alloc;
        "{name} is one net with {power} by .names, the word that power terminals of cells get; a net wants another name"
    )
}

// A constant net that no gate drives.
fn constant_net(
    alloc: Global,
    netlist: &Netlist<'_>,
    name: Shown<'_>,
) -> Result<String, AllocError> {
    let words = words_joined(alloc, &netlist.file, name.0)?;
    let constants = netlist.file.constants.items();
    let same = constants.iter().any(|word| word.text.items() == name.0);
    let joined = constants
        .iter()
        .find(|word| words.contains(word.text.items()));
    if let (false, Some(constant)) = (same, joined) {
        let constant = Shown(constant.text.items());
        return format!(in alloc;
            "{name} is one net with {constant} by .names, a constant that no gate drives; a cell that drives it is wanted, as hilomap of yosys puts one in"
        );
    }
    format!(in alloc;
        "{name} is constant, and no gate drives it; a cell that drives it is wanted, as hilomap of yosys puts one in"
    )
}

// Whether a gate of this number has this name, by its `.cname` or by its number.
fn is_named(alloc: Global, number: usize, gate: &Gate, name: &[u8]) -> Result<bool, AllocError> {
    if let Some(word) = &gate.name {
        return Ok(word.text.items() == name);
    }
    let by_number = format!(in alloc; "g{number}")?;
    Ok(by_number.as_bytes() == name)
}

// The line of the first gate of this name.
fn line_named(alloc: Global, netlist: &Netlist<'_>, name: &[u8]) -> Result<u64, AllocError> {
    for (number, gate) in netlist.gates().iter().enumerate() {
        if is_named(alloc, number, gate, name)? {
            return Ok(place_at(netlist.text, gate.at).line);
        }
    }
    Ok(0)
}

// A gate with the name of one before it.
fn taken_name(
    alloc: Global,
    netlist: &Netlist<'_>,
    name: Shown<'_>,
    at: u64,
) -> Result<String, AllocError> {
    let line = line_named(alloc, netlist, name.0)?;
    let by_number = netlist
        .gates()
        .iter()
        .any(|gate| gate.name.is_none() && gate.at == at);
    if by_number {
        return format!(in alloc;
            "this gate has no .cname, and so is named {name} by its number, as the gate at line {line} is; each needs a name of its own"
        );
    }
    format!(in alloc;
        "the gate at line {line} is named {name} already; each needs a name of its own"
    )
}

/// What is wrong with a netlist that does not fit its cells. The place is one of the netlist's text, but in that of the cells where a module of them is a PARENT.
pub fn told_of_import(
    alloc: Global,
    read: NetlistRead<'_>,
    flaw: &ImportFlaw,
) -> Result<Told, AllocError> {
    let Some(netlist) = netlist_again(alloc, read) else {
        return Ok(Told::whole(format!(in alloc; "the netlist does not fit its cells")?));
    };
    let name = Shown(flaw.name.items());
    let at = flaw.at;
    let what = match flaw.kind {
        ImportKind::Parent => return cells_parent(alloc, &netlist, name),
        ImportKind::Model => model_name(alloc, &netlist, name)?,
        ImportKind::Keyword => keyword(alloc, name)?,
        ImportKind::Net => shared_net(alloc, &netlist, name, at)?,
        ImportKind::Power => power_net(alloc, &netlist, name)?,
        ImportKind::Constant => constant_net(alloc, &netlist, name)?,
        ImportKind::Name => taken_name(alloc, &netlist, name, at)?,
        ImportKind::Cell => no_cell(alloc, &netlist, name)?,
        ImportKind::Pin => no_pin(alloc, &netlist, name, at)?,
        ImportKind::Twice => pin_twice(alloc, &netlist, name, at)?,
        ImportKind::Missing => missing_pin(alloc, &netlist, name, at)?,
    };
    Ok(Told::at(at as usize, what))
}
