//! Constant nets that no gate drives.

ghost use Rattle.list_facts.specs.Texts.{texts};
ghost use Rattle.netlist_import.specs.Constants.{gate_drives, is_driven, pin_drives, undriven_in};
ghost use Rattle.netlist_import.specs.Nets.{all_seen};
ghost use Rattle.std.specs.List.{list_any};
ghost use Rattle.std.specs.Prelude.{◌≡◌, IfOk};

use crate::cells::{cell_named, does_drive};
use crate::nets::{Renaming, renamed};
use blif_reader::{BlifWord, Gate, Pin};
use std::alloc::{AllocError, Global};
use yal_reader::{Line, Module};

/// Whether a pin of a gate with these lines drives the net that goes by this word.
fn does_pin_drive(renamings: &[Renaming<'_>], lines: &[Line], net: &[u8], pin: &Pin) -> bool
    ensures { result ≡ pin_drives (all_seen renamings.now) lines.now net.now pin.now }
{
    net == renamed(renamings, pin.net.items()) && does_drive(lines, pin.terminal.items())
}

/// Whether one of these pins of a gate with these lines drives this net.
fn do_pins_drive(renamings: &[Renaming<'_>], lines: &[Line], net: &[u8], pins: &[Pin]) -> bool
    ensures { result ≡ list_any (pin_drives (all_seen renamings.now) lines.now net.now) pins.now }
{
    pins.iter()
        .any(|pin| does_pin_drive(renamings, lines, net, pin))
}

/// Whether a gate drives this net.
fn does_gate_drive(renamings: &[Renaming<'_>], modules: &[Module], net: &[u8], gate: &Gate) -> bool
    ensures { result ≡ gate_drives (all_seen renamings.now) modules.now net.now gate.now }
{
    match cell_named(modules, gate.module.items()) {
        Some(cell) => do_pins_drive(renamings, cell.lines.items(), net, gate.pins.items()),
        None => false,
    }
}

/// Whether one of these gates drives this net.
fn is_driven(renamings: &[Renaming<'_>], modules: &[Module], gates: &[Gate], net: &[u8]) -> bool
    ensures { result ≡ is_driven (all_seen renamings.now) modules.now gates.now net.now }
{
    gates
        .iter()
        .any(|gate| does_gate_drive(renamings, modules, net, gate))
}

/// The words of the constant nets that no gate drives. The one error is want of memory.
pub(crate) fn undriven_in<'a>(
    alloc: Global,
    renamings: &[Renaming<'a>],
    modules: &[Module],
    gates: &[Gate],
    constants: &'a [BlifWord],
) -> Result<Vec<&'a [u8]>, AllocError>
    ensures { IfOk result (λ found. texts found.items ≡ undriven_in (all_seen renamings.now) modules.now gates.now constants.entry.now) }
{
    let mut found = Vec::new(alloc);
    for constant in constants {
        let net = renamed(renamings, constant.text.items());
        if is_driven(renamings, modules, gates, net) {
            continue;
        }
        found.push(net)?;
    }
    Ok(found)
}
