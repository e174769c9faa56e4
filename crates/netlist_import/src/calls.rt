//! Gates as calls.

ghost use Rattle.list_facts.specs.Texts.{texts};
ghost use Rattle.netlist_import.specs.Calls.{call_of, calls_of, fitting_pins, is_power_word, net_word, pin_at, terminal_word, words_of};
ghost use Rattle.netlist_import.specs.Cells.{terminal_names};
ghost use Rattle.netlist_import.specs.Faults.{Answers, each};
ghost use Rattle.netlist_import.specs.Nets.{all_seen, renamed};
ghost use Rattle.std.specs.Option.{option_map};
ghost use Rattle.std.specs.Prelude.{◌≡◌, [], IfOk};

use crate::cells::{cell_named, is_among, is_name, power_word, terminals_of};
use crate::fault::{ImportFault, ImportKind, refused};
use crate::names::name_of;
use crate::nets::{Renaming, renamed};
use blif_reader::{Gate, Pin};
use geom_core::{Items, Name};
use std::alloc::{AllocError, Global};
use yal_reader::{Call, Line, Module};

/// Whether a word is that of a power terminal.
fn is_power_word(word: &[u8]) -> bool
    ensures { result ≡ is_power_word word.now }
{
    word == b"VDD".as_slice() || word == b"GND".as_slice()
}

/// Tests the word that the net of a word of the text goes by.
#[tactic(auto, unfolding(crate::specs::Calls::net_word))]
pub(crate) fn check_net(
    alloc: Global,
    undriven: &[&[u8]],
    word: &[u8],
    net: &[u8],
    at: u64,
) -> Result<(), ImportFault>
    ensures { Answers (λ _. net.now) result (net_word (texts undriven.now) word.now net.now at) }
{
    if is_power_word(net) {
        return Err(refused(alloc, ImportKind::Power, word, at));
    }
    if is_among(undriven, net) {
        return Err(refused(alloc, ImportKind::Constant, word, at));
    }
    Ok(())
}

/// Tests that pins are those of a module with these terminals and lines, and that none stands twice.
#[tactic(auto, unfolding(crate::specs::Calls::fitting_pins))]
fn check_pins(
    alloc: Global,
    terminals: &[Name],
    lines: &[Line],
    pins: &[Pin],
) -> Result<(), ImportFault>
    ensures { Answers (λ x. x) result (fitting_pins terminals.now lines.now [] pins.now) }
{
    let mut seen = Vec::new(alloc);
    for pin in pins {
        let name = pin.terminal.items();
        if !is_name(terminals, name) {
            return Err(refused(alloc, ImportKind::Pin, name, pin.at));
        }
        if power_word(lines, name).is_some() {
            return Err(refused(alloc, ImportKind::Pin, name, pin.at));
        }
        if is_among(seen.as_slice(), name) {
            return Err(refused(alloc, ImportKind::Twice, name, pin.at));
        }
        seen.push(name)?;
    }
    Ok(())
}

/// The pin at a terminal. Takes no memory.
fn pin_at<'a>(pins: &'a [Pin], name: &[u8]) -> Option<&'a Pin>
    ensures { option_map (λ p. p.now) result ≡ pin_at pins.entry.now name.now }
{
    pins.iter().find(|pin| name == pin.terminal.items())
}

/// A name of these bytes, in memory of its own. The one error is want of memory.
fn named(alloc: Global, text: &[u8]) -> Result<Name, AllocError>
    ensures { IfOk result (λ name. name ≡ text.now) }
{
    Ok(Name::new(text.to_vec(alloc)?))
}

/// The word of the net of a pin.
fn pin_word(
    alloc: Global,
    renamings: &[Renaming<'_>],
    undriven: &[&[u8]],
    pin: &Pin,
) -> Result<Name, ImportFault>
    ensures { Answers (λ word. word) result (net_word (texts undriven.now) pin.now.net (renamed (all_seen renamings.now) pin.now.net) pin.now.at) }
{
    let net = renamed(renamings, pin.net.items());
    check_net(alloc, undriven, pin.net.items(), net, pin.at)?;
    Ok(named(alloc, net)?)
}

/// The word at a terminal of the cell of a gate, which has these lines.
#[tactic(auto, unfolding(crate::specs::Calls::terminal_word))]
fn terminal_word(
    alloc: Global,
    renamings: &[Renaming<'_>],
    undriven: &[&[u8]],
    lines: &[Line],
    gate: &Gate,
    name: &[u8],
) -> Result<Name, ImportFault>
    ensures { Answers (λ word. word) result (terminal_word (all_seen renamings.now) (texts undriven.now) lines.now gate.now name.now) }
{
    if let Some(word) = power_word(lines, name) {
        return Ok(named(alloc, word)?);
    }
    let Some(pin) = pin_at(gate.pins.items(), name) else {
        return Err(refused(alloc, ImportKind::Missing, name, gate.at));
    };
    pin_word(alloc, renamings, undriven, pin)
}

/// The words at these terminals of the cell of a gate.
fn terminal_words(
    alloc: Global,
    renamings: &[Renaming<'_>],
    undriven: &[&[u8]],
    lines: &[Line],
    gate: &Gate,
    names: &[Name],
) -> Result<Vec<Name>, ImportFault>
    ensures { Answers (λ words. words.items) result (each (terminal_word (all_seen renamings.now) (texts undriven.now) lines.now gate.now) names.now) }
{
    let mut found = Vec::new(alloc);
    for name in names {
        let word = terminal_word(alloc, renamings, undriven, lines, gate, name.items())?;
        found.push(word)?;
    }
    Ok(found)
}

/// The words of a gate in the order of the terminals of its cell, which has these lines.
#[tactic(auto, unfolding(crate::specs::Calls::words_of))]
fn words_of(
    alloc: Global,
    renamings: &[Renaming<'_>],
    undriven: &[&[u8]],
    lines: &[Line],
    gate: &Gate,
) -> Result<Vec<Name>, ImportFault>
    ensures { Answers (λ words. words.items) result (words_of (all_seen renamings.now) (texts undriven.now) lines.now gate.now) }
{
    let names = terminals_of(alloc, lines)?;
    check_pins(alloc, names.as_slice(), lines, gate.pins.items())?;
    terminal_words(alloc, renamings, undriven, lines, gate, names.as_slice())
}

/// A gate of this number as a call.
#[tactic(auto, unfolding(crate::specs::Calls::call_of))]
fn call_of(
    alloc: Global,
    modules: &[Module],
    renamings: &[Renaming<'_>],
    undriven: &[&[u8]],
    number: u64,
    gate: &Gate,
) -> Result<Call, ImportFault>
    ensures { Answers (λ call. call) result (call_of modules.now (all_seen renamings.now) (texts undriven.now) (number, gate.now)) }
{
    let Some(cell) = cell_named(modules, gate.module.items()) else {
        return Err(refused(alloc, ImportKind::Cell, gate.module.items(), gate.at));
    };
    let words = words_of(alloc, renamings, undriven, cell.lines.items(), gate)?;
    Ok(Call {
        name: name_of(alloc, number, gate)?,
        module: gate.module.copied(alloc)?,
        signals: Items::new(words),
    })
}

/// The gates as calls.
pub(crate) fn calls_of(
    alloc: Global,
    modules: &[Module],
    renamings: &[Renaming<'_>],
    undriven: &[&[u8]],
    gates: &[Gate],
) -> Result<Vec<Call>, ImportFault>
    ensures { Answers (λ calls. calls.items) result (calls_of modules.now (all_seen renamings.now) (texts undriven.now) gates.now) }
{
    let mut found = Vec::new(alloc);
    let mut number: u64 = 0;
    for gate in gates {
        let call = call_of(alloc, modules, renamings, undriven, number, gate)?;
        found.push(call)?;
        number += 1;
    }
    Ok(found)
}
