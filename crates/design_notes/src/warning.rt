//! What is allowed in a design, and most likely not meant.

use crate::flows::kind_flows;
use crate::nets::{NetCount, net_counts};
use crate::terminals::{Outside, is_power, outside_of, parent_lines};
use design_model::Design;
use geom_core::Name;
use note_text::{Notes, push_shown};
use std::alloc::{AllocError, Global};
use std::collections::BTreeMap;
use yal_reader::YalFile;

/// So many warnings of a kind are told one by one.
const MOST_TOLD: u32 = 20;

// Puts a pin behind a text: its terminal and its instance.
fn push_pin(text: &mut String, design: &Design, number: u32) -> Result<(), AllocError> {
    let Some(pin) = design.pins.items().get(number as usize) else {
        return Ok(());
    };
    let Some(instance) = design.instances.items().get(pin.instance as usize) else {
        return Ok(());
    };
    if let Some(kind) = design.kinds.items().get(instance.kind as usize) {
        if let Some(terminal) = kind.terminals.items().get(pin.terminal as usize) {
            push_shown(text, terminal.name.items())?;
            text.push_str(" of ")?;
        }
    }
    push_shown(text, instance.name.items())
}

// What is unusual about a net that is counted so, if anything is; from outside it is driven or not.
fn net_warning(
    alloc: Global,
    design: &Design,
    name: &Name,
    count: NetCount,
    outside: Option<bool>,
) -> Result<Option<String>, AllocError> {
    let mut text = String::from_str(alloc, "warning: net ")?;
    push_shown(&mut text, name.items())?;
    if count.pins == 1 && outside.is_none() {
        text.push_str(" has one pin alone, ")?;
        push_pin(&mut text, design, count.first)?;
        return Ok(Some(text));
    }
    if count.outputs > 1 {
        text.push_str(" has more than one output: ")?;
        push_pin(&mut text, design, count.one)?;
        text.push_str(" and ")?;
        push_pin(&mut text, design, count.other)?;
        return Ok(Some(text));
    }
    if count.outputs == 0 && outside != Some(true) {
        text.push_str(
            " has no output, and no terminal of the PARENT drives it; its first pin is ",
        )?;
        push_pin(&mut text, design, count.first)?;
        return Ok(Some(text));
    }
    Ok(None)
}

// Notes that there are more of a kind than are told.
fn note_rest(alloc: Global, notes: &mut Notes, found: u32, what: &str) -> Result<(), AllocError> {
    if found > MOST_TOLD {
        let more = found.saturating_sub(MOST_TOLD);
        notes.note(format!(in alloc; "warning: and {more} more {what}")?);
    }
    Ok(())
}

// Notes what is unusual about nets.
fn note_nets<'a>(
    alloc: Global,
    notes: &mut Notes,
    design: &'a Design,
    counts: &[NetCount],
    outside: &Outside<'a>,
) -> Result<(), AllocError> {
    let mut found = 0u32;
    for (name, count) in design.nets.items().iter().zip(counts) {
        let driven = outside.get(&name.items()).copied();
        if let Some(text) = net_warning(alloc, design, name, *count, driven)? {
            if found < MOST_TOLD {
                notes.note(text);
            }
            found = found.saturating_add(1);
        }
    }
    note_rest(alloc, notes, found, "nets like these")
}

// Notes the terminals of the PARENT that no pin bears.
fn note_terminals(
    alloc: Global,
    notes: &mut Notes,
    file: &YalFile,
    design: &Design,
) -> Result<(), AllocError> {
    let mut signals = BTreeMap::new(alloc);
    for name in design.nets.items() {
        signals.insert(name.items(), ())?;
    }
    let mut found = 0u32;
    for line in parent_lines(file) {
        if is_power(line) || signals.get(&line.name.items()).is_some() {
            continue;
        }
        if found < MOST_TOLD {
            let mut text = String::from_str(alloc, "warning: terminal ")?;
            push_shown(&mut text, line.name.items())?;
            text.push_str(" of the PARENT: no pin bears this signal")?;
            notes.note(text);
        }
        found = found.saturating_add(1);
    }
    note_rest(alloc, notes, found, "terminals like these")
}

// The same, until memory runs out.
fn noted<'a>(
    alloc: Global,
    notes: &mut Notes,
    file: &'a YalFile,
    design: &'a Design,
) -> Result<(), AllocError> {
    let flows = kind_flows(alloc, file, design)?;
    let counts = net_counts(alloc, design, flows.as_slice())?;
    let outside = outside_of(alloc, parent_lines(file))?;
    note_nets(alloc, notes, design, counts.as_slice(), &outside)?;
    note_terminals(alloc, notes, file, design)
}

/// Notes what is allowed in a design that a file says, and most likely not meant: a net of one pin that is no terminal of the PARENT, one with more than one output, one without any that no
/// terminal drives, and a terminal of the PARENT that no pin bears; the first twenty of them, and how many more there are. What memory has no room for is left out.
pub fn note_design(alloc: Global, notes: &mut Notes, file: &YalFile, design: &Design) {
    let _ = noted(alloc, notes, file, design);
}
