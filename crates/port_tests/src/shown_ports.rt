//! Designs with ports as texts.

use design_model::{CellKind, Design};
use geom_core::Name;
use netlist_core::Count;
use port_rows::{PortFault, Ported};
use std::alloc::{AllocError, Global};

/// A design with its ports as a text, or why it gets none.
pub(crate) fn answer_text(
    alloc: Global,
    answer: &Result<Ported, PortFault>,
) -> Result<String, AllocError> {
    let mut text = String::new(alloc);
    match answer {
        Ok(ported) => put_ported(&mut text, ported)?,
        Err(fault) => put_fault(&mut text, fault)?,
    }
    Ok(text)
}

fn put_fault(text: &mut String, fault: &PortFault) -> Result<(), AllocError> {
    match fault {
        PortFault::Limit(Count::Instances, n) => write!(text, "Limit Instances {n}"),
        PortFault::Limit(Count::Pins, n) => write!(text, "Limit Pins {n}"),
        PortFault::Clash(name) => {
            text.push_str("Clash ")?;
            put_name(text, name)
        }
        PortFault::Memory => text.push_str("Memory"),
    }
}

fn put_ported(text: &mut String, ported: &Ported) -> Result<(), AllocError> {
    put_kinds(text, &ported.design)?;
    text.push_str(" / ")?;
    put_instances(text, &ported.design)?;
    text.push_str(" / ")?;
    put_pins(text, &ported.design)?;
    text.push_str(" / ")?;
    put_nets(text, &ported.design)?;
    write!(
        text,
        " / {} {} {}",
        ported.design.height, ported.south, ported.north
    )
}

fn put_kinds(text: &mut String, design: &Design) -> Result<(), AllocError> {
    for (i, kind) in design.kinds.items().iter().enumerate() {
        if i > 0 {
            text.push_str(", ")?;
        }
        put_kind(text, kind)?;
    }
    Ok(())
}

fn put_kind(text: &mut String, kind: &CellKind) -> Result<(), AllocError> {
    put_name(text, &kind.name)?;
    write!(text, " {}x{}", kind.columns, kind.height)?;
    for terminal in kind.terminals.items() {
        text.push_str(" ")?;
        put_name(text, &terminal.name)?;
        text.push_str(if terminal.power { "*" } else { "" })?;
    }
    for position in kind.positions.items() {
        let edge = if position.top { "t" } else { "b" };
        write!(text, " {}{edge}{}", position.terminal, position.column)?;
    }
    Ok(())
}

fn put_instances(text: &mut String, design: &Design) -> Result<(), AllocError> {
    for (i, instance) in design.instances.items().iter().enumerate() {
        if i > 0 {
            text.push_str(" ")?;
        }
        put_name(text, &instance.name)?;
        write!(text, ":{}", instance.kind)?;
    }
    Ok(())
}

fn put_pins(text: &mut String, design: &Design) -> Result<(), AllocError> {
    for (i, pin) in design.pins.items().iter().enumerate() {
        if i > 0 {
            text.push_str(" ")?;
        }
        write!(text, "{}.{}={}", pin.instance, pin.terminal, pin.net)?;
    }
    Ok(())
}

fn put_nets(text: &mut String, design: &Design) -> Result<(), AllocError> {
    for (i, net) in design.nets.items().iter().enumerate() {
        if i > 0 {
            text.push_str(" ")?;
        }
        put_name(text, net)?;
    }
    Ok(())
}

/// Puts a name behind a text.
pub(crate) fn put_name(text: &mut String, name: &Name) -> Result<(), AllocError> {
    for byte in name.items() {
        text.push(char::from(*byte))?;
    }
    Ok(())
}
