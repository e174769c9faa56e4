//! Copies of the parts of a design, in memory of their own.

ghost use Rattle.std.specs.Prelude.{◌≡◌, ◌++◌, IfOk, OnOk};

use design_model::{CellKind, Inst, Pin, Terminal};
use geom_core::{Items, Name};
use std::alloc::{AllocError, Global};

// Each of these errs only with want of memory.

/// Copies of kinds.
pub(crate) fn copied_kinds(alloc: Global, kinds: &[CellKind]) -> Result<Vec<CellKind>, AllocError>
    ensures { IfOk result (λ copies. copies.items ≡ kinds.now) }
{
    let mut copies = Vec::new(alloc);
    for kind in kinds {
        copies.push(copied_kind(alloc, kind)?)?;
    }
    Ok(copies)
}

fn copied_kind(alloc: Global, kind: &CellKind) -> Result<CellKind, AllocError>
    ensures { IfOk result (λ copy. copy ≡ kind.now) }
{
    let terminals = copied_terminals(alloc, kind.terminals.items())?;
    let positions = kind.positions.items().to_vec(alloc)?;
    Ok(CellKind {
        name: kind.name.copied(alloc)?,
        columns: kind.columns,
        height: kind.height,
        terminals: Items::new(terminals),
        positions: Items::new(positions),
    })
}

fn copied_terminals(alloc: Global, terminals: &[Terminal]) -> Result<Vec<Terminal>, AllocError>
    ensures { IfOk result (λ copies. copies.items ≡ terminals.now) }
{
    let mut copies = Vec::new(alloc);
    for terminal in terminals {
        copies.push(Terminal {
            name: terminal.name.copied(alloc)?,
            power: terminal.power,
        })?;
    }
    Ok(copies)
}

/// Copies of instances.
pub(crate) fn copied_instances(alloc: Global, instances: &[Inst]) -> Result<Vec<Inst>, AllocError>
    ensures { IfOk result (λ copies. copies.items ≡ instances.now) }
{
    let mut copies = Vec::new(alloc);
    for instance in instances {
        copies.push(Inst {
            name: instance.name.copied(alloc)?,
            kind: instance.kind,
        })?;
    }
    Ok(copies)
}

/// Copies of pins.
pub(crate) fn copied_pins(alloc: Global, pins: &[Pin]) -> Result<Vec<Pin>, AllocError>
    ensures { IfOk result (λ copies. copies.items ≡ pins.now) }
{
    pins.to_vec(alloc)
}

/// Puts items behind others.
pub(crate) fn add_all<T: Drop>(items: &mut Vec<T>, more: Vec<T>) -> Result<(), AllocError>
    ensures { OnOk result (items.new.items ≡ items.old.items ++ more.items) }
{
    for item in more {
        items.push(item)?;
    }
    Ok(())
}
