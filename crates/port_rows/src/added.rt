//! The kinds and the instances of ports.

ghost use Rattle.list_facts.specs.Texts.{texts};
ghost use Rattle.port_rows.specs.Added.{instance_name, kind_for, north_number, port_instance, port_instances, port_kind, port_kinds};
ghost use Rattle.std.specs.Prelude.{◌≡◌, ◌++◌, ◌<◌, ◌≤◌, ◌^◌, ◌-◌, length, map, IfOk, OnOk};

use crate::kind_count::kind_count;
use crate::names::Ports;
use design_model::{CellKind, Design, Inst, Position, Terminal};
use geom_core::{Items, Name};
use std::alloc::{AllocError, Global};
use tech_rules::Rules;

// The name of the kind of ports at the lower edge, and of that at the upper.
const SOUTH: &[u8] = b"port_south";

const NORTH: &[u8] = b"port_north";

/// The kinds and the instances of ports.
#[derive(Drop)]
pub(crate) struct Added {
    pub(crate) kinds: Vec<CellKind>,
    pub(crate) instances: Vec<Inst>,
}

/// The kinds and the instances of ports behind those of a design. The one error is want of memory.
pub(crate) fn port_cells(
    alloc: Global,
    rules: &Rules,
    design: &Design,
    ports: &Ports,
) -> Result<Added, AllocError>
    ensures kinds { IfOk result (λ added. added.kinds.items ≡ port_kinds rules.now ports.now.south ports.now.north) }
    ensures instances { IfOk result (λ added. added.instances.items ≡ port_instances (length design.now.kinds) ports.now.south ports.now.north) }
{
    let south = ports.south.as_slice();
    let north = ports.north.as_slice();
    let mut kinds = Vec::new(alloc);
    add_kind(alloc, rules, &mut kinds, SOUTH, true, south)?;
    add_kind(alloc, rules, &mut kinds, NORTH, false, north)?;
    let count = kind_count(design);
    let mut instances = Vec::new(alloc);
    add_instances(alloc, &mut instances, count, south)?;
    add_instances(alloc, &mut instances, north_number(count, south), north)?;
    Ok(Added { kinds, instances })
}

// Puts a kind of ports behind others, if there are ports of it. The one error is want of memory.
fn add_kind(
    alloc: Global,
    rules: &Rules,
    kinds: &mut Vec<CellKind>,
    name: &[u8],
    top: bool,
    ports: &[&[u8]],
) -> Result<(), AllocError>
    ensures { OnOk result (kinds.new.items ≡ kinds.old.items ++ kind_for (port_kind rules.now name.now top) (texts ports.now)) }
{
    if ports.is_empty() {
        return Ok(());
    }
    kinds.push(port_kind(alloc, rules, name, top)?)?;
    Ok(())
}

// The kind of ports of this name, whose pin is at the upper edge where `top` holds. The one error is want of memory.
#[tactic(auto, unfolding(crate::specs::Added::port_kind))]
fn port_kind(alloc: Global, rules: &Rules, name: &[u8], top: bool) -> Result<CellKind, AllocError>
    ensures { IfOk result (λ kind. kind ≡ port_kind rules.now name.now top) }
{
    let mut terminals = Vec::new(alloc);
    terminals.push(Terminal {
        name: Name::new(b"p".to_vec(alloc)?),
        power: false,
    })?;
    let mut positions = Vec::new(alloc);
    positions.push(Position {
        terminal: 0,
        top,
        column: 0,
    })?;
    Ok(CellKind {
        name: Name::new(name.to_vec(alloc)?),
        columns: 1,
        height: 2 * rules.grid.pin + rules.vertical.space,
        terminals: Items::new(terminals),
        positions: Items::new(positions),
    })
}

// The number of the kind of ports at the upper edge, where there are so many kinds before those of ports.
fn north_number(kinds: u32, south: &[&[u8]]) -> u32
    requires { kinds < 2 ^ 32 - 1 }
    ensures { result ≡ north_number kinds (texts south.now) }
{
    if south.is_empty() { kinds } else { kinds + 1 }
}

// Puts the instances of ports of this kind behind others. The one error is want of memory.
fn add_instances(
    alloc: Global,
    instances: &mut Vec<Inst>,
    kind: u32,
    ports: &[&[u8]],
) -> Result<(), AllocError>
    ensures { OnOk result (instances.new.items ≡ instances.old.items ++ map (port_instance kind) (texts ports.now)) }
{
    for port in ports {
        let name = instance_name(alloc, port)?;
        instances.push(Inst { name, kind })?;
    }
    Ok(())
}

// The name of a port's instance. The one error is want of memory.
fn instance_name(alloc: Global, port: &[u8]) -> Result<Name, AllocError>
    ensures { IfOk result (λ name. name ≡ instance_name port.now) }
{
    let mut bytes = b"port:".to_vec(alloc)?;
    bytes.extend_from_slice(port)?;
    Ok(Name::new(bytes))
}
