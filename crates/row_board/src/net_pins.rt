//! The pins of each net with their offsets in their cells, and the pins of each instance with their places in their nets.

ghost use Rattle.row_board.specs.NetPins.{AreInOrder, ArePins, ArePinsByInstance, net_pin, offset_of};
ghost use Rattle.std.specs.Prelude.{◌≡◌, IfOk};

use design_model::{Design, Pin};
use list_facts::Lists;
use row_model::{ColumnTables, columns_of, turned_column};
use std::alloc::{AllocError, Global};

/// A pin of a net: its instance, and how far its first position is from the left side of the cell, upright and mirrored.
#[derive(Clone, Copy, Debug)]
pub(crate) struct NetPin {
    pub(crate) instance: u32,
    pub(crate) upright: u32,
    pub(crate) mirrored: u32,
}

/// A pin of an instance: its net, its place among the pins of the net, and how far its first position is from the left side of the cell,
/// upright and mirrored.
#[derive(Clone, Copy, Debug)]
pub(crate) struct InstancePin {
    pub(crate) net: u32,
    pub(crate) place: u32,
    pub(crate) upright: u32,
    pub(crate) mirrored: u32,
}

// How far a position stands from the left side of a cell of so many columns.
fn offset_of(mirror: bool, columns: u32, column: Option<u32>) -> u32
    ensures { result ≡ offset_of mirror columns column }
{
    match column {
        Some(column) => turned_column(mirror, columns, column),
        None => 0,
    }
}

// A pin as its net has it.
fn net_pin(tables: &ColumnTables, pin: Pin) -> NetPin
    ensures { result ≡ net_pin tables.now pin }
{
    let columns = columns_of(tables.design(), pin.instance);
    let first = tables.of(pin).first;
    NetPin {
        instance: pin.instance,
        upright: offset_of(false, columns, first),
        mirrored: offset_of(true, columns, first),
    }
}

/// The pins of each net, by the numbers of the nets, from 1, and those of each instance. The one error is want of memory; steps as the
/// number of pins and positions.
pub(crate) fn pin_tables(
    alloc: Global,
    design: &Design,
) -> Result<(Lists<NetPin>, Lists<InstancePin>), AllocError>
    ensures by_net { IfOk result (λ tables. ArePins design.now tables.0) }
    ensures by_instance { IfOk result (λ tables. ArePinsByInstance design.now tables.1) }
    ensures in_order { IfOk result (λ tables. AreInOrder design.now tables.1) }
{
    let tables = ColumnTables::new(alloc, design)?;
    let mut by_net = Lists::new(alloc, design.nets.items().len() + 1)?;
    let mut by_instance = Lists::new(alloc, design.instances.items().len())?;
    let mut rest = design.pins.items();
    while let Some((pin, after)) = rest.split_first() {
        let net = pin.net as usize;
        let one = net_pin(&tables, *pin);
        let own = InstancePin {
            net: pin.net,
            place: by_net.at(net).len() as u32,
            upright: one.upright,
            mirrored: one.mirrored,
        };
        by_net.push(net, one)?;
        by_instance.push(pin.instance as usize, own)?;
        rest = after;
    }
    Ok((by_net, by_instance))
}
