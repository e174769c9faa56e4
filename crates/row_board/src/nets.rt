//! The nets of a design: the pins of each net, and of each instance its pins with their places in their nets, and its width.

ghost use Rattle.list_facts.specs.Lists.{list_there};
ghost use Rattle.row_board.specs.NetPins.{AreInOrder, ArePins, ArePinsByInstance, joined_by};
ghost use Rattle.std.specs.List.{range_with_len};
ghost use Rattle.std.specs.Prelude.{◌≡◌, ◌<◌, ◌≤◌, ℕ, length, map, slice_get, sum, IfOk};

use crate::flat_lists::FlatLists;
use crate::net_pins::{InstancePin, NetPin, pin_tables};
use crate::widths::widths_of;
use design_model::Design;
use limits::{MOST_KIND_COLUMNS, MOST_PINS};
use std::alloc::{AllocError, Global};
use std::marker::Model;

// The pins of each net and those of each instance, each table in one piece of memory.
fn flat_tables(
    alloc: Global,
    design: &Design,
) -> Result<(FlatLists<NetPin>, FlatLists<InstancePin>), AllocError>
    ensures by_net { IfOk result (λ tables. ArePins design.now tables.0) }
    ensures by_instance { IfOk result (λ tables. ArePinsByInstance design.now tables.1) }
    ensures in_order { IfOk result (λ tables. AreInOrder design.now tables.1) }
    ensures long { IfOk result (λ tables. length tables.1 ≡ length design.now.instances) }
{
    let (by_net, by_instance) = pin_tables(alloc, design)?;
    let nets = FlatLists::of(alloc, &by_net, design.nets.items().len() + 1)?;
    let instances = FlatLists::of(alloc, &by_instance, design.instances.items().len())?;
    Ok((nets, instances))
}

// The greatest number of pins that one of so many instances has.
fn most_pins_of(pins: &FlatLists<InstancePin>, count: usize) -> usize
    requires { (i : ℕ) → i < count → length (list_there (slice_get pins.now i)) ≤ MOST_PINS }
    ensures all { (i : ℕ) → i < count → length (list_there (slice_get pins.now i)) ≤ result }
    ensures few { result ≤ MOST_PINS }
{
    let mut most = 0;
    for instance in 0..count {
        most = most.max(pins.at(instance).len());
    }
    most
}

// How many pins of an instance are joined with others by their nets.
fn joined_among(nets: &FlatLists<NetPin>, pins: &[InstancePin]) -> u32
    requires { length pins.now ≤ MOST_PINS }
    ensures { result ≡ sum (map (joined_by nets.now) pins.now) }
{
    let mut found = 0;
    let mut rest = pins;
    while let Some((pin, after)) = rest.split_first() {
        if nets.at(pin.net as usize).len() > 1 {
            found += 1;
        }
        rest = after;
    }
    found
}

// How many pins of each of so many instances are joined with others. The one error is want of memory.
fn joined_of(
    alloc: Global,
    nets: &FlatLists<NetPin>,
    pins: &FlatLists<InstancePin>,
    count: usize,
) -> Result<Vec<u32>, AllocError>
    requires { (i : ℕ) → i < count → length (list_there (slice_get pins.now i)) ≤ MOST_PINS }
    ensures { IfOk result (λ joined. joined.items ≡ map (λ (i : ℕ). sum (map (joined_by nets.now) (list_there (slice_get pins.now i)))) (range_with_len 0 count)) }
{
    let mut joined = Vec::new(alloc);
    for instance in 0..count {
        joined.push(joined_among(nets, pins.at(instance)))?;
    }
    Ok(joined)
}

/// The nets of a design: the pins of each net, and of each instance its pins and its width in columns. Of the pins of each instance it also tells how many are joined with others,
/// and the greatest number that one has. Contracts see the design.
#[derive(Drop)]
pub(crate) struct Nets<'d> {
    design: &'d Design,
    by_net: FlatLists<NetPin>,
    by_instance: FlatLists<InstancePin>,
    widths: Vec<u32>,
    joined: Vec<u32>,
    most_pins: usize,
}

impl<'d> Model for Nets<'d> {
    ghost use Rattle.design_model.specs.Netlist.{Netlist};

    ghost Value = { Netlist };

    ghost use Rattle.row_board.specs.NetsView.{design_in, AreTables};

    ghost view = { design_in };

    ghost invariant = { AreTables };
}

impl<'d> Nets<'d> {
    ghost use Rattle.design_model.specs.Netlist.{IsNetlist};
    ghost use Rattle.row_board.specs.NetPins.{AreInstancePins, net_pins, own_pin, pin_with_net, pins_of_instance};
    ghost use Rattle.row_board.specs.Trial.{joined, marked_pins};
    ghost use Rattle.row_model.specs.Widths.{columns_of};
    ghost use Rattle.std.specs.Prelude.{◌≡◌, ◌<◌, ◌≤◌, ℕ, length, map, IfOk};

    /// The nets of a design. The one error is want of memory.
    pub(crate) fn new(alloc: Global, design: &'d Design) -> Result<Nets<'d>, AllocError>
        ensures { IfOk result (λ nets. nets ≡ design.entry.now) }
    {
        // The bounds of the design's type are known once a field is read.
        let _pins = &design.pins;
        let (by_net, by_instance) = flat_tables(alloc, design)?;
        let widths = widths_of(alloc, design)?;
        let count = design.instances.items().len();
        let joined = joined_of(alloc, &by_net, &by_instance, count)?;
        let most_pins = most_pins_of(&by_instance, count);
        Ok(Nets {
            design,
            by_net,
            by_instance,
            widths,
            joined,
            most_pins,
        })
    }

    /// The design.
    pub(crate) fn design(&self) -> &'d Design
        ensures is { result.now ≡ self.now }
        ensures good { IsNetlist self.now }
    {
        self.design
    }

    /// The pins of a net of the design.
    pub(crate) fn pins(&self, net: usize) -> &[NetPin]
        ensures is { net ≤ length self.now.nets → result.now ≡ net_pins self.now net }
        ensures few { net ≤ length self.now.nets → length result.now ≤ MOST_PINS }
    {
        self.by_net.at(net)
    }

    /// The pins of an instance of the design.
    pub(crate) fn of(&self, instance: u32) -> &[InstancePin]
        requires { instance < length self.now.instances }
        ensures placed { AreInstancePins (net_pins self.now) (length self.now.nets) instance result.now }
        ensures in_order { map (own_pin instance) result.now ≡ map (pin_with_net self.now) (pins_of_instance self.now instance) }
    {
        self.by_instance.known(instance as usize)
    }

    /// A number of pins that no instance has more of.
    pub(crate) fn most_pins(&self) -> u64
        ensures all { (i : ℕ) → length (pins_of_instance self.now i) ≤ result }
        ensures few { result ≤ MOST_PINS }
    {
        self.most_pins as u64
    }

    /// How many pins of an instance of the design are joined with others by their nets.
    pub(crate) fn joined(&self, instance: u32) -> u64
        requires { instance < length self.now.instances }
        ensures { result ≡ marked_pins self.now (joined self.now) instance }
    {
        u64::from(self.joined[instance as usize])
    }

    /// The width of an instance of the design in columns, 0 of any other.
    pub(crate) fn columns_of(&self, instance: u32) -> u32
        ensures width { result ≡ columns_of self.now instance }
        ensures few { result ≤ MOST_KIND_COLUMNS }
    {
        match self.widths.get(instance as usize) {
            Some(width) => *width,
            None => 0,
        }
    }
}
