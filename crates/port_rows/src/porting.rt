//! A design with its ports, or why it gets none.

ghost use Rattle.design_model.specs.CellsMatch.{instance_names};
ghost use Rattle.design_model.specs.Room.{HasRoom};
ghost use Rattle.design_model.specs.SameNet.{SameNet};
ghost use Rattle.limits.specs.declared.TheConstants.{MOST_ROWS};
ghost use Rattle.netlist_core.specs.OnGrid.{on_grid};
ghost use Rattle.port_rows.specs.Added.{nets_with, port_instances, port_kinds, port_pins, with_ports};
ghost use Rattle.port_rows.specs.PortRows.{cells_in, HoldCells};
ghost use Rattle.port_rows.specs.PortWords.{ported_word, BearWords};
ghost use Rattle.port_rows.specs.Ported.{first_among, inst_names, limit_fault, ported_of, ported_with, Agrees};
ghost use Rattle.row_model.specs.Rows.{ArePlaced};
ghost use Rattle.row_model.specs.declared.rows.Seat.{Seat};
ghost use Rattle.std.specs.Prelude.{◌≡◌, ◌≤◌, ◌+◌, ◌-◌, ◌^◌, ◌++◌, List, length, IfOk, None, Ok};
ghost use Rattle.yal_reader.specs.Kept.{module_names, HasAtMost, IsKept};

use crate::added::{Added, port_cells};
use crate::clashes::clash_fault;
use crate::copies::{add_all, copied_instances, copied_kinds, copied_pins};
use crate::fault::PortFault;
use crate::kind_count::greatest_height;
use crate::names::{Ports, ports_of};
use crate::nets::nets_with;
use crate::ported::Ported;
use design_model::{Design, Pin};
use geom_core::{Items, Name};
use limits::{MOST_INSTANCES, MOST_PINS};
use netlist_core::Count;
use std::alloc::{AllocError, Global};
use tech_rules::Rules;
use yal_reader::YalFile;

/// The design of a file with an instance for each port of the file's PARENT. A port is a name of the PARENT's lines of which none is
/// PWR or GND. It stands at the upper edge where its first line is O or PO, and at the lower edge otherwise.
///
/// Behind the design's kinds stand `port_south` and then `port_north`, each where there are ports of its edge: one column wide, two
/// pins and the space of the vertical layer high, with one terminal `p` and one position, which looks into the layout. Behind its
/// instances stands `port:NAME` for each port, those of the lower edge first, in the order of their first mention; and behind its pins
/// the pin of each of these, on the net of the signal NAME, which is a new one behind the others where no pin has that signal. All
/// numbers of the design stay, and without ports all of it. Two pins of the answer have one net exactly where their signals are equal: that of a port is its name.
///
/// It errs with the first of these that holds: Limit(Instances) above 20,000 instances and Limit(Pins) above 200,000 pins, ports
/// among them; Clash with the first name of a kind of ports that a module of the file bears, or else of a port's instance that an
/// instance of the design bears; and with Memory where memory runs out.
#[tactic(auto, unfolding(crate::specs::Ported::ported_of))]
pub fn ports(
    alloc: Global,
    file: &YalFile,
    design: &Design,
    rules: &Rules,
) -> Result<Ported, PortFault>
    requires file { IsKept file.now }
    requires few { HasAtMost (2 ^ 32 - 1) file.now }
    requires design { on_grid rules.now file.now ≡ Ok design.now }
    ensures is { Agrees result (ported_of rules.now file.now design.now) }
    ensures words { IfOk result (λ ported. BearWords (ported_word file.now) ported.design) }
    ensures nets { IfOk result (λ ported. SameNet (ported_word file.now) ported.design.pins) }
    ensures high { IfOk result (λ ported. HasRoom rules.now ported.design) }
    ensures cells { IfOk result (λ ported. cells_in ported ≡ length design.now.instances) }
    ensures rows { IfOk result (λ ported. (rows : List (List Seat)) → ArePlaced design.now rows → length rows ≤ MOST_ROWS → HoldCells ported rows) }
    ensures none { IfOk result (λ ported. ported.south + ported.north ≡ 0 → ported.design ≡ design.now) }
{
    // The bounds of a type are known once a field is read.
    let _pins = &design.pins;
    let _version = &rules.version;
    let ports = ports_of(alloc, file)?;
    ported_with(alloc, rules, file, design, &ports)
}

// The design of a file with these ports, or why it gets none.
#[tactic(auto, unfolding(crate::specs::Ported::port_fault))]
fn ported_with(
    alloc: Global,
    rules: &Rules,
    file: &YalFile,
    design: &Design,
    ports: &Ports,
) -> Result<Ported, PortFault>
    ensures { Agrees result (ported_with rules.now (module_names file.now.modules) design.now ports.now.south ports.now.north) }
{
    match limit_fault(design, ports) {
        Some(fault) => return Err(fault),
        None => {}
    }
    let added = port_cells(alloc, rules, design, ports)?;
    match clash_fault(alloc, file, design, &added)? {
        Some(fault) => return Err(fault),
        None => {}
    }
    Ok(Ported {
        design: with_ports(alloc, rules, design, ports, added)?,
        south: ports.south.len() as u32,
        north: ports.north.len() as u32,
    })
}

// Whether the design has too many instances or pins with these ports. Takes no memory.
#[tactic(auto, unfolding(crate::specs::Ported::limit_fault))]
fn limit_fault(design: &Design, ports: &Ports) -> Option<PortFault>
    ensures { result ≡ limit_fault design.now (length ports.now.south + length ports.now.north) }
{
    let ports = ports.south.len() + ports.north.len();
    let instances = design.instances.items().len() + ports;
    if instances > MOST_INSTANCES {
        return Some(PortFault::Limit(Count::Instances, instances as u64));
    }
    let pins = design.pins.items().len() + ports;
    if pins > MOST_PINS {
        return Some(PortFault::Limit(Count::Pins, pins as u64));
    }
    None
}

// A design with these ports, whose kinds and instances are given. The one error is want of memory.
fn with_ports(
    alloc: Global,
    rules: &Rules,
    design: &Design,
    ports: &Ports,
    added: Added,
) -> Result<Design, AllocError>
    requires small { limit_fault design.now (length ports.now.south + length ports.now.north) ≡ None }
    requires free { first_among (instance_names design.now) (inst_names added.instances.items) ≡ None }
    requires kinds { added.kinds.items ≡ port_kinds rules.now ports.now.south ports.now.north }
    requires instances { added.instances.items ≡ port_instances (length design.now.kinds) ports.now.south ports.now.north }
    ensures { IfOk result (λ ported. ported ≡ with_ports rules.now design.now ports.now.south ports.now.north) }
{
    // The bounds of a type are known once a field is read.
    let _ = &rules.version;
    let _south = &ports.south;
    let mut kinds = copied_kinds(alloc, design.kinds.items())?;
    add_all(&mut kinds, added.kinds)?;
    let mut instances = copied_instances(alloc, design.instances.items())?;
    add_all(&mut instances, added.instances)?;
    let connections = connections_with(alloc, design, ports)?;
    let height = greatest_height(kinds.as_slice());
    Ok(Design {
        kinds: Items::new(kinds),
        height,
        instances: Items::new(instances),
        pins: Items::new(connections.pins),
        nets: Items::new(connections.nets),
    })
}

// The pins and the nets of a design.
#[derive(Drop)]
struct Connections {
    pins: Vec<Pin>,
    nets: Vec<Name>,
}

// The pins and the nets of a design with these ports. The one error is want of memory.
fn connections_with(
    alloc: Global,
    design: &Design,
    ports: &Ports,
) -> Result<Connections, AllocError>
    requires { length design.now.instances + (length ports.now.south + length ports.now.north) ≤ MOST_INSTANCES }
    ensures pins { IfOk result (λ c. c.pins.items ≡ design.now.pins ++ port_pins (nets_with design.now.nets (ports.now.south ++ ports.now.north)) (length design.now.instances) (ports.now.south ++ ports.now.north)) }
    ensures nets { IfOk result (λ c. c.nets.items ≡ nets_with design.now.nets (ports.now.south ++ ports.now.north)) }
{
    let south = ports.south.as_slice();
    let first = design.instances.items().len() as u32;
    let nets = nets_with(alloc, design, ports)?;
    let mut pins = copied_pins(alloc, design.pins.items())?;
    nets.add_pins(&mut pins, first, south)?;
    nets.add_pins(
        &mut pins,
        first + south.len() as u32,
        ports.north.as_slice(),
    )?;
    Ok(Connections {
        pins,
        nets: nets.copies(alloc)?,
    })
}
