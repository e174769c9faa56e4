//! The names of a PARENT's ports, by the edges at which they stand.

ghost use Rattle.list_facts.specs.Texts.{texts};
ghost use Rattle.netlist_core.specs.Cells.{power_names};
ghost use Rattle.port_rows.specs.PortNames.{lent_lines, ports_in};
ghost use Rattle.port_rows.specs.Ports.{first_lines, is_port, parent_lines, ports_among};
ghost use Rattle.std.specs.Prelude.{◌≡◌, ◌-◌, ◌^◌, IfOk};
ghost use Rattle.yal_reader.specs.Kept.{HasAtMost, IsKept};

use crate::parent::{is_power, leads_out, parent_lines};
use indexmap::IndexSet;
use list_facts::{is_among, is_new, number};
use std::alloc::{AllocError, Global};
use std::marker::Model;
use yal_reader::{Line, YalFile};

/// The names of ports, all different: those of the lower edge and those of the upper. Contracts see them as lists.
#[derive(Drop)]
pub(crate) struct Ports<'a> {
    pub(crate) south: Vec<&'a [u8]>,
    pub(crate) north: Vec<&'a [u8]>,
}

impl<'a> Model for Ports<'a> {
    ghost use Rattle.port_rows.specs.PortNames.{PortNames};

    ghost Value = { PortNames };

    ghost use Rattle.port_rows.specs.PortsView.{names_in, ArePortNames};

    ghost view = { names_in };

    ghost invariant = { ArePortNames };
}

/// The ports of a file's first PARENT, in the order of their first mention. The one error is want of memory.
pub(crate) fn ports_of<'a>(alloc: Global, file: &'a YalFile) -> Result<Ports<'a>, AllocError>
    requires file { IsKept file.now }
    requires few { HasAtMost (2 ^ 32 - 1) file.now }
    ensures { IfOk result (λ ports. ports ≡ ports_in (parent_lines file.entry.now)) }
{
    let lines = parent_lines(file);
    let power = power_names(alloc, lines)?;
    let firsts = first_lines(alloc, lines)?;
    let south = side_ports(alloc, &power, firsts.as_slice(), false)?;
    let north = side_ports(alloc, &power, firsts.as_slice(), true)?;
    Ok(Ports { south, north })
}

// The names that have a line of power. The one error is want of memory.
fn power_names<'a>(alloc: Global, lines: &'a [Line]) -> Result<IndexSet<&'a [u8]>, AllocError>
    ensures { IfOk result (λ names. texts names.keys ≡ power_names lines.entry.now) }
{
    let mut names = IndexSet::new(alloc);
    for line in lines {
        if !is_power(line.flow) {
            continue;
        }
        number(&mut names, line.name.items())?;
    }
    Ok(names)
}

// The first line of each name. The one error is want of memory.
#[tactic(auto, unfolding(crate::specs::Ports::first_lines))]
fn first_lines<'a>(alloc: Global, lines: &'a [Line]) -> Result<Vec<&'a Line>, AllocError>
    ensures { IfOk result (λ firsts. lent_lines firsts.items ≡ first_lines lines.entry.now) }
{
    let mut seen = IndexSet::new(alloc);
    let mut firsts = Vec::new(alloc);
    for line in lines {
        if !is_new(&mut seen, line.name.items())? {
            continue;
        }
        firsts.push(line)?;
    }
    Ok(firsts)
}

// The ports of the side that these first lines lead to, the upper where `out` holds. The one error is want of memory.
fn side_ports<'a>(
    alloc: Global,
    power: &IndexSet<&[u8]>,
    firsts: &[&'a Line],
    out: bool,
) -> Result<Vec<&'a [u8]>, AllocError>
    ensures { IfOk result (λ names. texts names.items ≡ ports_among (texts power.now.keys) out (lent_lines firsts.now)) }
{
    let mut names = Vec::new(alloc);
    for line in firsts {
        if !is_port(power, line, out) {
            continue;
        }
        names.push(line.name.items())?;
    }
    Ok(names)
}

// Whether a first line is that of a port of this side.
fn is_port(power: &IndexSet<&[u8]>, line: &Line, out: bool) -> bool
    ensures { result ≡ is_port (texts power.now.keys) out line.now }
{
    if is_among(power, line.name.items()) {
        return false;
    }
    leads_out(line.flow) == out
}
