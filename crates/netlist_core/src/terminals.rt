//! The terminals of a module from its lines, which of them are power, and the spots of the others.

ghost use Rattle.list_facts.specs.Texts.{texts};
ghost use Rattle.netlist_core.specs.Cells.{power_names, terminal_in, terminal_names};
ghost use Rattle.std.specs.Prelude.{◌≡◌, IfOk, map};
ghost use Rattle.yal_reader.specs.Kept.{is_power};

use crate::names::Names;
use design_model::Terminal;
use geom_core::Name;
use indexmap::IndexSet;
use list_facts::{is_among, number};
use std::alloc::{AllocError, Global};
use std::marker::Model;
use yal_reader::{Flow, Line, Spot};

/// A spot of a line, and the number of the line's terminal.
#[derive(Drop)]
pub(crate) struct NumberedSpot<'a> {
    pub(crate) terminal: u32,
    pub(crate) spot: &'a Spot,
}

impl<'a> Model for NumberedSpot<'a> {
    ghost use Rattle.std.specs.Prelude.{ℕ};
    ghost use Rattle.yal_reader.specs.declared.file.Spot.{Spot};

    ghost Value = { ℕ × Spot };

    ghost view = { λ s. (s.terminal, s.spot.now) };
}

/// The lines of a module, fewer than 2^32, with the names of its terminals and those of its power terminals. Contracts see the lines.
#[derive(Drop)]
pub(crate) struct Terminals<'a> {
    lines: &'a [Line],
    names: Names<'a>,
    power: IndexSet<&'a [u8]>,
}

impl<'a> Model for Terminals<'a> {
    ghost use Rattle.std.specs.Prelude.{List};
    ghost use Rattle.yal_reader.specs.declared.file.Line.{Line};

    ghost Value = { List Line };

    ghost use Rattle.netlist_core.specs.TerminalsView.{AreTerminals};

    ghost view = { λ a. a.lines.now };

    ghost invariant = { AreTerminals };
}

impl<'a> Terminals<'a> {
    ghost use Rattle.netlist_core.specs.Cells.{spots_of, terminals_of};
    ghost use Rattle.std.specs.Prelude.{◌≡◌, ◌<◌, ◌^◌, length, IfOk};

    /// The terminals of these lines. The one error is want of memory.
    pub(crate) fn new(alloc: Global, lines: &'a [Line]) -> Result<Terminals<'a>, AllocError>
        requires { length lines.now < 2 ^ 32 }
        ensures { IfOk result (λ terminals. terminals ≡ lines.entry.now) }
    {
        let names = terminal_names(alloc, lines)?;
        let names = Names { names };
        let power = power_names(alloc, lines)?;
        Ok(Terminals {
            lines,
            names,
            power,
        })
    }

    /// The terminals, in the order of their first mention. The one error is want of memory.
    pub(crate) fn list(&self, alloc: Global) -> Result<Vec<Terminal>, AllocError>
        ensures { IfOk result (λ list. list.items ≡ terminals_of self.now) }
    {
        terminals_named(alloc, &self.names, &self.power)
    }

    /// The spots of the lines with the numbers of their terminals, in the order of the lines, without those of power terminals.
    /// The one error is want of memory.
    pub(crate) fn spots(&self, alloc: Global) -> Result<Vec<NumberedSpot<'a>>, AllocError>
        ensures { IfOk result (λ spots. spots.items ≡ spots_of self.now) }
    {
        let mut spots = Vec::new(alloc);
        for line in self.lines {
            if is_among(&self.power, line.name.items()) {
                continue;
            }
            let Some(spot) = &line.spot else {
                continue;
            };
            let terminal = self.names.place(line.name.items());
            spots.push(NumberedSpot { terminal, spot })?;
        }
        Ok(spots)
    }
}

// The names of the terminals that these lines have, in the order of their first mention. The one error is want of memory.
fn terminal_names<'a>(alloc: Global, lines: &'a [Line]) -> Result<IndexSet<&'a [u8]>, AllocError>
    ensures { IfOk result (λ names. texts names.keys ≡ terminal_names lines.entry.now) }
{
    let mut names = IndexSet::new(alloc);
    for line in lines {
        number(&mut names, line.name.items())?;
    }
    Ok(names)
}

// The names of the power terminals: those with a line whose flow is PWR or GND. The one error is want of memory.
fn power_names<'a>(alloc: Global, lines: &'a [Line]) -> Result<IndexSet<&'a [u8]>, AllocError>
    ensures { IfOk result (λ names. texts names.keys ≡ power_names lines.entry.now) }
{
    let mut names = IndexSet::new(alloc);
    for line in lines {
        if !is_power(line.flow) {
            continue;
        }
        number(&mut names, line.name.items())?;
    }
    Ok(names)
}

fn is_power(flow: Flow) -> bool
    ensures { result ≡ is_power flow }
{
    match flow {
        Flow::PWR | Flow::GND => true,
        _ => false,
    }
}

// A terminal for each name, where those of power are given. The one error is want of memory.
fn terminals_named(
    alloc: Global,
    names: &Names,
    power: &IndexSet<&[u8]>,
) -> Result<Vec<Terminal>, AllocError>
    ensures { IfOk result (λ terminals. terminals.items ≡ map (terminal_in (texts power.now.keys)) names.now) }
{
    let mut terminals = Vec::new(alloc);
    for name in names.names.iter() {
        let power = is_among(power, name);
        terminals.push(Terminal {
            name: Name::new(name.to_vec(alloc)?),
            power,
        })?;
    }
    Ok(terminals)
}
