//! The layout that a list of CIF commands gives, or the number of the first refused command and the reason.

ghost use Rattle.cif_reader.specs.Expanding.{fault_of, told_of};
ghost use Rattle.read_base.specs.Answers.{AnswersAs};
ghost use Rattle.cif_reader.specs.Expansion.{expansion};
ghost use Rattle.cif_reader.specs.Within.{IsLayoutWithin};
ghost use Rattle.cif_text.specs.Bodies.{IsDrawnBy};
ghost use Rattle.cif_text.specs.Sound.{AreSound};
ghost use Rattle.std.specs.Prelude.{◌≡◌, ◌^◌, ◌<◌, false, length, IfOk};

use crate::fault::ExpandFault;
use crate::refusal::ExpandStop;
use crate::standing::{Standing, at_first, step};
use cif_text::CifCommand;
use geom_core::{Items, Layout};
use std::alloc::Global;

pub(crate) fn fault_at(refusal: ExpandStop, at: u32) -> ExpandFault
    ensures { result ≡ fault_of refusal at }
{
    match refusal {
        ExpandStop::Because(kind) => ExpandFault::Bad { kind, at },
        ExpandStop::Memory => ExpandFault::Memory,
    }
}

pub(crate) fn layout_of(standing: Standing) -> Layout
    ensures { result ≡ record { cells = standing.main.cells.items; shapes = standing.main.shapes.items } }
{
    Layout {
        cells: Items::new(standing.main.cells),
        shapes: Items::new(standing.main.shapes),
    }
}

/// The layout that commands of CIF give within the limits of the reader, in half centimicrons (Mead and Conway's CIF 2.0). The commands
/// are sound, as those that `read_commands` of `cif_text` gives, and fewer than 2^32. Bad comes exactly where a command is
/// refused, with the number of the first such command and the first reason that applies to it; want of memory may come at any
/// time. The layout has at most 4,000,000 shapes, of which none lies farther than 4,000,000,000 half centimicrons from 0. Only
/// what the main level shows is drawn, so nested calls of however many shapes are refused at once.
pub fn expand(alloc: Global, commands: &[CifCommand]) -> Result<Layout, ExpandFault>
    requires sound { AreSound false commands.now }
    requires few { length commands.now < 2 ^ 32 }
    ensures expands { AnswersAs (λ layout. layout) told_of result (expansion commands.now) }
    ensures drawn { IfOk result (λ layout. IsDrawnBy commands.now layout) }
    ensures within { IfOk result (λ layout. IsLayoutWithin (length commands.now) layout) }
{
    let mut standing = at_first(alloc);
    let mut at: u32 = 0;
    let mut rest = commands;
    while let Some((command, after)) = rest.split_first() {
        match step(alloc, &mut standing, command) {
            Ok(()) => {}
            Err(refusal) => return Err(fault_at(refusal, at)),
        }
        at += 1;
        rest = after;
    }
    Ok(layout_of(standing))
}
