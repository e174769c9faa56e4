//! From the bytes of the rules file and of the design's file to rules, a file of YAL and a design.

ghost use Rattle.command_inputs.specs.Drawn.{design_said, drawn_said, file_said};
ghost use Rattle.command_inputs.specs.Origin.{AreDesignsFor};
ghost use Rattle.command_inputs.specs.Reading.{Says};
ghost use Rattle.command_inputs.specs.Stated.{stated_design, stated_rules};
ghost use Rattle.design_model.specs.Room.{HasRoom};
ghost use Rattle.design_model.specs.SameNet.{SameNet};
ghost use Rattle.netlist_core.specs.OnGrid.{on_grid};
ghost use Rattle.netlist_core.specs.SignalWords.{parent_calls, word_of};
ghost use Rattle.std.specs.Prelude.{◌≡◌, ◌≤◌, ◌-◌, ◌^◌, length, IfOk, Ok};
ghost use Rattle.yal_reader.specs.Kept.{HasAtMost, IsKept};

use crate::fault_name::fault_name;
use command_ends::{Limited, Refusal};
use design_model::Design;
use limits::MOST_DESIGN_BYTES;
use netlist_core::{Count, DesignFault, to_design};
use port_rows::{Designs, PortFault, ports};
use std::alloc::Global;
use tech_rules::{Rules, RulesFault, read_rules};
use yal_reader::{YalFault, YalFile, numbers_of, read_yal};

/// The rules that a text states.
pub(crate) fn stated_rules(alloc: Global, bytes: &[u8]) -> Result<Rules, Refusal>
    ensures { Says (λ rules. rules) result (stated_rules bytes.now) }
{
    match read_rules(alloc, bytes) {
        Ok(rules) => Ok(rules),
        Err(RulesFault::Toml) => Err(Refusal::Toml),
        Err(RulesFault::Missing(key)) => Err(Refusal::Missing(key)),
        Err(RulesFault::Range(key)) => Err(Refusal::Range(key)),
        Err(RulesFault::Tight(rule)) => Err(Refusal::Tight(rule)),
        Err(RulesFault::Memory) => Err(Refusal::Memory),
    }
}

/// A file of YAL, and the designs that it says.
#[derive(Drop)]
pub(crate) struct ReadDesign {
    pub(crate) file: YalFile,
    pub(crate) designs: Designs,
}

// The designs of a file that says this one, which is drawn with its ports where these are wished for.
fn designs_of(
    alloc: Global,
    file: &YalFile,
    design: Design,
    rules: &Rules,
    wanted: bool,
) -> Result<Designs, Refusal>
    requires file { IsKept file.now }
    requires few { HasAtMost (2 ^ 32 - 1) file.now }
    requires design { on_grid rules.now file.now ≡ Ok design }
    requires nets { SameNet (word_of (parent_calls file.now)) design.pins }
    requires high { HasRoom rules.now design }
    ensures says { Says (λ designs. designs) result (drawn_said wanted rules.now file.now design) }
    ensures are { IfOk result (λ designs. AreDesignsFor rules.now wanted file.now designs) }
{
    if !wanted {
        return Ok(Designs::bare(design));
    }
    match ports(alloc, file, &design, rules) {
        Ok(drawn) => {
            let bare = Some(design);
            Ok(Designs { drawn, bare })
        }
        Err(PortFault::Memory) => Err(Refusal::Memory),
        Err(PortFault::Limit(Count::Instances, n)) => Err(Refusal::Limit(Limited::Instances, n)),
        Err(PortFault::Limit(Count::Pins, n)) => Err(Refusal::Limit(Limited::Pins, n)),
        Err(PortFault::Clash(name)) => Err(Refusal::PortClash(name)),
    }
}

// The design that a file says.
fn design_in(alloc: Global, file: &YalFile, rules: &Rules) -> Result<Design, Refusal>
    requires file { IsKept file.now }
    requires few { HasAtMost (2 ^ 32 - 1) file.now }
    ensures says { Says (λ design. design) result (design_said file.now (on_grid rules.now file.now)) }
    ensures is { IfOk result (λ design. on_grid rules.now file.now ≡ Ok design) }
    ensures nets { IfOk result (λ design. SameNet (word_of (parent_calls file.now)) design.pins) }
    ensures high { IfOk result (λ design. HasRoom rules.now design) }
{
    match to_design(alloc, file, rules) {
        Ok(design) => Ok(design),
        Err(DesignFault::Memory) => Err(Refusal::Memory),
        Err(DesignFault::Limit(Count::Instances, n)) => Err(Refusal::Limit(Limited::Instances, n)),
        Err(DesignFault::Limit(Count::Pins, n)) => Err(Refusal::Limit(Limited::Pins, n)),
        Err(fault) => Err(Refusal::Design(fault, fault_name(alloc, file, fault)?)),
    }
}

// A file with the designs that it says, drawn with ports where these are wished for.
#[tactic(auto, unfolding(crate::specs::Drawn::file_said))]
fn designs_in(
    alloc: Global,
    file: YalFile,
    rules: &Rules,
    ports: bool,
) -> Result<ReadDesign, Refusal>
    requires file { IsKept file }
    requires few { HasAtMost (2 ^ 32 - 1) file }
    ensures says { Says (λ read. read) result (file_said ports rules.now file) }
    ensures are { IfOk result (λ read. AreDesignsFor rules.now ports read.file read.designs) }
{
    let design = design_in(alloc, &file, rules)?;
    let designs = designs_of(alloc, &file, design, rules, ports)?;
    Ok(ReadDesign { file, designs })
}

/// The file that a text of YAL is, and the designs that it says, drawn with ports where these are wished for.
#[tactic(auto, unfolding(crate::specs::Stated::stated_design))]
pub(crate) fn stated_design(
    alloc: Global,
    bytes: &[u8],
    rules: &Rules,
    ports: bool,
) -> Result<ReadDesign, Refusal>
    requires { length bytes.now ≤ MOST_DESIGN_BYTES }
    ensures says { Says (λ read. read) result (stated_design rules.now ports bytes.now) }
    ensures are { IfOk result (λ read. AreDesignsFor rules.now ports read.file read.designs) }
{
    let numbers = numbers_of(rules.version, rules.decimals);
    let file = match read_yal(alloc, bytes, numbers) {
        Ok(file) => file,
        Err(YalFault::Memory) => return Err(Refusal::Memory),
        Err(YalFault::Bad { kind, at }) => return Err(Refusal::Yal(kind, at)),
    };
    designs_in(alloc, file, rules, ports)
}
