//! The checked design of a YAL file under rules, or the first fault in the order of the checks.

ghost use Rattle.netlist_core.specs.Answers.{unless, Agrees};
ghost use Rattle.netlist_core.specs.Calls.{over};
ghost use Rattle.netlist_core.specs.OnGrid.{calls_design, on_grid, used_design, used_modules};
ghost use Rattle.design_model.specs.Room.{HasRoom};
ghost use Rattle.design_model.specs.SameNet.{SameNet};
ghost use Rattle.netlist_core.specs.SignalWords.{parent_calls, word_of};
ghost use Rattle.netlist_core.specs.Signals.{all_signals};
ghost use Rattle.netlist_core.specs.declared.fault.Count.TheVariants.{Pins};
ghost use Rattle.std.specs.Prelude.{◌-◌, ◌^◌, length, IfOk};
ghost use Rattle.yal_reader.specs.Kept.{HasAtMost, IsKept};

use crate::calls::{Calls, calls_fault};
use crate::checked::{Checked, used_design};
use crate::circuit::Circuit;
use crate::library::Library;
use crate::modules::{Modules, Parent, the_parent};
use crate::signals::signals_of;
use crate::used::used_modules;
use crate::{Count, DesignFault};
use design_model::Design;
use limits::{MOST_INSTANCES, MOST_PINS};
use std::alloc::Global;
use tech_rules::Rules;
use yal_reader::YalFile;

/// The checked design of a file: its PARENT's calls as instances, the modules that they use as kinds on the column grid of the
/// rules, and the pins with the nets that their signal words make. Two pins have one net exactly where their words are equal.
/// Kinds stand in the order of the file, positions in that of their lines, instances in that of the calls, and terminals and
/// nets in the order of their first mention. A kind is as high as its own module, and has room for two pins and the space
/// between them; the height of the design is the greatest of its kinds, and 0 where there is none.
///
/// It errs with the first of these that holds: NoParent, ManyParents, Limit(Instances) above 20,000; then by instance
/// UnknownModule, NotStandard or SignalCount; Limit(Pins) above 200,000; then by used module, in the order of the file, NoShape,
/// OffGrid, TooLow, PinClash or WrongLayer; and with Memory where memory runs out.
#[tactic(auto, unfolding(crate::specs::OnGrid::on_grid))]
pub fn to_design(alloc: Global, file: &YalFile, rules: &Rules) -> Result<Design, DesignFault>
    requires file { IsKept file.now }
    requires few { HasAtMost (2 ^ 32 - 1) file.now }
    ensures is { Agrees (λ design. design) result (on_grid rules.now file.now) }
    ensures nets { IfOk result (λ design. SameNet (word_of (parent_calls file.now)) design.pins) }
    ensures high { IfOk result (HasRoom rules.now) }
{
    let modules = Modules {
        modules: file.modules.items(),
    };
    let parent = the_parent(&modules)?;
    calls_design(alloc, rules, modules, &parent)
}

// The design of the calls of this PARENT of a file with these modules.
#[tactic(auto, unfolding(crate::specs::OnGrid::calls_design))]
fn calls_design(
    alloc: Global,
    rules: &Rules,
    modules: Modules,
    parent: &Parent,
) -> Result<Design, DesignFault>
    ensures is { Agrees (λ design. design) result (calls_design rules.now modules.entry parent.now.calls) }
    ensures nets { IfOk result (λ design. SameNet (word_of parent.now.calls) design.pins) }
{
    let calls = parent.calls();
    if calls.len() > MOST_INSTANCES {
        return Err(DesignFault::Limit(Count::Instances, calls.len() as u64));
    }
    let calls = Calls { calls };
    let library = Library::new(alloc, modules)?;
    match calls_fault(&library, &calls) {
        Some(fault) => return Err(fault),
        None => {}
    }
    called_design(alloc, rules, &Circuit { library, calls })
}

// The design of calls that fit their modules.
fn called_design(alloc: Global, rules: &Rules, circuit: &Circuit) -> Result<Design, DesignFault>
    ensures is { Agrees (λ design. design) result (unless (over Pins MOST_PINS (length (all_signals circuit.now.0 circuit.now.1))) (used_design rules.now (used_modules circuit.now.0 circuit.now.1) (all_signals circuit.now.0 circuit.now.1) circuit.now.1)) }
    ensures nets { IfOk result (λ design. SameNet (word_of circuit.now.1) design.pins) }
{
    let calls = circuit.calls.items();
    let signals = signals_of(alloc, &circuit.library, &circuit.calls)?;
    if signals.len() > MOST_PINS {
        return Err(DesignFault::Limit(Count::Pins, signals.len() as u64));
    }
    let used = used_modules(alloc, circuit.library.modules(), calls)?;
    let checked = Checked {
        used,
        signals,
        calls,
    };
    used_design(alloc, rules, &checked)
}
