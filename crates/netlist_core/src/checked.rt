//! Calls without a fault, with their signals and used modules, and the design that they make on the grid.

ghost use Rattle.netlist_core.specs.Answers.{Agrees};
ghost use Rattle.netlist_core.specs.OnGrid.{used_design, used_names};
ghost use Rattle.netlist_core.specs.Signals.{nets_of, pin_in};
ghost use Rattle.std.specs.Prelude.{◌≡◌, map, IfOk};

use crate::DesignFault;
use crate::calls::instances_of;
use crate::names::Names;
use crate::nets::connections_of;
use crate::numbered::Numbered;
use crate::signals::Signal;
use crate::used::{greatest_height, kinds_of, names_of};
use design_model::Design;
use geom_core::Items;
use std::alloc::{AllocError, Global};
use std::marker::Model;
use tech_rules::Rules;
use yal_reader::Call;

/// Calls, the words at their pins and the modules that they use, of which only the places on the grid are not checked.
#[derive(Drop)]
pub(crate) struct Checked<'a> {
    pub(crate) used: Vec<Numbered<'a>>,
    pub(crate) signals: Vec<Signal<'a>>,
    pub(crate) calls: &'a [Call],
}

impl<'a> Model for Checked<'a> {
    ghost use Rattle.netlist_core.specs.Checked.{CheckedCalls, IsChecked};

    ghost Value = { CheckedCalls };

    ghost view = { λ a. record { used = a.used.items; signals = a.signals.items; calls = a.calls.now } };

    ghost invariant = { λ a. IsChecked a.used.items a.signals.items a.calls.now };
}

// The names of the used modules. The one error is want of memory.
fn used_names<'a>(alloc: Global, checked: &Checked<'a>) -> Result<Names<'a>, AllocError>
    ensures { IfOk result (λ names. names ≡ used_names checked.now.used) }
{
    let names = names_of(alloc, checked.used.as_slice())?;
    Ok(Names { names })
}

/// The design of checked calls, or why one of their modules is no kind.
#[tactic(auto, unfolding(crate::specs::OnGrid::used_design))]
pub(crate) fn used_design(
    alloc: Global,
    rules: &Rules,
    checked: &Checked,
) -> Result<Design, DesignFault>
    ensures is { Agrees (λ design. design) result (used_design rules.now checked.now.used checked.now.signals checked.now.calls) }
    ensures pins { IfOk result (λ design. design.pins ≡ map (pin_in (nets_of checked.now.signals)) checked.now.signals) }
{
    // A look at the rules tells that they are valid.
    let _ = &rules.version;
    let used = checked.used.as_slice();
    let kinds = match kinds_of(alloc, rules, used) {
        Ok(kinds) => kinds,
        Err(fault) => return Err(fault),
    };
    let names = used_names(alloc, checked)?;
    let instances = instances_of(alloc, &names, checked.calls)?;
    let connections = connections_of(alloc, checked)?;
    let height = greatest_height(kinds.as_slice());
    Ok(Design {
        kinds: Items::new(kinds),
        height,
        instances: Items::new(instances),
        pins: Items::new(connections.pins),
        nets: Items::new(connections.nets),
    })
}
