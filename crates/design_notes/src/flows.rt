//! Which terminals of the kinds of a design are outputs.

use design_model::{CellKind, Design, Terminal};
use std::alloc::{AllocError, Global};
use yal_reader::{Flow, Line, Module, YalFile};

/// For each terminal of a kind whether it is an output, by the flow of its first line.
#[derive(Drop)]
pub(crate) struct KindFlows {
    pub outputs: Vec<bool>,
}

/// Whether a flow leads out of its module.
pub(crate) fn is_output(flow: Flow) -> bool {
    matches!(flow, Flow::O | Flow::PO)
}

// The outputs among terminals, which stand in the order of their first lines.
fn outputs_of(
    alloc: Global,
    terminals: &[Terminal],
    lines: &[Line],
) -> Result<Vec<bool>, AllocError> {
    let mut outputs = Vec::new(alloc);
    for line in lines {
        if let Some(terminal) = terminals.get(outputs.len()) {
            if terminal.name == line.name {
                outputs.push(is_output(line.flow))?;
            }
        }
    }
    Ok(outputs)
}

// The flows of a kind that a module gives, or of none of that name.
fn flows_of(
    alloc: Global,
    kind: Option<&CellKind>,
    module: &Module,
) -> Result<Option<KindFlows>, AllocError> {
    let Some(kind) = kind else {
        return Ok(None);
    };
    if kind.name != module.name {
        return Ok(None);
    }
    let outputs = outputs_of(alloc, kind.terminals.items(), module.lines.items())?;
    Ok(Some(KindFlows { outputs }))
}

/// The flows of the kinds of a design that a file says, whose kinds stand in the order of its modules. The one error is want of memory.
pub(crate) fn kind_flows(
    alloc: Global,
    file: &YalFile,
    design: &Design,
) -> Result<Vec<KindFlows>, AllocError> {
    let kinds = design.kinds.items();
    let mut flows = Vec::new(alloc);
    for module in file.modules.items() {
        if let Some(found) = flows_of(alloc, kinds.get(flows.len()), module)? {
            flows.push(found)?;
        }
    }
    Ok(flows)
}

/// Whether a terminal of a kind is an output, both by their numbers.
pub(crate) fn is_output_of(flows: &[KindFlows], kind: u32, terminal: u32) -> bool {
    match flows.get(kind as usize) {
        Some(found) => match found.outputs.get(terminal as usize) {
            Some(output) => *output,
            None => false,
        },
        None => false,
    }
}
