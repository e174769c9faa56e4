//! The lines of a file's PARENT, and what each of them says of its terminal.

ghost use Rattle.netlist_core.specs.Calls.{is_parent_module};
ghost use Rattle.port_rows.specs.Ports.{leads_out, parent_lines};
ghost use Rattle.std.specs.Prelude.{◌≡◌};
ghost use Rattle.yal_reader.specs.Kept.{is_power};

use yal_reader::{Flow, Kind, Line, Module, YalFile};

/// The lines of the first PARENT of a file, or none where there is none. Takes no memory.
pub(crate) fn parent_lines(file: &YalFile) -> &[Line]
    ensures { result.now ≡ parent_lines file.now }
{
    let mut rest = file.modules.items();
    while let Some((module, after)) = rest.split_first() {
        if is_parent(module) {
            return module.lines.items();
        }
        rest = after;
    }
    &[]
}

fn is_parent(module: &Module) -> bool
    ensures { result ≡ is_parent_module module.now }
{
    matches!(module.kind, Kind::Parent)
}

/// Whether a line of this flow makes its terminal one of power.
pub(crate) fn is_power(flow: Flow) -> bool
    ensures { result ≡ is_power flow }
{
    matches!(flow, Flow::PWR | Flow::GND)
}

/// Whether this flow leads out of the module.
pub(crate) fn leads_out(flow: Flow) -> bool
    ensures { result ≡ leads_out flow }
{
    matches!(flow, Flow::O | Flow::PO)
}
