//! Pins of one net that are not joined, and joined pins of different nets.

ghost use Rattle.design_model.specs.declared.design.Pin.{Pin as PinOf};
ghost use Rattle.layout_check.specs.Findings.{net_findings};
ghost use Rattle.std.specs.Prelude.{◌≡◌, ◌++◌, length, map, IfOk, OnOk};

use crate::finding::Finding;
use crate::groups::{Members, differing_pairs};
use crate::telling::{OfPair, put_pairs};
use design_model::Design;
use std::alloc::{AllocError, Global};

/// Tells which pins are open and which are short, by the classes of all pins. The one error is want of memory.
pub(crate) fn tell_nets(
    alloc: Global,
    findings: &mut Vec<Finding>,
    design: &Design,
    classes: &[u32],
) -> Result<(), AllocError>
    requires { length classes.now ≡ length design.now.pins }
    ensures { OnOk result (findings.new.items ≡ findings.old.items ++ net_findings design.now classes.now) }
{
    let _ = &design.height;
    let nets = nets_of(alloc, design)?;
    let by_net = Members {
        groups: nets.as_slice(),
        kinds: classes,
    };
    let by_class = Members {
        groups: classes,
        kinds: nets.as_slice(),
    };
    let opened = differing_pairs(alloc, &by_net)?;
    let shorted = differing_pairs(alloc, &by_class)?;
    put_pairs(findings, OfPair::Opened, opened.as_slice())?;
    put_pairs(findings, OfPair::Short, shorted.as_slice())
}

// The net of each pin.
fn nets_of(alloc: Global, design: &Design) -> Result<Vec<u32>, AllocError>
    ensures { IfOk result (λ v. v.items ≡ map (λ (p : PinOf). p.net) design.now.pins) }
{
    design.pins.items().iter().map(|pin| pin.net).collect(alloc)
}
