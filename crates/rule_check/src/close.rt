//! Wires or cuts of one layer that are not joined and lie closer than the layer's space.

ghost use Rattle.rule_check.specs.Crowded.{are_too_close};
ghost use Rattle.rule_check.specs.Failing.{failing_pairs, AreFirstOf};
ghost use Rattle.std.specs.List.{zip};
ghost use Rattle.std.specs.Prelude.{◌≡◌, ◌<◌, ◌^◌, length, All, IfOk};

use crate::pairs::{Pairs, crowded};
use crate::wires::wire_members;
use geom_core::ShapesInReach;
use std::alloc::{AllocError, Global};
use tech_rules::Rules;

/// The pairs of shapes that are too close: of one layer of wires or both cuts, of different classes, with both gaps below the layer's
/// space. There is a class for each shape. The one error is want of memory.
pub fn close_pairs(
    alloc: Global,
    judged: &ShapesInReach,
    rules: &Rules,
    classes: &[u32],
) -> Result<Pairs, AllocError>
    requires each { length classes.now ≡ length judged.now }
    ensures { IfOk result (AreFirstOf (failing_pairs (are_too_close rules.now) (zip classes.now judged.now))) }
{
    let _ = &rules.version;
    let _ = judged.shapes();
    let members = wire_members(alloc, judged, rules, classes)?;
    crowded(alloc, members.as_slice())
}
