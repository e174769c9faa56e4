//! The edges of channels and rows.

ghost use Rattle.channel_stack.specs.Stack.{channel_bases, row_bases, stack_top, most_columns};
ghost use Rattle.layout_laws.specs.Heights.{channel_height};
ghost use Rattle.std.specs.Prelude.{◌≡◌, ◌<◌, ◌≤◌, ◌*◌, ◌^◌, IfOk, map};

use channel_model::{HasWiring, Wiring};
use limits::MOST_LENGTH;
use std::alloc::{AllocError, Global};
use tech_rules::Rules;

// The height of a channel in units.
fn channel_height(wiring: &Wiring, rules: &Rules) -> u64
    ensures height { result ≡ channel_height rules.now wiring.now }
    ensures few { result ≤ 2 ^ 32 * MOST_LENGTH }
{
    (u64::from(wiring.tracks) + 1) * u64::from(rules.grid.track)
}

/// The lower edges of the channels in units, with rows of these heights between them. The one error is want of memory.
#[tactic(auto, using(crate::proofs::StackBounds::edge_laws))]
pub(crate) fn channel_bases<W: HasWiring>(
    alloc: Global,
    wirings: &[W],
    heights: &[u32],
    rules: &Rules,
) -> Result<Vec<u32>, AllocError>
    requires { stack_top rules.now heights.now 0 (map W.wiring_of wirings.now) < 2 ^ 32 }
    ensures { IfOk result (λ bases. bases.items ≡ channel_bases rules.now heights.now 0 (map W.wiring_of wirings.now)) }
{
    let mut bases = Vec::new(alloc);
    let mut base = 0;
    let mut rows = heights;
    let mut rest = wirings;
    while let Some((one, above)) = rest.split_first() {
        bases.push(base as u32)?;
        let Some((height, others)) = rows.split_first() else {
            return Ok(bases);
        };
        base += channel_height(one.wiring(), rules) + u64::from(*height);
        rows = others;
        rest = above;
    }
    Ok(bases)
}

/// The lower edges of the rows in units: each lies on its channel. The one error is want of memory.
#[tactic(auto, using(crate::proofs::StackBounds::edge_laws))]
pub(crate) fn row_bases<W: HasWiring>(
    alloc: Global,
    wirings: &[W],
    heights: &[u32],
    rules: &Rules,
) -> Result<Vec<u32>, AllocError>
    requires { stack_top rules.now heights.now 0 (map W.wiring_of wirings.now) < 2 ^ 32 }
    ensures { IfOk result (λ bases. bases.items ≡ row_bases rules.now heights.now 0 (map W.wiring_of wirings.now)) }
{
    let mut bases = Vec::new(alloc);
    let mut base = 0;
    let mut rest = wirings;
    let mut rows = heights;
    while let Some((height, others)) = rows.split_first() {
        let Some((one, above)) = rest.split_first() else {
            return Ok(bases);
        };
        let row = base + channel_height(one.wiring(), rules);
        bases.push(row as u32)?;
        base = row + u64::from(*height);
        rest = above;
        rows = others;
    }
    Ok(bases)
}

/// The upper edge of the last channel in units. Takes no memory.
#[tactic(auto, using(crate::proofs::StackBounds::edge_laws))]
pub(crate) fn stack_top<W: HasWiring>(wirings: &[W], heights: &[u32], rules: &Rules) -> u64
    requires { stack_top rules.now heights.now 0 (map W.wiring_of wirings.now) < 2 ^ 32 }
    ensures { result ≡ stack_top rules.now heights.now 0 (map W.wiring_of wirings.now) }
{
    let mut base = 0;
    let mut rows = heights;
    let mut rest = wirings;
    while let Some((one, above)) = rest.split_first() {
        let top = base + channel_height(one.wiring(), rules);
        let Some((height, others)) = rows.split_first() else {
            return top;
        };
        base = top + u64::from(*height);
        rows = others;
        rest = above;
    }
    base
}

/// The columns of the widest wiring. Takes no memory.
pub(crate) fn most_columns<W: HasWiring>(wirings: &[W]) -> u32
    ensures { result ≡ most_columns (map W.wiring_of wirings.now) }
{
    let mut most = 0;
    let mut rest = wirings;
    while let Some((one, others)) = rest.split_first() {
        most = most.max(one.wiring().columns);
        rest = others;
    }
    most
}
