//! The columns in which nets have pins and at which edges, sorted by net, and the first one of a net behind a column.

ghost use Rattle.greedy_column.specs.Uses.{AreSorted, is_past, next_after, next_at, use_at, uses_at, uses_from};
ghost use Rattle.std.specs.List.{AllWithin};
ghost use Rattle.std.specs.List.Sorted.{IsNonDecreasingBy, IsStableByKey};
ghost use Rattle.std.specs.Ordering.{nat_cmp};
ghost use Rattle.std.specs.Prelude.{◌≡◌, ◌<◌, ◌≤◌, ◌++◌, ◌^◌, IfOk, OnOk, false, length, true};

use channel_model::Channel;
use choose_core::Next;
use std::alloc::{AllocError, Global};

// A column in which a net has pins, and at which edges.
#[derive(Clone, Copy, Debug)]
pub(crate) struct Use {
    pub(crate) net: u32,
    pub(crate) column: u32,
    pub(crate) next: Next,
}

// Sorts uses by their nets, each net's in the order in which they stand.
pub(crate) fn sort_by_net(uses: &mut Vec<Use>) -> Result<(), AllocError>
    ensures sorted { OnOk result (IsNonDecreasingBy (λ u. u.net) uses.new.items) }
    ensures stable { OnOk result (IsStableByKey (λ u. u.net) nat_cmp uses.old.items uses.new.items) }
    ensures long { OnOk result (length uses.new.items ≡ length uses.old.items) }
{
    uses.sort_by_key(|used| used.net)?;
    Ok(())
}

// The first use that lies behind a column of a net.
pub(crate) fn first_behind(uses: &[Use], net: u32, column: u32) -> Option<Use>
    requires { AreSorted uses.now }
    ensures { next_at net result ≡ next_after uses.now column net }
{
    let place = place_behind(uses, net, column);
    if place < uses.len() {
        Some(uses[place])
    } else {
        None
    }
}

// The next pins of a net from a use, where it is the net's.
pub(crate) fn next_at(used: Option<Use>, net: u32) -> Next
    ensures { result ≡ next_at net used }
{
    match used {
        Some(used) if used.net == net => used.next,
        Some(_) | None => Next::Ends,
    }
}

// Where a net has its next pins after a column, from some uses that are looked at one after another.
pub(crate) fn next_in(uses: &[Use], net: u32, column: u32) -> Next
    ensures { result ≡ next_after uses.now column net }
{
    let mut rest = uses;
    while let Some((used, later)) = rest.split_first() {
        if used.net == net && column < used.column {
            return used.next;
        }
        rest = later;
    }
    Next::Ends
}

// The uses by the pins of all columns, by column.
pub(crate) fn uses_of(alloc: Global, channel: &Channel) -> Result<Vec<Use>, AllocError>
    ensures uses { IfOk result (λ uses. uses.items ≡ uses_from channel.now.top channel.now.bottom 0) }
    ensures few { IfOk result (λ uses. length uses.items < 2 ^ 32) }
{
    let mut uses = Vec::new(alloc);
    let mut column = 0u32;
    let mut tops = channel.top.items();
    let mut bottoms = channel.bottom.items();
    while let (Some((a, later_tops)), Some((b, later_bottoms))) = (
        tops.split_first(),
        bottoms.split_first(),
    ) {
        push_uses(&mut uses, *a, *b, column)?;
        column += 1;
        tops = later_tops;
        bottoms = later_bottoms;
    }
    Ok(uses)
}

// Adds the uses by the pins of one column.
fn push_uses(uses: &mut Vec<Use>, a: u32, b: u32, column: u32) -> Result<(), AllocError>
    ensures { OnOk result (uses.new.items ≡ uses.old.items ++ uses_at a b column) }
{
    if a == b {
        return push_use(uses, a, column, Next::Both);
    }
    push_use(uses, a, column, Next::Top)?;
    push_use(uses, b, column, Next::Bottom)
}

// Adds a use, where there is a pin.
fn push_use(uses: &mut Vec<Use>, net: u32, column: u32, next: Next) -> Result<(), AllocError>
    ensures { OnOk result (uses.new.items ≡ uses.old.items ++ use_at net column next) }
{
    if net != 0 {
        uses.push(Use { net, column, next })?;
    }
    Ok(())
}

// The place in a list of uses of the first that lies behind a column of a net.
fn place_behind(uses: &[Use], net: u32, column: u32) -> usize
    requires { AreSorted uses.now }
    ensures before { AllWithin (λ u. is_past net column u ≡ true) uses.now 0 result }
    ensures behind { AllWithin (λ u. is_past net column u ≡ false) uses.now result (length uses.now) }
{
    uses.partition_point(|used| used.net < net || (used.net == net && used.column <= column))
}
