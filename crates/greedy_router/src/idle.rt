//! Columns without pins in which nothing happens, as nothing happened in the one before.

ghost use Rattle.greedy_column.specs.Fair.{Fair};
ghost use Rattle.greedy_column.specs.Follows.{Follows};
ghost use Rattle.greedy_column.specs.Replay.{after};
ghost use Rattle.greedy_column.specs.State.{IsState};
ghost use Rattle.greedy_router.specs.Idle.{HasNoPins, IsIdleBefore, nothing};
ghost use Rattle.std.specs.Prelude.{◌≡◌, ◌≤◌, ◌+◌, true, IfOk, length};

use crate::surveyed::Surveyed;
use channel_model::Channel;
use choose_core::{Chooses, Manner};
use geom_core::Items;
use greedy_column::{Column, ColumnState, Desk, pin_in, step_with};
use std::alloc::{AllocError, Global};

// The record of a column in which nothing happens.
fn nothing(alloc: Global) -> Column
    ensures { result ≡ nothing }
{
    Column {
        made: Items::new(Vec::new(alloc)),
        top: 0,
        bottom: 0,
        straight: false,
        joins: Items::new(Vec::new(alloc)),
        ended: Items::new(Vec::new(alloc)),
        moves: Items::new(Vec::new(alloc)),
    }
}

// Whether no pin stands in a column.
fn has_no_pins(channel: &Channel, column: u32) -> bool
    ensures { result ≡ true → HasNoPins channel.now column }
{
    pin_in(channel.top.items(), column) == 0 && pin_in(channel.bottom.items(), column) == 0
}

// Whether nothing happens in a column, by its record.
fn is_nothing(done: &Column) -> bool
    ensures { result ≡ true → done.now ≡ nothing }
{
    let Column {
        made,
        top,
        bottom,
        straight,
        joins,
        ended,
        moves,
    } = done;
    match (made.items(), joins.items(), ended.items(), moves.items()) {
        ([], [], [], []) => *top == 0 && *bottom == 0 && !*straight,
        _ => false,
    }
}

// Whether a column has no pins, and nothing happens in it.
pub(crate) fn is_idle(channel: &Channel, column: u32, done: &Column) -> bool
    ensures no_pins { result ≡ true → HasNoPins channel.now column }
    ensures nothing { result ≡ true → done.now ≡ nothing }
{
    has_no_pins(channel, column) && is_nothing(done)
}

// The next column of a sweep. After one without pins in which nothing happened nothing happens in another, which is not taken again.
pub(crate) fn next_column<C: Chooses>(
    alloc: Global,
    desk: &mut Desk,
    state: &mut ColumnState,
    surveyed: &Surveyed,
    column: u32,
    manner: Manner,
    chooser: &C,
    idle: bool,
) -> Result<Column, AllocError>
    requires state { IsState surveyed.now.channel.now state.old }
    requires few { state.old.fresh ≤ 4000000000 }
    requires idle { idle ≡ true → IsIdleBefore manner (C.answers chooser.now) surveyed.now.channel.now column state.old }
    ensures follows { IfOk result (λ done. Follows manner (C.answers chooser.now) surveyed.now.channel.now column state.old.fresh state.old.order done) }
    ensures fair { IfOk result (λ done. Fair surveyed.now.channel.now column state.old.fresh state.old.order done) }
    ensures replay { IfOk result (λ done. state.new.order ≡ after surveyed.now.channel.now column done state.old.order) }
    ensures fresh { IfOk result (λ done. state.new.fresh ≡ state.old.fresh + length done.made) }
    ensures state { IfOk result (λ _. IsState surveyed.now.channel.now state.new) }
{
    let channel = surveyed.channel;
    // What every channel keeps is known once a field is read.
    let _top = &channel.top;
    if idle && has_no_pins(channel, column) {
        return Ok(nothing(alloc));
    }
    step_with(
        alloc,
        desk,
        state,
        channel,
        &surveyed.ahead,
        column,
        manner,
        chooser,
    )
}
