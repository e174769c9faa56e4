//! A table of records for the columns of a channel, and the test whether `step` makes them.

ghost use Rattle.greedy_column.specs.Ahead.{IsAhead};
ghost use Rattle.greedy_column.specs.State.{IsState};
ghost use Rattle.std.specs.Prelude.{◌<◌, ◌+◌, ◌^◌};

use crate::chooser_tests::counting_chooser;
use channel_model::Channel;
use choose_core::{Chooser, Manner};
use greedy_column::{Ahead, Column, ColumnState, step};
use std::alloc::Global;
use std::cell::Cell;
use std::rc::Rc;
use std::test::Fail;

/// What a column's record is to be.
#[derive(Clone, Copy)]
pub(crate) struct Wanted<'a> {
    pub(crate) made: &'a [(u32, u32)],
    pub(crate) top: u32,
    pub(crate) bottom: u32,
    pub(crate) straight: bool,
    pub(crate) joins: &'a [(u32, u32)],
    pub(crate) ended: &'a [u32],
    pub(crate) moves: &'a [(u32, u32)],
}

/// A column that does nothing.
pub(crate) const NOTHING: Wanted<'static> = Wanted {
    made: &[],
    top: 0,
    bottom: 0,
    straight: false,
    joins: &[],
    ended: &[],
    moves: &[],
};

/// A channel, with how many free tracks its sweep begins, and the records of its columns.
#[derive(Clone, Copy)]
pub(crate) struct Case<'a> {
    pub(crate) top: &'a [u32],
    pub(crate) bottom: &'a [u32],
    pub(crate) begun: u32,
    pub(crate) wanted: &'a [Wanted<'a>],
}

fn is_wanted(done: &Column, wanted: &Wanted) -> bool {
    are_made(done, wanted.made)
        && (done.top, done.bottom, done.straight) == (wanted.top, wanted.bottom, wanted.straight)
        && done.joins.items() == wanted.joins
        && done.ended.items() == wanted.ended
        && done.moves.items() == wanted.moves
}

fn are_made(done: &Column, wanted: &[(u32, u32)]) -> bool {
    let made = done.made.items();
    made.len() == wanted.len()
        && made
            .iter()
            .zip(wanted)
            .all(|(one, pair)| (one.id, one.below) == *pair)
}

/// Whether the record of a column is as it is wanted. A column that lacks memory is taken again from what it has left, so that
/// the records are the same where one allocation fails.
pub(crate) fn next_is(
    alloc: Global,
    state: &mut ColumnState,
    channel: &Channel,
    ahead: &Ahead,
    column: u32,
    manner: Manner,
    chooser: &Chooser,
    wanted: &Wanted,
) -> Result<bool, Fail>
    requires state { IsState channel.now state.old }
    requires ahead { IsAhead channel.now ahead.now }
    ensures { IsState channel.now state.new }
{
    if state.fresh > 1_000_000 {
        return Ok(false);
    }
    let done = match step(alloc, state, channel, ahead, column, manner, chooser) {
        Ok(done) => done,
        Err(_) => step(alloc, state, channel, ahead, column, manner, chooser)?,
    };
    Ok(is_wanted(&done, wanted))
}

/// The number of the first column whose record in the published manner is another one than is wanted, or how many are wanted.
pub(crate) fn first_other(
    alloc: Global,
    top: &[u32],
    bottom: &[u32],
    chooser: &Chooser,
    wanted: &[Wanted],
) -> Result<usize, Fail> {
    first_other_of(alloc, top, bottom, Manner::Published, 0, chooser, wanted)
}

/// The same of a chooser that counts in a cell how often it is asked.
pub(crate) fn first_other_counted(
    alloc: Global,
    calls: &Rc<Cell<u32>>,
    top: &[u32],
    bottom: &[u32],
    wanted: &[Wanted],
) -> Result<usize, Fail> {
    let chooser = counting_chooser(alloc, calls.clone()?)?;
    first_other(alloc, top, bottom, &chooser, wanted)
}

/// The same in a manner, from so many free tracks.
pub(crate) fn first_other_of(
    alloc: Global,
    top: &[u32],
    bottom: &[u32],
    manner: Manner,
    begun: u32,
    chooser: &Chooser,
    wanted: &[Wanted],
) -> Result<usize, Fail>
    requires { begun + 1 < 2 ^ 32 }
{
    let channel = channel_of(alloc, top, bottom)?;
    first_other_along(alloc, &channel, manner, begun, chooser, wanted)
}

// The channel of these pins.
fn channel_of(alloc: Global, top: &[u32], bottom: &[u32]) -> Result<Channel, Fail> {
    let top = top.to_vec(alloc)?;
    let bottom = bottom.to_vec(alloc)?;
    Ok(Channel::new(top, bottom).ok_or("a channel")?)
}

// The same of a channel.
fn first_other_along(
    alloc: Global,
    channel: &Channel,
    manner: Manner,
    begun: u32,
    chooser: &Chooser,
    wanted: &[Wanted],
) -> Result<usize, Fail>
    requires { begun + 1 < 2 ^ 32 }
{
    let ahead = Ahead::new(alloc, channel)?;
    first_other_in(alloc, channel, &ahead, manner, begun, chooser, wanted)
}

// The same, with what lies ahead in it.
fn first_other_in(
    alloc: Global,
    channel: &Channel,
    ahead: &Ahead,
    manner: Manner,
    begun: u32,
    chooser: &Chooser,
    wanted: &[Wanted],
) -> Result<usize, Fail>
    requires few { begun + 1 < 2 ^ 32 }
    requires ahead { IsAhead channel.now ahead.now }
{
    let mut state = ColumnState::new(alloc, begun)?;
    for (column, one) in wanted.iter().enumerate() {
        if column > 1000
            || !next_is(
                alloc,
                &mut state,
                channel,
                ahead,
                column as u32,
                manner,
                chooser,
                one,
            )?
        {
            return Ok(column);
        }
    }
    Ok(wanted.len())
}

/// The number of the first case in which a column's record in a manner is another one than is wanted, or how many cases there are.
pub(crate) fn first_unlike(
    alloc: Global,
    manner: Manner,
    chooser: &Chooser,
    cases: &[Case],
) -> Result<usize, Fail> {
    for (number, case) in cases.iter().enumerate() {
        if case.begun > 1000
            || first_other_of(
                alloc,
                case.top,
                case.bottom,
                manner,
                case.begun,
                chooser,
                case.wanted,
            )? != case.wanted.len()
        {
            return Ok(number);
        }
    }
    Ok(cases.len())
}
