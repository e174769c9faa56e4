//! Takes one column of the sweep, from the state before it to its record and the state after it.

ghost use Rattle.greedy_column.specs.Ahead.{IsAhead};
ghost use Rattle.greedy_column.specs.Fair.{Fair};
ghost use Rattle.greedy_column.specs.Follows.{Follows, FollowsOn, entries_of, pin_with};
ghost use Rattle.greedy_column.specs.Entering.{Enters};
ghost use Rattle.greedy_column.specs.Held.{IsHeld, held_count};
ghost use Rattle.greedy_column.specs.Joining.{span_in};
ghost use Rattle.greedy_column.specs.Lawful.{AreMadeFrom};
ghost use Rattle.greedy_column.specs.Replay.{after, freed, moved, with_made, with_nets};
ghost use Rattle.greedy_column.specs.State.{AreNumbered, IsState};
ghost use Rattle.greedy_column.specs.Tracks.{ids};
ghost use Rattle.greedy_column.specs.Uses.{next_after};
ghost use Rattle.greedy_column.specs.Verticals.{verticals_of_pins};
ghost use Rattle.std.specs.Prelude.{◌≡◌, ◌==◌, ◌&&◌, ◌<◌, ◌≤◌, ◌+◌, ◌^◌, ℕ, IfOk, OnErr, length, map, not, slice_index};

use crate::ahead::Ahead;
use crate::column::{Column, ColumnState, Made, Track};
use crate::desk::Desk;
use crate::entering::{EnteringPin, Entries};
use crate::going_on::Outcome;
use crate::moment::Moment;
use crate::span::{Span, spans_of_pins};
use crate::tracks::Tracks;
use channel_model::Channel;
use choose_core::{Chooser, Chooses, Manner};
use geom_core::Items;
use std::alloc::{AllocError, Global};

/// The net of a pin in a column of an edge, 0 where there is none and past the end. Takes no memory.
pub fn pin_in(side: &[u32], column: u32) -> u32
    ensures { result ≡ slice_index side.now column }
{
    match side.get(column as usize) {
        Some(net) => *net,
        None => 0,
    }
}

// A pin of a net.
fn pin_of(ahead: &Ahead, column: u32, net: u32) -> EnteringPin
    ensures { result ≡ pin_with (next_after ahead.now.uses.items column) net }
{
    EnteringPin {
        net,
        next: ahead.next(net, column),
    }
}

// The tracks with those that are made.
pub(crate) fn with_made(mut tracks: Vec<Track>, made: &[Made]) -> Result<Vec<Track>, AllocError>
    requires { (fresh : ℕ) × AreMadeFrom fresh (length tracks.items) made.now }
    ensures made { IfOk result (λ all. all.items ≡ with_made tracks.items made.now) }
    ensures long { IfOk result (λ all. length all.items ≡ length tracks.items + length made.now) }
{
    let mut rest = made;
    while let Some((one, later)) = rest.split_first() {
        tracks.insert(one.below as usize, Track { id: one.id, net: 0 })?;
        rest = later;
    }
    Ok(tracks)
}

// The tracks that a column's pins have entered, and the verticals of these pins.
#[derive(Drop)]
struct Entered {
    tracks: Tracks,
    spans: Vec<Span>,
}

// The tracks that the pins of these nets have entered, and the verticals of the pins.
fn enter_pins(
    alloc: Global,
    before: Tracks,
    entries: &Entries,
    straight: bool,
    top: u32,
    bottom: u32,
) -> Result<Entered, AllocError>
    requires few { length before + 4 < 2 ^ 32 }
    requires placed { (fresh : ℕ) × (AreNumbered fresh before × AreMadeFrom fresh (length before) entries.now.made) }
    requires made { length entries.now.made ≤ 2 }
    ensures tracks { IfOk result (λ entered.
        entered.tracks ≡ with_nets top entries.now.top bottom entries.now.bottom (with_made before entries.now.made)) }
    ensures spans { IfOk result (λ entered.
        entered.spans.items ≡ map (span_in (ids entered.tracks)) (verticals_of_pins straight top bottom entries.now.top entries.now.bottom)) }
{
    let list = with_made(before.into_list(), entries.made.items())?;
    let mut tracks = Tracks::new(list);
    let bottom_line = tracks.hold(entries.bottom, bottom);
    let top_line = tracks.hold(entries.top, top);
    let spans = spans_of_pins(
        alloc,
        straight,
        top,
        bottom,
        top_line,
        bottom_line,
        tracks.upper_edge(),
    )?;
    Ok(Entered { tracks, spans })
}

// Whether a column has two equal pins.
fn has_equal_pins(top: u32, bottom: u32) -> bool
    ensures { result ≡ (top == bottom && not (top == 0)) }
{
    top == bottom && top != 0
}

// A column's record, and the tracks after it.
#[derive(Drop)]
struct Taken {
    done: Column,
    tracks: Items<Track>,
}

impl<C: Chooses> Moment<'_, C> {
    // One column, from the nets of its pins.
    fn column_of(
        &self,
        desk: &mut Desk,
        before: Tracks,
        fresh: u32,
        top: u32,
        bottom: u32,
    ) -> Result<Taken, AllocError>
        requires few { length before + 4 < 2 ^ 32 }
        requires fresh { fresh + 2 < 2 ^ 32 }
        requires numbered { AreNumbered fresh before }
        ensures made { IfOk result (λ taken. length taken.done.made ≤ 2) }
        ensures straight { IfOk result (λ taken. taken.done.straight ≡ (top == bottom && not (top == 0))) }
        ensures enters { IfOk result (λ taken. Enters self.now.manner (C.answers self.now.chooser.now) (pin_with (next_after self.now.ahead.now.uses.items self.now.column) top)
            (pin_with (next_after self.now.ahead.now.uses.items self.now.column) bottom) before fresh (entries_of taken.done)) }
        ensures follows { IfOk result (λ taken.
            let now = with_nets top taken.done.top bottom taken.done.bottom (with_made before taken.done.made) in
            FollowsOn self.now.manner (C.answers self.now.chooser.now) (next_after self.now.ahead.now.uses.items self.now.column) now
            (map (span_in (ids now)) (verticals_of_pins taken.done.straight top bottom taken.done.top taken.done.bottom))
            taken.done.joins taken.done.ended taken.done.moves) }
        ensures tracks { IfOk result (λ taken. taken.tracks ≡ moved taken.done.moves (freed taken.done.ended
            (with_nets top taken.done.top bottom taken.done.bottom (with_made before taken.done.made)))) }
    {
        let straight = has_equal_pins(top, bottom);
        let top_pin = pin_of(self.ahead, self.column, top);
        let bottom_pin = pin_of(self.ahead, self.column, bottom);
        let mut offers = desk.take_offers(self.alloc);
        let entries = self.enter(&before, fresh, top_pin, bottom_pin, &mut offers)?;
        desk.give_offers(offers);
        let outcome = self.outcome_of(desk, before, &entries, straight, top, bottom)?;
        Ok(taken_from(entries, straight, outcome))
    }

    // What steps 2 to 4 do, over the tracks that the pins of these nets have entered.
    fn outcome_of(
        &self,
        desk: &mut Desk,
        before: Tracks,
        entries: &Entries,
        straight: bool,
        top: u32,
        bottom: u32,
    ) -> Result<Outcome, AllocError>
        requires few { length before + 4 < 2 ^ 32 }
        requires placed { (fresh : ℕ) × (AreNumbered fresh before × AreMadeFrom fresh (length before) entries.now.made) }
        requires made { length entries.now.made ≤ 2 }
        ensures follows { IfOk result (λ outcome.
            let now = with_nets top entries.now.top bottom entries.now.bottom (with_made before entries.now.made) in
            FollowsOn self.now.manner (C.answers self.now.chooser.now) (next_after self.now.ahead.now.uses.items self.now.column) now
            (map (span_in (ids now)) (verticals_of_pins straight top bottom entries.now.top entries.now.bottom))
            outcome.joins outcome.ended outcome.moves) }
        ensures tracks { IfOk result (λ outcome. outcome.tracks ≡ moved outcome.moves (freed outcome.ended
            (with_nets top entries.now.top bottom entries.now.bottom (with_made before entries.now.made)))) }
    {
        let now = enter_pins(self.alloc, before, entries, straight, top, bottom)?;
        let Entered { tracks, spans } = now;
        self.go_on(desk, &tracks, spans)
    }
}

// A column's record and the tracks after it, from what its steps do.
fn taken_from(entries: Entries, straight: bool, outcome: Outcome) -> Taken
    ensures entries { entries_of result.done ≡ entries }
    ensures straight { result.done.straight ≡ straight }
    ensures joins { result.done.joins ≡ outcome.joins }
    ensures ended { result.done.ended ≡ outcome.ended }
    ensures moves { result.done.moves ≡ outcome.moves }
    ensures tracks { result.tracks ≡ outcome.tracks }
{
    let Entries { made, top, bottom } = entries;
    let Outcome {
        joins,
        ended,
        moves,
        tracks,
    } = outcome;
    let done = Column {
        made,
        top,
        bottom,
        straight,
        joins,
        ended,
        moves,
    };
    Taken { done, tracks }
}

/// One column of the greedy sweep, from the state that the columns before it have left. A column at or past the channel's end
/// has no pins. The column's pins enter tracks, the tracks of one net are joined where that is possible, one track of each group
/// that is joined is kept, and the kept tracks may move. The manner says where a new track goes,
/// which of two pins gets one, and in what order tracks move: as published, or looking ahead to the nets' next pins. Each choice is
/// an answer of the chooser, and the record is what these steps make of it; it is fair, whatever the chooser answers and in either
/// manner. A column at or past the channel's end leaves fewer tracks held, where a net held one. The one error is want of memory, and
/// the state is then as before.
///
/// Source: Rivest and Fiduccia, A Greedy Channel Router (1982).
pub fn step(
    alloc: Global,
    state: &mut ColumnState,
    channel: &Channel,
    ahead: &Ahead,
    column: u32,
    manner: Manner,
    chooser: &Chooser,
) -> Result<Column, AllocError>
    requires state { IsState channel.now state.old }
    requires few { state.old.fresh ≤ 4000000000 }
    requires ahead { IsAhead channel.now ahead.now }
    ensures follows { IfOk result (λ done.
        Follows manner (⟦<Chooser as Chooses>⟧.answers chooser.now) channel.now column state.old.fresh state.old.order done) }
    ensures fair { IfOk result (λ done. Fair channel.now column state.old.fresh state.old.order done) }
    ensures replay { IfOk result (λ done. state.new.order ≡ after channel.now column done state.old.order) }
    ensures fresh { IfOk result (λ done. state.new.fresh ≡ state.old.fresh + length done.made) }
    ensures state { IfOk result (λ _. IsState channel.now state.new) }
    ensures lessens { IfOk result (λ _.
        length channel.now.top ≤ column → IsHeld state.old.order → held_count state.new.order < held_count state.old.order) }
    ensures err { OnErr result (state.new ≡ state.old) }
{
    let mut desk = Desk::new(alloc);
    step_with(
        alloc, &mut desk, state, channel, ahead, column, manner, chooser,
    )
}

/// The same as `step`, for all that chooses, by a desk that the columns of a sweep use one after another.
pub fn step_with<C: Chooses>(
    alloc: Global,
    desk: &mut Desk,
    state: &mut ColumnState,
    channel: &Channel,
    ahead: &Ahead,
    column: u32,
    manner: Manner,
    chooser: &C,
) -> Result<Column, AllocError>
    requires state { IsState channel.now state.old }
    requires few { state.old.fresh ≤ 4000000000 }
    requires ahead { IsAhead channel.now ahead.now }
    ensures follows { IfOk result (λ done.
        Follows manner (C.answers chooser.now) channel.now column state.old.fresh state.old.order done) }
    ensures fair { IfOk result (λ done. Fair channel.now column state.old.fresh state.old.order done) }
    ensures replay { IfOk result (λ done. state.new.order ≡ after channel.now column done state.old.order) }
    ensures fresh { IfOk result (λ done. state.new.fresh ≡ state.old.fresh + length done.made) }
    ensures state { IfOk result (λ _. IsState channel.now state.new) }
    ensures lessens { IfOk result (λ _.
        length channel.now.top ≤ column → IsHeld state.old.order → held_count state.new.order < held_count state.old.order) }
    ensures err { OnErr result (state.new ≡ state.old) }
{
    let top = pin_in(channel.top.items(), column);
    let bottom = pin_in(channel.bottom.items(), column);
    let moment = Moment {
        alloc,
        chooser,
        ahead,
        column,
        manner,
    };
    let before = Tracks::new(Vec::from_slice(alloc, state.order.items())?);
    let taken = moment.column_of(desk, before, state.fresh, top, bottom)?;
    let Taken { done, tracks } = taken;
    let fresh = state.fresh + done.made.items().len() as u32;
    state.order = tracks;
    state.fresh = fresh;
    Ok(done)
}
