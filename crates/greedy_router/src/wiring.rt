//! Draws a sweep that has ended: goes through its columns once more, and adds the segments and vias of each.

ghost use Rattle.greedy_column.specs.Joining.{span_in};
ghost use Rattle.greedy_column.specs.Replay.{after, entered, free_tracks};
ghost use Rattle.greedy_column.specs.Verticals.{pin_verticals};
ghost use Rattle.greedy_column.specs.declared.column.Track.{Track as OneTrack};
ghost use Rattle.greedy_router.specs.SweepWiring.{column_segments, column_vias, segments_from, since_after, vias_from};
ghost use Rattle.greedy_router.specs.Tables.{AreRounds, HasAll, column_segments_by, vias_by};
ghost use Rattle.greedy_router.specs.Turns.{IsTold, IsTurn};
ghost use Rattle.std.specs.Prelude.{◌≡◌, ◌<◌, ◌+◌, ◌^◌, ◌++◌, ℕ, List, IfOk, OnOk, map};

use crate::by_id::ById;
use crate::final_order::FinalOrder;
use crate::pieces::Moment;
use crate::run::Run;
use channel_model::{Channel, Segment, Via};
use greedy_column::{Column, Span, pin_in};
use std::alloc::{AllocError, Global};

// The segments and the vias of some columns.
#[derive(Drop)]
pub(crate) struct Wires {
    pub(crate) segments: Vec<Segment>,
    pub(crate) vias: Vec<Via>,
}

// A column of a sweep that is wired: its record, and the tracks of the final order, on whose lines it is drawn.
#[derive(Clone, Copy)]
struct Turn<'a> {
    channel: &'a Channel,
    order: &'a FinalOrder<'a>,
    column: u32,
    done: &'a Column,
    ghost few_columns: { column + 1 < 2 ^ 32 },
}

impl Turn<'_> {
    // The pieces of the column's pins, on the lines of the final order.
    fn pins(&self, alloc: Global) -> Result<Vec<Span>, AllocError>
        ensures { IfOk result (λ spans. spans.items
            ≡ map (span_in self.now.order.now) (pin_verticals self.now.channel.now self.now.column self.now.done.now)) }
    {
        let channel = self.channel;
        let top = pin_in(channel.top.items(), self.column);
        let bottom = pin_in(channel.bottom.items(), self.column);
        self.order.pin_spans(alloc, (top, bottom), self.done)
    }

    // Adds the segments and the vias, by tables of the nets and of since when the tracks are held.
    fn draw(&self, alloc: Global, wires: &mut Wires, by_id: &mut ById) -> Result<(), AllocError>
        requires all { HasAll self.now.order.now by_id.old }
        requires rounds { AreRounds self.now.column by_id.old }
        ensures rounds { OnOk result (AreRounds (self.now.column + 1) by_id.new) }
        ensures all { OnOk result (HasAll self.now.order.now by_id.new) }
        ensures nets { OnOk result (by_id.new.nets.items ≡ by_id.old.nets.items) }
        ensures laters { OnOk result (by_id.new.laters.items ≡ by_id.old.laters.items) }
        ensures since { OnOk result (by_id.new.since.items ≡ by_id.old.since.items) }
        ensures segments { OnOk result (wires.new.segments.items ≡ wires.old.segments.items
            ++ column_segments_by self.now.order.now self.now.column by_id.old.nets.items by_id.old.since.items
            (map (span_in self.now.order.now) (pin_verticals self.now.channel.now self.now.column self.now.done.now)) self.now.done.now) }
        ensures vias { OnOk result (wires.new.vias.items ≡ wires.old.vias.items
            ++ vias_by self.now.order.now self.now.column by_id.old.nets.items by_id.old.laters.items
            (map (span_in self.now.order.now) (pin_verticals self.now.channel.now self.now.column self.now.done.now)) self.now.done.now) }
    {
        let pins = self.pins(alloc)?;
        by_id.mark(self.done);
        let moment = Moment {
            column: self.column,
            done: self.done,
            order: self.order,
            pins: &pins,
            nets: &by_id.nets,
            laters: &by_id.laters,
            since: &by_id.since,
            lefts: &by_id.lefts,
            ends: &by_id.ends,
        };
        moment.push_segments(alloc, &mut wires.segments)?;
        moment.push_vias(alloc, &mut wires.vias)
    }

    // Adds the segments and the vias, where tables tell of the tracks before the column, and makes them tell of those after it.
    fn wire(&self, alloc: Global, wires: &mut Wires, by_id: &mut ById) -> Result<(), AllocError>
        requires all { HasAll self.now.order.now by_id.old }
        requires rounds { AreRounds self.now.column by_id.old }
        ensures rounds { OnOk result (AreRounds (self.now.column + 1) by_id.new) }
        ensures all { OnOk result (HasAll self.now.order.now by_id.new) }
        ensures told { (before : List OneTrack) (since : ℕ → ℕ) → IsTurn self.now.order.now self.now.channel.now self.now.column before self.now.done.now
            → IsTold self.now.order.now before since by_id.old
            → OnOk result (IsTold self.now.order.now (after self.now.channel.now self.now.column self.now.done.now before)
            (since_after self.now.column before since) by_id.new) }
        ensures segments { (before : List OneTrack) (since : ℕ → ℕ) → IsTurn self.now.order.now self.now.channel.now self.now.column before self.now.done.now
            → IsTold self.now.order.now before since by_id.old
            → OnOk result (wires.new.segments.items ≡ wires.old.segments.items
            ++ column_segments self.now.order.now self.now.channel.now self.now.column before
            (entered self.now.channel.now self.now.column self.now.done.now before) since self.now.done.now) }
        ensures vias { (before : List OneTrack) (since : ℕ → ℕ) → IsTurn self.now.order.now self.now.channel.now self.now.column before self.now.done.now
            → IsTold self.now.order.now before since by_id.old
            → OnOk result (wires.new.vias.items ≡ wires.old.vias.items
            ++ column_vias self.now.order.now self.now.column (entered self.now.channel.now self.now.column self.now.done.now before)
            (after self.now.channel.now self.now.column self.now.done.now before)
            (pin_verticals self.now.channel.now self.now.column self.now.done.now) self.now.done.now) }
    {
        let channel = self.channel;
        let top = pin_in(channel.top.items(), self.column);
        let bottom = pin_in(channel.bottom.items(), self.column);
        by_id.enter_pins(self.column, self.done, top, bottom);
        by_id.leave(self.done);
        self.draw(alloc, wires, by_id)?;
        by_id.pass(self.column, self.done);
        Ok(())
    }
}

// The segments and the vias of all columns of a run.
pub(crate) fn wire_columns(alloc: Global, run: &Run) -> Result<Wires, AllocError>
    ensures segments { IfOk result (λ wires. wires.segments.items
        ≡ segments_from run.now.sweep.order run.now.pins 0 (free_tracks run.now.sweep.begun) (λ id. 0) run.now.sweep.columns) }
    ensures vias { IfOk result (λ wires. wires.vias.items
        ≡ vias_from run.now.sweep.order run.now.pins 0 (free_tracks run.now.sweep.begun) run.now.sweep.columns) }
{
    let surveyed = run.surveyed;
    let channel = surveyed.channel;
    let room = run.state.fresh as usize;
    let tracks = run.state.order.items();
    let order = FinalOrder::new(alloc, tracks, room)?;
    let mut wires = Wires {
        segments: Vec::new(alloc),
        vias: Vec::new(alloc),
    };
    let mut by_id = ById::new(alloc, room)?;
    let mut column = 0u32;
    let mut rest = run.columns.as_slice();
    while let Some((done, later)) = rest.split_first() {
        let turn = Turn {
            channel,
            order: &order,
            column,
            done,
        };
        turn.wire(alloc, &mut wires, &mut by_id)?;
        column += 1;
        rest = later;
    }
    Ok(wires)
}
