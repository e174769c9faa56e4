//! The segments and the vias of one column of a sweep, on the lines of the final order of tracks.

ghost use Rattle.channel_model.specs.declared.wiring.Segment.{Segment};
ghost use Rattle.greedy_router.specs.Marks.{is_marked};
ghost use Rattle.greedy_router.specs.SweepWiring.{leaves};
ghost use Rattle.greedy_router.specs.Tables.{across_on, along_by, alongs_by, column_segments_by, has_end, has_via_by, meets_by, pair_span, via_by, vias_by};
ghost use Rattle.std.specs.List.{list_any};
ghost use Rattle.std.specs.Prelude.{◌≡◌, ◌++◌, ◌||◌, ℕ, Contains, IfOk, OnOk, false, filter, map};

use crate::final_order::FinalOrder;
use crate::marks::Marks;
use crate::tables::entry;
use channel_model::{Segment, Via};
use greedy_column::{Column, Span};
use std::alloc::{AllocError, Global};

// A column of a sweep that is drawn: its record, the tracks of the final order, on whose lines it is
// drawn, the pieces of its pins, and by ids the nets that hold the tracks, those that hold them after the column, and since when; and marks of
// the tracks that are left, and of those on which its joins and moves end.
#[derive(Clone, Copy)]
pub(crate) struct Moment<'a> {
    pub(crate) column: u32,
    pub(crate) done: &'a Column,
    pub(crate) order: &'a FinalOrder<'a>,
    pub(crate) pins: &'a [Span],
    pub(crate) nets: &'a [u32],
    pub(crate) laters: &'a [u32],
    pub(crate) since: &'a [u32],
    pub(crate) lefts: &'a Marks,
    pub(crate) ends: &'a Marks,
    ghost left: { (id : ℕ) → Contains order.now id → is_marked lefts.now.rounds.items lefts.now.round id ≡ leaves done.now id },
    ghost ended: { (id : ℕ) → Contains order.now id → is_marked ends.now.rounds.items ends.now.round id ≡ has_end done.now id },
}

// A piece of wire in a column.
fn across(column: u32, span: Span) -> Segment
    ensures { result ≡ across_on column span }
{
    Segment::Across {
        net: span.net,
        column,
        low: span.low,
        high: span.high,
    }
}

// Adds the pieces of a column.
fn push_across(segments: &mut Vec<Segment>, column: u32, spans: &[Span]) -> Result<(), AllocError>
    ensures { OnOk result (segments.new.items ≡ segments.old.items ++ map (across_on column) spans.now) }
{
    let mut rest = spans;
    while let Some((span, later)) = rest.split_first() {
        segments.push(across(column, *span))?;
        rest = later;
    }
    Ok(())
}

// Whether a net may leave a track in a column.
fn leaves_some(done: &Column) -> bool
    ensures { result ≡ false → (id : ℕ) → leaves done.now id ≡ false }
{
    !(done.ended.items().is_empty() && done.moves.items().is_empty())
}

impl Moment<'_> {
    // The piece between two tracks, on the lines of the final order.
    fn pair_span(&self, pair: (u32, u32)) -> Span
        ensures { result ≡ pair_span self.now.nets.now self.now.order.now pair }
    {
        let net = entry(self.nets, pair.0);
        let first = self.order.line(pair.0);
        let second = self.order.line(pair.1);
        if first <= second {
            Span {
                net,
                low: first,
                high: second,
            }
        } else {
            Span {
                net,
                low: second,
                high: first,
            }
        }
    }

    // Those of several pairs.
    fn pair_spans(&self, alloc: Global, pairs: &[(u32, u32)]) -> Result<Vec<Span>, AllocError>
        ensures { IfOk result (λ spans.
            spans.items ≡ map (pair_span self.now.nets.now self.now.order.now) pairs.now) }
    {
        pairs
            .iter()
            .map(|pair| self.pair_span(*pair))
            .collect(alloc)
    }

    // The wire along a track that is left.
    fn along(&self, id: u32) -> Segment
        ensures { result ≡ along_by self.now.order.now self.now.column self.now.nets.now self.now.since.now id }
    {
        Segment::Along {
            net: entry(self.nets, id),
            track: self.order.line(id),
            from: entry(self.since, id),
            to: self.column,
        }
    }

    // The wires along the tracks that are left, from bottom to top.
    fn alongs(&self, alloc: Global) -> Result<Vec<Segment>, AllocError>
        ensures { IfOk result (λ alongs. alongs.items
            ≡ alongs_by self.now.order.now self.now.column self.now.nets.now self.now.since.now self.now.done.now) }
    {
        if !leaves_some(self.done) {
            return Ok(Vec::new(alloc));
        }
        self.marked_alongs(alloc)
    }

    // The wires along the tracks that are marked as left, from bottom to top.
    fn marked_alongs(&self, alloc: Global) -> Result<Vec<Segment>, AllocError>
        ensures { IfOk result (λ alongs. alongs.items
            ≡ map (along_by self.now.order.now self.now.column self.now.nets.now self.now.since.now) (filter (is_marked self.now.lefts.now.rounds.items self.now.lefts.now.round) self.now.order.now)) }
    {
        let ids = self.order.tracks().iter().map(|track| track.id);
        ids.filter(|id| self.lefts.has(*id))
            .map(|id| self.along(id))
            .collect(alloc)
    }

    // Adds the segments: the verticals, and the wires along the tracks that are left.
    pub(crate) fn push_segments(
        &self,
        alloc: Global,
        segments: &mut Vec<Segment>,
    ) -> Result<(), AllocError>
        ensures { OnOk result (segments.new.items ≡ segments.old.items ++ column_segments_by self.now.order.now self.now.column
            self.now.nets.now self.now.since.now self.now.pins.now self.now.done.now) }
    {
        let joins = self.pair_spans(alloc, self.done.joins.items())?;
        let moves = self.pair_spans(alloc, self.done.moves.items())?;
        let alongs = self.alongs(alloc)?;
        push_across(segments, self.column, self.pins)?;
        push_across(segments, self.column, &joins)?;
        push_across(segments, self.column, &moves)?;
        segments.extend_from_slice(&alongs)
    }

    // Whether a pin's piece meets a track of its net.
    fn meets(&self, id: u32, span: Span) -> bool
        ensures { result ≡ meets_by self.now.order.now self.now.nets.now id span }
    {
        if span.net != entry(self.nets, id) {
            return false;
        }
        let line = self.order.line(id);
        span.low <= line && line <= span.high
    }

    // Whether a piece of some pin meets a track of its net.
    fn is_met(&self, id: u32) -> bool
        ensures { result ≡ list_any (meets_by self.now.order.now self.now.nets.now id) self.now.pins.now }
    {
        self.pins.iter().any(|span| self.meets(id, *span))
    }

    // Whether a piece of some pin meets a track of its net, or the track is marked.
    fn is_met_or_marked(&self, id: u32) -> bool
        ensures { result ≡ (list_any (meets_by self.now.order.now self.now.nets.now id) self.now.pins.now || is_marked self.now.ends.now.rounds.items self.now.ends.now.round id) }
    {
        self.is_met(id) || self.ends.has(id)
    }

    // Whether a track may have a via.
    fn has_some(&self) -> bool
        ensures { result ≡ false → (id : ℕ) → has_via_by self.now.order.now self.now.nets.now self.now.pins.now self.now.done.now id ≡ false }
    {
        !(self.pins.is_empty()
            && (self.done.joins.items().is_empty() && self.done.moves.items().is_empty()))
    }

    // The via of a track.
    fn via(&self, id: u32) -> Via
        ensures { result ≡ via_by self.now.order.now self.now.column self.now.nets.now self.now.laters.now id }
    {
        let net = entry(self.nets, id);
        let track = self.order.line(id);
        Via {
            net: if net == 0 {
                entry(self.laters, id)
            } else {
                net
            },
            column: self.column,
            track,
        }
    }

    // The vias, from bottom to top.
    fn vias(&self, alloc: Global) -> Result<Vec<Via>, AllocError>
        ensures { IfOk result (λ vias. vias.items ≡ vias_by self.now.order.now self.now.column self.now.nets.now self.now.laters.now
            self.now.pins.now self.now.done.now) }
    {
        if !self.has_some() {
            return Ok(Vec::new(alloc));
        }
        self.marked_vias(alloc)
    }

    // The vias of the tracks that pins' pieces meet and of those that are marked, from bottom to top.
    fn marked_vias(&self, alloc: Global) -> Result<Vec<Via>, AllocError>
        ensures { IfOk result (λ vias. vias.items ≡ map (via_by self.now.order.now self.now.column self.now.nets.now self.now.laters.now)
            (filter (λ id. list_any (meets_by self.now.order.now self.now.nets.now id) self.now.pins.now || is_marked self.now.ends.now.rounds.items self.now.ends.now.round id) self.now.order.now)) }
    {
        let ids = self.order.tracks().iter().map(|track| track.id);
        ids.filter(|id| self.is_met_or_marked(*id))
            .map(|id| self.via(id))
            .collect(alloc)
    }

    // Adds the vias.
    pub(crate) fn push_vias(&self, alloc: Global, vias: &mut Vec<Via>) -> Result<(), AllocError>
        ensures { OnOk result (vias.new.items ≡ vias.old.items ++ vias_by self.now.order.now self.now.column self.now.nets.now
            self.now.laters.now self.now.pins.now self.now.done.now) }
    {
        let more = self.vias(alloc)?;
        vias.extend_from_slice(&more)
    }
}
