//! The tracks of a sweep after its last column, with the line of each id.

ghost use Rattle.greedy_column.specs.Joining.{span_in};
ghost use Rattle.greedy_column.specs.Tracks.{ids, line_of};
ghost use Rattle.greedy_column.specs.Verticals.{verticals_of_pins};
ghost use Rattle.greedy_router.specs.Tables.{Tells};
ghost use Rattle.std.specs.Prelude.{◌≡◌, ◌<◌, ◌+◌, ◌^◌, ℕ, Contains, IfOk, length, map};

use crate::tables::put;
use greedy_column::{Column, Span, Track};
use std::alloc::{AllocError, Global};
use std::marker::Model;

// The tracks of a sweep after its last column, from bottom to top, and a table of their lines by their ids. Contracts see the ids.
#[derive(Drop)]
pub(crate) struct FinalOrder<'a> {
    tracks: &'a [Track],
    lines: Vec<u32>,
}

impl<'a> Model for FinalOrder<'a> {
    ghost use Rattle.greedy_router.specs.FinalOrder.{IsOrder, order_in};
    ghost use Rattle.std.specs.Prelude.{List, ℕ};

    ghost Value = { List ℕ };

    ghost view = { order_in };

    ghost invariant = { IsOrder };
}

// The lines of tracks by the ids below `room`, that above all tracks where there is no such id.
fn lines_by_id(alloc: Global, tracks: &[Track], room: usize) -> Result<Vec<u32>, AllocError>
    requires { length tracks.now + 1 < 2 ^ 32 }
    ensures tells { IfOk result (λ lines. Tells lines.items (line_of (ids tracks.now))) }
    ensures long { IfOk result (λ lines. length lines.items ≡ room) }
{
    let above = tracks.len() as u32 + 1;
    let mut lines = vec![in alloc; above; room]?;
    let mut rest = tracks;
    while let Some((track, below)) = rest.split_last() {
        put(&mut lines, track.id, rest.len() as u32);
        rest = below;
    }
    Ok(lines)
}

impl<'a> FinalOrder<'a> {
    // These tracks, which have ids below `room`.
    pub(crate) fn new(
        alloc: Global,
        tracks: &'a [Track],
        room: usize,
    ) -> Result<FinalOrder<'a>, AllocError>
        requires few { length tracks.now + 1 < 2 ^ 32 }
        requires below { (id : ℕ) → Contains (ids tracks.now) id → id < room }
        ensures { IfOk result (λ order. order ≡ ids tracks.now) }
    {
        let lines = lines_by_id(alloc, tracks, room)?;
        Ok(FinalOrder { tracks, lines })
    }

    // The tracks.
    pub(crate) fn tracks(&self) -> &'a [Track]
        ensures order { ids result.now ≡ self.now }
        ensures few { length result.now + 1 < 2 ^ 32 }
    {
        self.tracks
    }

    // The line of the upper edge.
    fn upper_edge(&self) -> u32
        ensures { result ≡ length self.now + 1 }
    {
        self.tracks.len() as u32 + 1
    }

    // The line of an id, one above all tracks where it has none.
    pub(crate) fn line(&self, id: u32) -> u32
        ensures { result ≡ line_of self.now id }
    {
        match self.lines.get(id as usize) {
            Some(line) => *line,
            None => self.tracks.len() as u32 + 1,
        }
    }

    // The pieces of wire of a column's pins, from the nets of the top and the bottom pin and the tracks that they enter.
    pub(crate) fn pin_spans(
        &self,
        alloc: Global,
        nets: (u32, u32),
        done: &Column,
    ) -> Result<Vec<Span>, AllocError>
        ensures { IfOk result (λ spans.
            spans.items ≡ map (span_in self.now) (verticals_of_pins done.now.straight nets.0 nets.1 done.now.top done.now.bottom)) }
    {
        let (top, bottom) = nets;
        let mut spans = Vec::new(alloc);
        if done.straight {
            spans.push(Span {
                net: top,
                low: 0,
                high: self.upper_edge(),
            })?;
            return Ok(spans);
        }
        if bottom != 0 {
            spans.push(Span {
                net: bottom,
                low: 0,
                high: self.line(done.bottom),
            })?;
        }
        if top != 0 {
            spans.push(Span {
                net: top,
                low: self.line(done.top),
                high: self.upper_edge(),
            })?;
        }
        Ok(spans)
    }
}
