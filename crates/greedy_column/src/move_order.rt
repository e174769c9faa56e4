//! Which kept tracks may move, and in what order: from bottom to top, or split nets first and then the farthest to go.

ghost use Rattle.greedy_column.specs.Lines.{held_lines};
ghost use Rattle.greedy_column.specs.Moving.{AreHeld, IsOrderAhead, IsOrderOfMoves, TellForeign, TellSplit, behind, has_other_end, is_end_of, is_held_beside, movable_lines, rank_on, waiting};
ghost use Rattle.greedy_column.specs.Uses.{next_after};
ghost use Rattle.std.specs.List.Sorted.{IsNonDecreasingBy, IsPermutation, IsStableByKey};
ghost use Rattle.std.specs.Ordering.{nat_cmp};
ghost use Rattle.std.specs.Prelude.{◌≡◌, ◌<◌, ◌≤◌, ◌+◌, ◌^◌, Contains, IfOk, OnOk, length, map, vec_capacity, vec_len};

use crate::ahead::Ahead;
use crate::column::Track;
use crate::free_lines::FreeLines;
use crate::lines::put_where;
use crate::pairs::Pairs;
use crate::span::Span;
use crate::stretch::{REMAINDERS, may_have, remainders_of};
use crate::tracks::Tracks;
use choose_core::{Manner, Next};
use std::alloc::{AllocError, Global};

// A line whose track is to move, and its rank: those of lowest rank move first.
#[derive(Clone, Copy, Debug)]
pub(crate) struct Waiting {
    pub(crate) line: u32,
    pub(crate) rank: u32,
}

// The lines of the kept tracks that have one of these free lines to go to past these verticals.
pub(crate) fn movable_lines(
    alloc: Global,
    spans: &[Span],
    free: &FreeLines,
    kept: &Tracks,
) -> Result<Vec<u32>, AllocError>
    ensures { IfOk result (λ lines. lines.items ≡ movable_lines spans.now free.now kept.now) }
{
    if free.list().is_empty() {
        return Ok(Vec::new(alloc));
    }
    movable_of(alloc, spans, free, kept.list())
}

// The same, track by track. Most tracks lie in the stretch of the one before and have none of the verticals, so whether they are free is
// asked only where that stretch has a free line.
#[inline(never)]
fn movable_of(
    alloc: Global,
    spans: &[Span],
    free: &FreeLines,
    kept: &[Track],
) -> Result<Vec<u32>, AllocError>
    requires { length kept.now + 2 < 2 ^ 32 }
    ensures { IfOk result (λ lines. lines.items ≡ movable_lines spans.now free.now kept.now) }
{
    let remainders = remainders_of(spans);
    let mut lines = Vec::with_capacity(alloc, kept.len())?;
    // The stretch before, at first one of no lines. As one value it would go through memory for each track.
    let (mut low, mut high, mut has_free) = (1u32, 0u32, false);
    let mut line = 0u32;
    let mut rest = kept;
    while let Some((track, above)) = rest.split_first() {
        rest = above;
        line += 1;
        if may_have(&remainders, track.net) {
            put_where(&mut lines, free.may_move(spans, track.net, line), line);
            continue;
        }
        if low <= line && line <= high {
            put_where(&mut lines, has_free && track.net != 0, line);
            continue;
        }
        let stretch = free.stretch_of(spans, track.net, line);
        low = stretch.window.low;
        high = stretch.window.high;
        has_free = stretch.has_free;
        put_where(&mut lines, has_free && track.net != 0, line);
    }
    Ok(lines)
}

// The order in which the kept tracks of these lines may move, by pairs that tell which nets hold several tracks.
pub(crate) fn order_of_moves(
    alloc: Global,
    manner: Manner,
    ahead: &Ahead,
    column: u32,
    pairs: &Pairs,
    kept: &Tracks,
    lines: Vec<u32>,
) -> Result<Vec<u32>, AllocError>
    requires tell { TellSplit pairs.now kept.now }
    requires held { AreHeld kept.now lines.items }
    ensures { IfOk result (λ order. IsOrderOfMoves manner (next_after ahead.now.uses.items column) kept.now lines.items order.items) }
{
    match manner {
        Manner::Published => Ok(lines),
        Manner::LookingAhead => order_ahead(alloc, ahead, column, pairs.list(), kept, lines),
    }
}

// First those of split nets, from bottom to top, and then the others, of which those go first that have the farthest to go.
fn order_ahead(
    alloc: Global,
    ahead: &Ahead,
    column: u32,
    pairs: &[Span],
    kept: &Tracks,
    mut lines: Vec<u32>,
) -> Result<Vec<u32>, AllocError>
    requires tell { TellSplit pairs.now kept.now }
    requires held { AreHeld kept.now lines.items }
    ensures { IfOk result (λ order. IsOrderAhead (next_after ahead.now.uses.items column) kept.now lines.items order.items) }
{
    if lines.len() < 2 {
        return Ok(lines);
    }
    let mut waiting = waiting_on(alloc, ahead, column, pairs, kept, &lines)?;
    sort_by_rank(&mut waiting)?;
    put_lines(&mut lines, &waiting);
    Ok(lines)
}

// Some lines, each with its rank.
fn waiting_on(
    alloc: Global,
    ahead: &Ahead,
    column: u32,
    pairs: &[Span],
    kept: &Tracks,
    lines: &[u32],
) -> Result<Vec<Waiting>, AllocError>
    requires tell { TellSplit pairs.now kept.now }
    requires held { AreHeld kept.now lines.now }
    ensures { IfOk result (λ found. found.items ≡ map (waiting (rank_on (next_after ahead.now.uses.items column) kept.now)) lines.now) }
{
    let remainders = remainders_of(pairs);
    let mut waiting = Vec::with_capacity(alloc, lines.len())?;
    let mut rest = lines;
    while let Some((line, later)) = rest.split_first() {
        let rank = rank(ahead, column, pairs, &remainders, kept, *line);
        waiting.push_reserved(Waiting { line: *line, rank });
        rest = later;
    }
    Ok(waiting)
}

// The rank of a line: the lowest one where its net is split, and else by how much of the channel lies behind it.
fn rank(
    ahead: &Ahead,
    column: u32,
    pairs: &[Span],
    remainders: &[bool; REMAINDERS],
    kept: &Tracks,
    line: u32,
) -> u32
    requires remainders { TellForeign pairs.now remainders.now }
    requires tell { TellSplit pairs.now kept.now }
    requires held { Contains (held_lines kept.now) line }
    ensures { result ≡ rank_on (next_after ahead.now.uses.items column) kept.now line }
{
    let net = kept.net_on(line);
    if has_other_end(pairs, remainders, kept, net, line) {
        return 0;
    }
    1 + behind(kept, ahead.next(net, column), line)
}

// Whether a net that holds a line holds another end of these pairs of it too. Most nets have no pair, and are told by the remainders of those
// that have.
fn has_other_end(
    pairs: &[Span],
    remainders: &[bool; REMAINDERS],
    kept: &Tracks,
    net: u32,
    line: u32,
) -> bool
    requires { TellForeign pairs.now remainders.now }
    ensures { result ≡ has_other_end pairs.now kept.now net line }
{
    if !may_have(remainders, net) {
        return false;
    }
    pairs
        .iter()
        .any(|pair| has_end_beside(*pair, kept, net, line))
}

// Whether a pair is of a net that holds one of its ends, which is on another line than this.
fn has_end_beside(pair: Span, kept: &Tracks, net: u32, line: u32) -> bool
    ensures { result ≡ is_end_of net (is_held_beside kept.now net line) pair }
{
    pair.net == net
        && (is_held_beside(kept, net, line, pair.low) || is_held_beside(kept, net, line, pair.high))
}

// Whether a net holds a line, and this is another one than its own.
fn is_held_beside(kept: &Tracks, net: u32, line: u32, other: u32) -> bool
    ensures { result ≡ is_held_beside kept.now net line other }
{
    other != line && kept.net_on(other) == net
}

// How much of a channel of so many tracks lies behind a line on the way to the next pins, and all of it where these lie at no one edge.
fn behind(tracks: &Tracks, next: Next, line: u32) -> u32
    ensures behind { result ≡ behind (length tracks.now) next line }
    ensures few { line ≤ length tracks.now → result + 1 < 2 ^ 32 }
{
    let upper_edge = tracks.count() + 1;
    match next {
        Next::Top => line,
        Next::Bottom => upper_edge.saturating_sub(line),
        Next::Both | Next::Ends => upper_edge,
    }
}

// Sorts waiting lines by rank, those of one rank as they stood.
fn sort_by_rank(waiting: &mut Vec<Waiting>) -> Result<(), AllocError>
    ensures sorted { OnOk result (IsNonDecreasingBy (λ w. w.rank) waiting.new.items) }
    ensures stable { OnOk result (IsStableByKey (λ w. w.rank) nat_cmp waiting.old.items waiting.new.items) }
    ensures same { OnOk result (IsPermutation waiting.old.items waiting.new.items) }
    ensures long { vec_len waiting.new ≡ vec_len waiting.old }
{
    waiting.sort_by_key(|one| one.rank)?;
    Ok(())
}

// Puts the lines on which some wait in place of others, which are as many.
fn put_lines(lines: &mut Vec<u32>, waiting: &[Waiting])
    requires { length waiting.now ≤ vec_capacity lines.old }
    ensures { lines.new.items ≡ map (λ w. w.line) waiting.now }
{
    lines.clear();
    let mut rest = waiting;
    while let Some((one, later)) = rest.split_first() {
        lines.push_reserved(one.line);
        rest = later;
    }
}
