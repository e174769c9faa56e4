//! Which tracks end: all but one of each group that is joined, or all of them where their net has no more pins.

ghost use Rattle.greedy_column.specs.Desk.{MarksSplit, is_marked};
ghost use Rattle.greedy_column.specs.Ending.{AddsEnds, EndsButOne, EndsFollow, EndsOf, chain_from, ends_alone, groups, is_given_up, joined_pairs, others_of, outside};
ghost use Rattle.greedy_column.specs.Joining.{neighbours};
ghost use Rattle.greedy_column.specs.Lines.{held_lines, lines_from, net_on, own_lines};
ghost use Rattle.greedy_column.specs.Offers.{keep_question};
ghost use Rattle.greedy_column.specs.Uses.{next_after};
ghost use Rattle.greedy_column.specs.declared.span.Span.{Span};
ghost use Rattle.std.specs.Prelude.{◌≡◌, ◌==◌, ◌<◌, ◌≤◌, ◌+◌, ◌++◌, ◌∷◌, ◌^◌, ◌&&◌, [], List, Contains, IfOk, OnOk, if◌then◌else◌, length, not};

use crate::ahead::Ahead;
use crate::column::Track;
use crate::desk::Desk;
use crate::entering::is_ending;
use crate::grouping::chain;
use crate::lines::{Lines, push_where};
use crate::marks::is_marked;
use crate::moment::Moment;
use crate::pairs::{Paired, Pairs};
use crate::question::Question;
use crate::span::Span;
use crate::table::entry;
use crate::tracks::Tracks;
use choose_core::{Ask, Chooses, Next};
use std::alloc::{AllocError, Global};

// The question which track of a group is kept.
fn keep_question(tracks: &Tracks, next: Next) -> Question
    ensures { result ≡ keep_question (length tracks.now) next }
{
    let aim = match next {
        Next::Top => Some(tracks.upper_edge()),
        Next::Bottom => Some(0),
        Next::Ends | Next::Both => None,
    };
    Question {
        ask: Ask::Keep,
        aim,
        next,
    }
}

// Whether a net that has no later pins, or has some, gives up all its tracks, by the marks of those that have more than one group.
fn gives_up(marks: &[u32], net: u32, last: bool) -> bool
    ensures { result ≡ (last && not (is_marked marks.now net)) }
{
    last && !is_marked(marks, net)
}

impl<C: Chooses> Moment<'_, C> {
    // The lines of a group that end.
    fn ends_of(
        &self,
        tracks: &Tracks,
        net: u32,
        next: Next,
        given_up: bool,
        group: Vec<u32>,
    ) -> Result<Vec<u32>, AllocError>
        requires { length group.items < 2 ^ 32 }
        ensures { IfOk result (λ ending. EndsOf (C.answers self.now.chooser.now) (length tracks.now) next (own_lines net tracks.now) given_up group.items ending.items) }
    {
        if given_up {
            return Ok(group);
        }
        if group.len() < 2 {
            return Ok(Vec::new(self.alloc));
        }
        self.ends_but_one(tracks, net, next, &group)
    }

    // The lines of a group that end where its net has more to do: all but one.
    fn ends_but_one(
        &self,
        tracks: &Tracks,
        net: u32,
        next: Next,
        group: &[u32],
    ) -> Result<Vec<u32>, AllocError>
        requires some { 2 ≤ length group.now }
        requires few { length group.now < 2 ^ 32 }
        ensures { IfOk result (λ ending. EndsButOne (C.answers self.now.chooser.now) (length tracks.now) next (own_lines net tracks.now) group.now ending.items) }
    {
        let others = other_groups(self.alloc, tracks, net, group)?;
        let question = keep_question(tracks, next);
        let mut offers = Vec::new(self.alloc);
        let kept = self.pick_line(question, &others, group, &mut offers)?;
        others_of(self.alloc, group, kept)
    }

    // The lines that end of the group whose lowest line is this one.
    fn ends_from(
        &self,
        tracks: &Tracks,
        joined: &Pairs,
        marks: &[u32],
        line: u32,
    ) -> Result<Vec<u32>, AllocError>
        ensures { IfOk result (λ ending.
            let net = net_on tracks.now line in
            let next = next_after self.now.ahead.now.uses.items self.now.column net in
            EndsOf (C.answers self.now.chooser.now) (length tracks.now) next (own_lines net tracks.now)
            (is_given_up next (is_marked marks.now net)) (chain_from joined.now line) ending.items) }
    {
        let net = tracks.net_on(line);
        let next = self.ahead.next(net, self.column);
        let given_up = gives_up(marks, net, is_ending(next));
        let group = chain(self.alloc, joined, line)?;
        self.ends_of(tracks, net, next, given_up, group)
    }

    // Adds a line that is joined to no other, where it ends.
    fn push_alone(
        &self,
        tracks: &Tracks,
        marks: &[u32],
        line: u32,
        ending: &mut Vec<u32>,
    ) -> Result<(), AllocError>
        ensures { OnOk result (
            let net = net_on tracks.now line in
            let next = next_after self.now.ahead.now.uses.items self.now.column net in
            ending.new.items ≡ ending.old.items ++ (if is_given_up next (is_marked marks.now net) then line ∷ [] else [])) }
    {
        let net = tracks.net_on(line);
        let last = self.ahead.is_last(net, self.column);
        push_where(ending, gives_up(marks, net, last), line)
    }

    // Adds the lines that end of the group whose lowest line is this one, at once where no line is joined to it.
    fn push_group(
        &self,
        tracks: &Tracks,
        joined: &Pairs,
        marks: &[u32],
        line: u32,
        ending: &mut Vec<u32>,
    ) -> Result<(), AllocError>
        ensures { OnOk result ((spans : List Span) → MarksSplit spans (neighbours tracks.now) marks.now
            → AddsEnds (C.answers self.now.chooser.now) (next_after self.now.ahead.now.uses.items self.now.column) tracks.now spans
            (chain_from joined.now line ∷ []) ending.old.items ending.new.items) }
    {
        if !joined.is_joined_above(line) {
            return self.push_alone(tracks, marks, line, ending);
        }
        let ends = self.ends_from(tracks, joined, marks, line)?;
        ending.extend_from_slice(&ends)?;
        Ok(())
    }

    // The same for a line of this net: none where the line is free, or is joined to one below it.
    fn push_ends(
        &self,
        tracks: &Tracks,
        joined: &Pairs,
        marks: &[u32],
        net: u32,
        line: u32,
        ending: &mut Vec<u32>,
    ) -> Result<(), AllocError>
        ensures { OnOk result ((spans : List Span) → MarksSplit spans (neighbours tracks.now) marks.now
            → AddsEnds (C.answers self.now.chooser.now) (next_after self.now.ahead.now.uses.items self.now.column) tracks.now spans
            (groups joined.now (if not (net == 0) then line ∷ [] else [])) ending.old.items ending.new.items) }
    {
        if net == 0 {
            return Ok(());
        }
        if joined.is_joined_below(line) {
            return Ok(());
        }
        self.push_group(tracks, joined, marks, line, ending)
    }

    // The lines that end, group by group, where some tracks are joined and the nets of more than one group are marked.
    fn ends_of_groups(
        &self,
        paired: &Paired,
        joined: &Pairs,
        spans: &[Span],
        marks: &[u32],
    ) -> Result<Vec<u32>, AllocError>
        requires joined { joined.now ≡ joined_pairs spans.now paired.now.pairs }
        requires marks { MarksSplit spans.now paired.now.pairs marks.now }
        ensures { IfOk result (λ ending.
            EndsFollow (C.answers self.now.chooser.now) (next_after self.now.ahead.now.uses.items self.now.column) paired.now.tracks.now spans.now
            (groups (joined_pairs spans.now (neighbours paired.now.tracks.now)) (held_lines paired.now.tracks.now)) ending.items) }
    {
        let mut ending = Vec::new(self.alloc);
        let mut line = 1u32;
        let mut rest = paired.tracks.list();
        while let Some((track, above)) = rest.split_first() {
            self.push_ends(paired.tracks, joined, marks, track.net, line, &mut ending)?;
            line += 1;
            rest = above;
        }
        Ok(ending)
    }

    // The lines that end, group by group, where the nets of more than one group are marked.
    fn ends_by(
        &self,
        paired: &Paired,
        spans: &[Span],
        marks: &[u32],
    ) -> Result<Vec<u32>, AllocError>
        requires { MarksSplit spans.now paired.now.pairs marks.now }
        ensures { IfOk result (λ ending.
            EndsFollow (C.answers self.now.chooser.now) (next_after self.now.ahead.now.uses.items self.now.column) paired.now.tracks.now spans.now
            (groups (joined_pairs spans.now (neighbours paired.now.tracks.now)) (held_lines paired.now.tracks.now)) ending.items) }
    {
        let joined = paired.pairs.joined(self.alloc, spans)?;
        if joined.list().is_empty() {
            return lone_ends(
                self.alloc,
                paired.tracks,
                self.ahead.lasts(),
                marks,
                self.column,
            );
        }
        self.ends_of_groups(paired, &joined, spans, marks)
    }

    // The lines that end, group by group.
    pub(crate) fn ending_lines(
        &self,
        desk: &mut Desk,
        paired: &Paired,
        spans: &[Span],
    ) -> Result<Vec<u32>, AllocError>
        ensures { IfOk result (λ ending.
            EndsFollow (C.answers self.now.chooser.now) (next_after self.now.ahead.now.uses.items self.now.column) paired.now.tracks.now spans.now
            (groups (joined_pairs spans.now (neighbours paired.now.tracks.now)) (held_lines paired.now.tracks.now)) ending.items) }
    {
        let marks = desk.marks(self.alloc, &paired.pairs, spans)?;
        let ending = self.ends_by(paired, spans, &marks)?;
        desk.take_back(marks, &paired.pairs);
        Ok(ending)
    }
}

// Whether a track is held and its net gives it up, where no two tracks are joined.
fn ends_alone(track: Track, lasts: &[u32], marks: &[u32], column: u32) -> bool
    ensures { result ≡ ends_alone lasts.now marks.now column track }
{
    track.net != 0 && (entry(lasts, track.net) <= column && entry(marks, track.net) == 0)
}

// The lines that end where no two tracks are joined, in one pass that is apart from all else, so that what it reads stays at hand.
#[inline(never)]
fn lone_ends(
    alloc: Global,
    tracks: &Tracks,
    lasts: &[u32],
    marks: &[u32],
    column: u32,
) -> Result<Vec<u32>, AllocError>
    ensures { IfOk result (λ ending. ending.items ≡ lines_from (ends_alone lasts.now marks.now column) 1 tracks.now) }
{
    let mut ending = Vec::new(alloc);
    let mut line = 1u32;
    let mut rest = tracks.list();
    while let Some((track, above)) = rest.split_first() {
        push_where(&mut ending, ends_alone(*track, lasts, marks, column), line)?;
        line += 1;
        rest = above;
    }
    Ok(ending)
}

// The lines of a group's net outside the group.
fn other_groups(
    alloc: Global,
    tracks: &Tracks,
    net: u32,
    group: &[u32],
) -> Result<Lines, AllocError>
    ensures { IfOk result (λ others. others ≡ outside group.now (own_lines net tracks.now)) }
{
    let own = tracks.own_lines(alloc, net)?;
    own.outside(alloc, group)
}

// The lines of a group but one.
fn others_of(alloc: Global, group: &[u32], kept: u32) -> Result<Vec<u32>, AllocError>
    ensures { IfOk result (λ others. others.items ≡ others_of group.now kept) }
{
    group
        .iter()
        .copied()
        .filter(|line| *line != kept)
        .collect(alloc)
}
