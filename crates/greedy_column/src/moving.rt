//! Moves of nets from kept tracks to free ones, each picked by the chooser and drawn as a vertical.

ghost use Rattle.greedy_column.specs.Uses.{next_after};
ghost use Rattle.greedy_column.specs.Lines.{net_on, own_lines};
ghost use Rattle.greedy_column.specs.Replay.{moved};
ghost use Rattle.greedy_column.specs.Tracks.{ids};
ghost use Rattle.greedy_column.specs.Moving.{GoesTo, MovesFollow, carried, move_ids, move_options, others_of_net, piece_between, without};
ghost use Rattle.greedy_column.specs.Offers.{move_question};
ghost use Rattle.std.specs.Prelude.{◌≡◌, ◌<◌, ◌+◌, ◌++◌, ◌∷◌, ◌^◌, [], IfOk, OnOk, length, map};

use crate::ahead::Ahead;
use crate::free_lines::FreeLines;
use crate::lines::Lines;
use crate::moment::Moment;
use crate::question::Question;
use crate::span::Span;
use crate::tracks::Tracks;
use choose_core::{Ask, Candidate, Chooses, Next};
use std::alloc::{AllocError, Global};

// The piece between two lines.
fn piece_between(net: u32, one: u32, other: u32) -> Span
    ensures { result ≡ piece_between net one other }
{
    Span {
        net,
        low: one.min(other),
        high: one.max(other),
    }
}

// The question where a kept track goes on.
fn move_question(line: u32, next: Next) -> Question
    ensures { result ≡ move_question line next }
{
    Question {
        ask: Ask::Move,
        aim: Some(line),
        next,
    }
}

impl<C: Chooses> Moment<'_, C> {
    // Where a kept track of a net goes on, by an answer where it has options.
    fn target_of(
        &self,
        net: u32,
        kept: &Tracks,
        line: u32,
        options: &[u32],
        offers: &mut Vec<Candidate>,
    ) -> Result<u32, AllocError>
        requires { length options.now + 1 < 2 ^ 32 }
        ensures { IfOk result (λ target. GoesTo (C.answers self.now.chooser.now) (next_after self.now.ahead.now.uses.items self.now.column net)
            (without line (own_lines net kept.now)) line options.now target) }
    {
        if options.is_empty() {
            return Ok(line);
        }
        let next = self.ahead.next(net, self.column);
        let others = other_lines(self.alloc, kept, net, line)?;
        self.pick_from(move_question(line, next), &others, line, options, offers)
    }

    // The line on which the kept track of a line goes on.
    fn line_after(
        &self,
        tracks: &Tracks,
        kept: &Tracks,
        spans: &[Span],
        free: &FreeLines,
        line: u32,
        offers: &mut Vec<Candidate>,
    ) -> Result<u32, AllocError>
        ensures { IfOk result (λ target. GoesTo (C.answers self.now.chooser.now) (next_after self.now.ahead.now.uses.items self.now.column (net_on tracks.now line))
            (others_of_net tracks.now kept.now line) line (move_options spans.now (net_on tracks.now line) line free.now) target) }
    {
        let net = tracks.net_on(line);
        let options = free.move_options(spans, net, line);
        self.target_of(net, kept, line, options, offers)
    }

    // The moves of a column, as lines, in their order, by which the kept tracks are carried along. Lines are offered in a list that is lent for that.
    pub(crate) fn move_all(
        &self,
        tracks: &Tracks,
        lines: &[u32],
        spans: &mut Vec<Span>,
        mut free: FreeLines,
        kept: &mut Tracks,
        offers: &mut Vec<Candidate>,
    ) -> Result<Vec<(u32, u32)>, AllocError>
        requires { ids kept.old ≡ ids tracks.now }
        ensures moves { IfOk result (λ moves.
            MovesFollow (C.answers self.now.chooser.now) (next_after self.now.ahead.now.uses.items self.now.column) tracks.now kept.old lines.now spans.old.items free
            moves.items) }
        ensures kept { IfOk result (λ moves. kept.new ≡ moved (map (move_ids tracks.now) moves.items) kept.old) }
    {
        let mut moves = Vec::new(self.alloc);
        let mut rest = lines;
        while let Some((line, later)) = rest.split_first() {
            rest = later;
            let target = self.line_after(tracks, kept, spans, &free, *line, offers)?;
            if target == *line {
                continue;
            }
            go_to(tracks, *line, target, spans, &mut free, kept)?;
            moves.push((*line, target))?;
        }
        Ok(moves)
    }
}

// The other lines on which a net holds tracks.
fn other_lines(alloc: Global, kept: &Tracks, net: u32, line: u32) -> Result<Lines, AllocError>
    ensures { IfOk result (λ others. others ≡ without line (own_lines net kept.now)) }
{
    if kept.holds_alone(net, line) {
        return Ok(Lines::none(alloc));
    }
    let mut own = kept.own_lines(alloc, net)?;
    own.leave_out(line);
    Ok(own)
}

// One move between lines: it becomes a vertical, its line is free no more, and the kept tracks are carried along.
fn go_to(
    tracks: &Tracks,
    line: u32,
    target: u32,
    spans: &mut Vec<Span>,
    free: &mut FreeLines,
    kept: &mut Tracks,
) -> Result<(), AllocError>
    requires { ids kept.old ≡ ids tracks.now }
    ensures spans { OnOk result (spans.new.items ≡ spans.old.items ++ piece_between (net_on tracks.now line) line target ∷ []) }
    ensures free { OnOk result (free.new ≡ without target free.old) }
    ensures kept { OnOk result (kept.new ≡ carried tracks.now kept.old line target) }
{
    spans.push(piece_between(tracks.net_on(line), line, target))?;
    free.take(target);
    kept.carry(line, target);
    Ok(())
}

// The ids of the moves' lines.
pub(crate) fn move_ids(
    alloc: Global,
    tracks: &Tracks,
    moves: &[(u32, u32)],
) -> Result<Vec<(u32, u32)>, AllocError>
    ensures { IfOk result (λ ids. ids.items ≡ map (move_ids tracks.now) moves.now) }
{
    moves
        .iter()
        .map(|step| (tracks.id_on(step.0), tracks.id_on(step.1)))
        .collect(alloc)
}
