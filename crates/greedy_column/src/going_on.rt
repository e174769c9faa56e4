//! What a column does once its pins have entered: joins, ends and moves, and the tracks after them.

ghost use Rattle.greedy_column.specs.Follows.{AreEnded, AreEndsTold, AreJoinsTold, AreMovesTold, FollowsOn};
ghost use Rattle.greedy_column.specs.Moving.{TellSplit};
ghost use Rattle.greedy_column.specs.Replay.{freed, moved};
ghost use Rattle.greedy_column.specs.Tracks.{ids};
ghost use Rattle.greedy_column.specs.Uses.{next_after};
ghost use Rattle.std.specs.Prelude.{◌≡◌, ◌<◌, ◌+◌, ◌^◌, IfOk, length};

use crate::ahead::Ahead;
use crate::column::Track;
use crate::desk::Desk;
use crate::ended::ended_ids;
use crate::joining::join_ids;
use crate::moment::Moment;
use crate::move_order::{movable_lines, order_of_moves};
use crate::moving::move_ids;
use crate::pairs::Paired;
use crate::span::Span;
use crate::tracks::Tracks;
use choose_core::{Candidate, Chooses, Manner};
use geom_core::Items;
use std::alloc::{AllocError, Global};

// What steps 2 to 4 do, and the tracks after them.
#[derive(Drop)]
pub(crate) struct Outcome {
    pub(crate) joins: Items<(u32, u32)>,
    pub(crate) ended: Items<u32>,
    pub(crate) moves: Items<(u32, u32)>,
    pub(crate) tracks: Items<Track>,
}

// The tracks that end: their lines, and their ids in ascending order.
#[derive(Drop)]
struct Ends {
    lines: Vec<u32>,
    ids: Vec<u32>,
}

// What steps 2 and 3 do, and the verticals after them.
#[derive(Drop)]
struct JoinsAndEnds {
    joins: Vec<(u32, u32)>,
    ends: Ends,
    spans: Vec<Span>,
}

// What step 4 does, and the tracks after it.
#[derive(Drop)]
struct MovedOn {
    moves: Vec<(u32, u32)>,
    tracks: Tracks,
}

impl Ends {
    // The tracks, of which those that end are freed.
    fn kept_of(&self, alloc: Global, tracks: &Tracks) -> Result<Tracks, AllocError>
        requires { AreEnded tracks.now self.now.lines.items self.now.ids.items }
        ensures { IfOk result (λ kept. kept ≡ freed self.now.ids.items tracks.now) }
    {
        tracks.freed(alloc, &self.lines)
    }
}

impl<C: Chooses> Moment<'_, C> {
    // Steps 2 to 4, over the tracks that the pins have entered and the verticals of these.
    pub(crate) fn go_on(
        &self,
        desk: &mut Desk,
        now: &Tracks,
        spans: Vec<Span>,
    ) -> Result<Outcome, AllocError>
        ensures follows { IfOk result (λ outcome. FollowsOn self.now.manner (C.answers self.now.chooser.now) (next_after self.now.ahead.now.uses.items self.now.column) now.now spans.items
            outcome.joins outcome.ended outcome.moves) }
        ensures tracks { IfOk result (λ outcome. outcome.tracks ≡ moved outcome.moves (freed outcome.ended now.now)) }
    {
        let paired = now.paired(self.alloc, desk)?;
        self.go_on_paired(desk, &paired, spans)
    }

    // The same, from the neighbouring tracks.
    fn go_on_paired(
        &self,
        desk: &mut Desk,
        paired: &Paired,
        spans: Vec<Span>,
    ) -> Result<Outcome, AllocError>
        ensures follows { IfOk result (λ outcome. FollowsOn self.now.manner (C.answers self.now.chooser.now) (next_after self.now.ahead.now.uses.items self.now.column) paired.now.tracks.now spans.items
            outcome.joins outcome.ended outcome.moves) }
        ensures tracks { IfOk result (λ outcome. outcome.tracks ≡ moved outcome.moves (freed outcome.ended paired.now.tracks.now)) }
    {
        let drawn = self.join_and_end(desk, paired, spans)?;
        let JoinsAndEnds { joins, ends, spans } = drawn;
        let carried = self.move_on(desk, paired, &ends, spans)?;
        let MovedOn { moves, tracks } = carried;
        Ok(Outcome {
            joins: Items::new(joins),
            ended: Items::new(ends.ids),
            moves: Items::new(moves),
            tracks: Items::new(tracks.into_list()),
        })
    }

    // Steps 2 and 3.
    fn join_and_end(
        &self,
        desk: &mut Desk,
        paired: &Paired,
        mut spans: Vec<Span>,
    ) -> Result<JoinsAndEnds, AllocError>
        ensures joins { IfOk result (λ drawn. AreJoinsTold (C.answers self.now.chooser.now) (next_after self.now.ahead.now.uses.items self.now.column) paired.now.tracks.now spans.items
            drawn.spans.items drawn.joins.items) }
        ensures ends { IfOk result (λ drawn. AreEndsTold (C.answers self.now.chooser.now) (next_after self.now.ahead.now.uses.items self.now.column) paired.now.tracks.now drawn.spans.items
            drawn.ends.ids.items) }
        ensures lines { IfOk result (λ drawn. AreEnded paired.now.tracks.now drawn.ends.lines.items drawn.ends.ids.items) }
    {
        let joins = self.joins_of(paired, &mut spans)?;
        let ends = self.ends_of_lines(desk, paired, &spans)?;
        Ok(JoinsAndEnds { joins, ends, spans })
    }

    // Step 2: the joins, which become verticals.
    fn joins_of(
        &self,
        paired: &Paired,
        spans: &mut Vec<Span>,
    ) -> Result<Vec<(u32, u32)>, AllocError>
        ensures { IfOk result (λ joins. AreJoinsTold (C.answers self.now.chooser.now) (next_after self.now.ahead.now.uses.items self.now.column) paired.now.tracks.now spans.old.items
            spans.new.items joins.items) }
    {
        let joined = self.join_all(&paired.pairs, spans)?;
        join_ids(self.alloc, paired.tracks, &joined)
    }

    // Step 3: the tracks that end.
    fn ends_of_lines(
        &self,
        desk: &mut Desk,
        paired: &Paired,
        spans: &[Span],
    ) -> Result<Ends, AllocError>
        ensures told { IfOk result (λ ends. AreEndsTold (C.answers self.now.chooser.now) (next_after self.now.ahead.now.uses.items self.now.column) paired.now.tracks.now spans.now ends.ids.items) }
        ensures lines { IfOk result (λ ends. AreEnded paired.now.tracks.now ends.lines.items ends.ids.items) }
    {
        let lines = self.ending_lines(desk, paired, spans)?;
        let ids = ended_ids(self.alloc, paired.tracks, &lines)?;
        Ok(Ends { lines, ids })
    }

    // Step 4, over the tracks of which those that end are freed.
    fn move_on(
        &self,
        desk: &mut Desk,
        paired: &Paired,
        ends: &Ends,
        mut spans: Vec<Span>,
    ) -> Result<MovedOn, AllocError>
        requires { AreEnded paired.now.tracks.now ends.now.lines.items ends.now.ids.items }
        ensures moves { IfOk result (λ carried. AreMovesTold self.now.manner (C.answers self.now.chooser.now) (next_after self.now.ahead.now.uses.items self.now.column) paired.now.tracks.now
            (freed ends.now.ids.items paired.now.tracks.now) spans.items carried.moves.items) }
        ensures tracks { IfOk result (λ carried. carried.tracks ≡ moved carried.moves.items (freed ends.now.ids.items paired.now.tracks.now)) }
    {
        let mut tracks = ends.kept_of(self.alloc, paired.tracks)?;
        let mut offers = desk.take_offers(self.alloc);
        let moves = self.moves_of(paired, &mut spans, &mut tracks, &mut offers)?;
        desk.give_offers(offers);
        Ok(MovedOn { moves, tracks })
    }

    // The moves of the kept tracks, which become verticals, and by which these are carried along.
    fn moves_of(
        &self,
        paired: &Paired,
        spans: &mut Vec<Span>,
        kept: &mut Tracks,
        offers: &mut Vec<Candidate>,
    ) -> Result<Vec<(u32, u32)>, AllocError>
        requires split { TellSplit paired.now.pairs kept.old }
        requires ids { ids kept.old ≡ ids paired.now.tracks.now }
        ensures moves { IfOk result (λ moves. AreMovesTold self.now.manner (C.answers self.now.chooser.now) (next_after self.now.ahead.now.uses.items self.now.column) paired.now.tracks.now kept.old
            spans.old.items moves.items) }
        ensures tracks { IfOk result (λ moves. kept.new ≡ moved moves.items kept.old) }
    {
        let now = paired.tracks;
        let free = now.free_lines(self.alloc)?;
        let lines = movable_lines(self.alloc, spans, &free, kept)?;
        let order = order_of_moves(
            self.alloc,
            self.manner,
            self.ahead,
            self.column,
            &paired.pairs,
            kept,
            lines,
        )?;
        let moving = self.move_all(now, &order, spans, free, kept, offers)?;
        move_ids(self.alloc, now, &moving)
    }
}
