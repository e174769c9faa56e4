//! Joins neighbouring tracks of a net by verticals, one after another, while one more is possible.

ghost use Rattle.greedy_column.specs.Uses.{next_after};
ghost use Rattle.greedy_column.specs.Joining.{IsNextJoin, JoinsFollow, ids_of, possible_joins};
ghost use Rattle.greedy_column.specs.Offers.{IsPicked, join_offer};
ghost use Rattle.std.specs.Prelude.{◌≡◌, ◌<◌, ◌++◌, IfOk, length, map};

use crate::ahead::Ahead;
use crate::moment::Moment;
use crate::pairs::Pairs;
use crate::span::Span;
use crate::tracks::Tracks;
use choose_core::{Ask, Candidate, Chooses};
use std::alloc::{AllocError, Global};

// Two tracks as they are offered for a join.
fn join_offer(ahead: &Ahead, column: u32, pair: Span) -> Candidate
    requires { 0 < pair.low }
    ensures { result ≡ join_offer (next_after ahead.now.uses.items column) pair }
{
    let gap = pair.high.saturating_sub(pair.low);
    Candidate {
        ask: Ask::Join,
        track: pair.low,
        gap,
        next: ahead.next(pair.net, column),
        pull: gap + 1,
    }
}

impl<C: Chooses> Moment<'_, C> {
    // One of these joins, picked by the chooser.
    fn pick_join(&self, joins: &Pairs) -> Result<Span, AllocError>
        requires { 0 < length joins.now }
        ensures { IfOk result (λ pair.
            IsPicked (C.answers self.now.chooser.now) (join_offer (next_after self.now.ahead.now.uses.items self.now.column)) joins.now pair) }
    {
        let offers = join_offers(self.alloc, self.ahead, self.column, joins)?;
        Ok(joins.list()[self.chooser.choose(&offers)])
    }

    // The next join, where one is possible.
    fn next_join(&self, pairs: &Pairs, spans: &[Span]) -> Result<Option<Span>, AllocError>
        ensures { IfOk result (λ join.
            IsNextJoin (C.answers self.now.chooser.now) (next_after self.now.ahead.now.uses.items self.now.column) (possible_joins spans.now pairs.now) join) }
    {
        let joins = pairs.possible_joins(self.alloc, spans)?;
        if joins.list().is_empty() {
            return Ok(None);
        }
        let pair = self.pick_join(&joins)?;
        Ok(Some(pair))
    }

    // The joins of a column, in their order: while one is possible, one is picked, and becomes a vertical.
    pub(crate) fn join_all(
        &self,
        pairs: &Pairs,
        spans: &mut Vec<Span>,
    ) -> Result<Vec<Span>, AllocError>
        ensures joins { IfOk result (λ joined.
            JoinsFollow (C.answers self.now.chooser.now) (next_after self.now.ahead.now.uses.items self.now.column) pairs.now spans.old.items joined.items) }
        ensures spans { IfOk result (λ joined. spans.new.items ≡ spans.old.items ++ joined.items) }
    {
        let mut joined = Vec::new(self.alloc);
        loop {
            let Some(pair) = self.next_join(pairs, spans)? else {
                return Ok(joined);
            };
            spans.push(pair)?;
            joined.push(pair)?;
        }
    }
}

// Some joins as they are offered.
fn join_offers(
    alloc: Global,
    ahead: &Ahead,
    column: u32,
    joins: &Pairs,
) -> Result<Vec<Candidate>, AllocError>
    ensures { IfOk result (λ offers. offers.items ≡ map (join_offer (next_after ahead.now.uses.items column)) joins.now) }
{
    let mut offers = Vec::new(alloc);
    let mut rest = joins.list();
    while let Some((pair, later)) = rest.split_first() {
        offers.push(join_offer(ahead, column, *pair))?;
        rest = later;
    }
    Ok(offers)
}

// The ids of the joins' lower and upper tracks.
pub(crate) fn join_ids(
    alloc: Global,
    tracks: &Tracks,
    joined: &[Span],
) -> Result<Vec<(u32, u32)>, AllocError>
    ensures { IfOk result (λ ids. ids.items ≡ map (ids_of tracks.now) joined.now) }
{
    joined
        .iter()
        .map(|pair| (tracks.id_on(pair.low), tracks.id_on(pair.high)))
        .collect(alloc)
}
