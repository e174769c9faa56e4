//! Marks of tracks by their ids, which are all taken away at once: each mark is the number of the round in which it was made.

ghost use Rattle.greedy_router.specs.Marks.{is_marked};
ghost use Rattle.greedy_router.specs.SweepWiring.{is_of};
ghost use Rattle.std.specs.List.{list_any};
ghost use Rattle.std.specs.Prelude.{◌≡◌, ◌==◌, ◌<◌, ◌≤◌, ◌+◌, ◌^◌, ◌||◌, ℕ, IfOk, false, length, slice_index};

use crate::tables::{entry, put};
use std::alloc::{AllocError, Global};

// For each id below a bound the round in which it was last marked, and the round that goes on.
#[derive(Drop)]
pub(crate) struct Marks {
    pub(crate) rounds: Vec<u32>,
    pub(crate) round: u32,
    ghost past: { (id : ℕ) → slice_index rounds.items id ≤ round },
}

impl Marks {
    // Marks for the ids below `room`, before the first round.
    pub(crate) fn new(alloc: Global, room: usize) -> Result<Marks, AllocError>
        ensures long { IfOk result (λ marks. length marks.rounds.items ≡ room) }
        ensures round { IfOk result (λ marks. marks.round ≡ 0) }
    {
        Ok(Marks {
            rounds: vec![in alloc; 0; room]?,
            round: 0,
        })
    }

    // Begins a round, in which no id is marked yet.
    pub(crate) fn begin(&mut self)
        requires { self.old.round + 1 < 2 ^ 32 }
        ensures none { (id : ℕ) → is_marked self.new.rounds.items self.new.round id ≡ false }
        ensures round { self.new.round ≡ self.old.round + 1 }
        ensures long { length self.new.rounds.items ≡ length self.old.rounds.items }
    {
        self.round += 1;
    }

    // Whether an id is marked.
    pub(crate) fn has(&self, id: u32) -> bool
        ensures { result ≡ is_marked self.now.rounds.items self.now.round id }
    {
        entry(&self.rounds, id) == self.round
    }

    // Marks an id, where there is room for it.
    fn add(&mut self, id: u32)
        ensures marked { (other : ℕ) → other < length self.old.rounds.items → is_marked self.new.rounds.items self.new.round other ≡ (is_marked self.old.rounds.items self.old.round other || id == other) }
        ensures round { self.new.round ≡ self.old.round }
        ensures long { length self.new.rounds.items ≡ length self.old.rounds.items }
    {
        put(&mut self.rounds, id, self.round);
    }

    // Marks these ids.
    pub(crate) fn add_all(&mut self, ids: &[u32])
        ensures marked { (other : ℕ) → other < length self.old.rounds.items
            → is_marked self.new.rounds.items self.new.round other ≡ (is_marked self.old.rounds.items self.old.round other || list_any (λ one. one == other) ids.now) }
        ensures round { self.new.round ≡ self.old.round }
        ensures long { length self.new.rounds.items ≡ length self.old.rounds.items }
    {
        let mut rest = ids;
        while let Some((id, later)) = rest.split_first() {
            self.add(*id);
            rest = later;
        }
    }

    // Marks the first ids of these pairs.
    pub(crate) fn add_firsts(&mut self, pairs: &[(u32, u32)])
        ensures marked { (other : ℕ) → other < length self.old.rounds.items
            → is_marked self.new.rounds.items self.new.round other ≡ (is_marked self.old.rounds.items self.old.round other || list_any (λ (pair : ℕ × ℕ). pair.0 == other) pairs.now) }
        ensures round { self.new.round ≡ self.old.round }
        ensures long { length self.new.rounds.items ≡ length self.old.rounds.items }
    {
        let mut rest = pairs;
        while let Some((pair, later)) = rest.split_first() {
            self.add(pair.0);
            rest = later;
        }
    }

    // Marks both ids of these pairs.
    pub(crate) fn add_both(&mut self, pairs: &[(u32, u32)])
        ensures marked { (other : ℕ) → other < length self.old.rounds.items
            → is_marked self.new.rounds.items self.new.round other ≡ (is_marked self.old.rounds.items self.old.round other || list_any (is_of other) pairs.now) }
        ensures round { self.new.round ≡ self.old.round }
        ensures long { length self.new.rounds.items ≡ length self.old.rounds.items }
    {
        let mut rest = pairs;
        while let Some((pair, later)) = rest.split_first() {
            self.add(pair.0);
            self.add(pair.1);
            rest = later;
        }
    }
}
