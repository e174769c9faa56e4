//! The tables by the ids of tracks that the wiring of a sweep uses again in each column.

ghost use Rattle.greedy_router.specs.Marks.{is_marked};
ghost use Rattle.greedy_router.specs.SweepWiring.{leaves};
ghost use Rattle.greedy_router.specs.Tables.{has_end};
ghost use Rattle.greedy_router.specs.Turns.{entered_by, left_by, since_entered, since_moved};
ghost use Rattle.std.specs.Prelude.{◌≡◌, ◌<◌, ◌+◌, ◌^◌, ℕ, IfOk, length, replicate, slice_set};

use crate::marks::Marks;
use crate::tables::{carry_all, entry, free_all, note_moves, put};
use greedy_column::Column;
use std::alloc::{AllocError, Global};

// By the ids of tracks: the nets that hold them and those that hold them later, as they are told, since which column they are held, which of
// them are left in a column, and on which of them its joins and moves end.
#[derive(Drop)]
pub(crate) struct ById {
    pub(crate) nets: Vec<u32>,
    pub(crate) laters: Vec<u32>,
    pub(crate) since: Vec<u32>,
    pub(crate) lefts: Marks,
    pub(crate) ends: Marks,
}

impl ById {
    // Tables of 0 for the ids below `room`, and no marks.
    pub(crate) fn new(alloc: Global, room: usize) -> Result<ById, AllocError>
        ensures nets { IfOk result (λ by_id. by_id.nets.items ≡ replicate room 0) }
        ensures laters { IfOk result (λ by_id. by_id.laters.items ≡ replicate room 0) }
        ensures since { IfOk result (λ by_id. by_id.since.items ≡ replicate room 0) }
        ensures lefts { IfOk result (λ by_id. length by_id.lefts.rounds.items ≡ room) }
        ensures ends { IfOk result (λ by_id. length by_id.ends.rounds.items ≡ room) }
        ensures lefts_round { IfOk result (λ by_id. by_id.lefts.round ≡ 0) }
        ensures ends_round { IfOk result (λ by_id. by_id.ends.round ≡ 0) }
    {
        Ok(ById {
            nets: vec![in alloc; 0; room]?,
            laters: vec![in alloc; 0; room]?,
            since: vec![in alloc; 0; room]?,
            lefts: Marks::new(alloc, room)?,
            ends: Marks::new(alloc, room)?,
        })
    }

    // A net enters a track in a column, which is noted where the track was free.
    fn enter(&mut self, column: u32, id: u32, net: u32)
        ensures nets { self.new.nets.items ≡ slice_set self.old.nets.items id net }
        ensures laters { self.new.laters.items ≡ slice_set self.old.laters.items id net }
        ensures since { self.new.since.items ≡ since_entered column self.old.nets.items id self.old.since.items }
        ensures lefts { self.new.lefts ≡ self.old.lefts }
        ensures ends { self.new.ends ≡ self.old.ends }
    {
        if entry(&self.nets, id) == 0 {
            put(&mut self.since, id, column);
        }
        put(&mut self.nets, id, net);
        put(&mut self.laters, id, net);
    }

    // The nets of a column's pins enter their tracks.
    pub(crate) fn enter_pins(&mut self, column: u32, done: &Column, top: u32, bottom: u32)
        ensures nets { self.new.nets.items ≡ entered_by done.now top bottom self.old.nets.items }
        ensures laters { self.new.laters.items ≡ entered_by done.now top bottom self.old.laters.items }
        ensures since { self.new.since.items ≡ since_entered column (slice_set self.old.nets.items done.now.bottom bottom) done.now.top
            (since_entered column self.old.nets.items done.now.bottom self.old.since.items) }
        ensures lefts { self.new.lefts ≡ self.old.lefts }
        ensures ends { self.new.ends ≡ self.old.ends }
    {
        self.enter(column, done.bottom, bottom);
        self.enter(column, done.top, top);
    }

    // Notes which nets hold tracks after a column.
    pub(crate) fn leave(&mut self, done: &Column)
        ensures nets { self.new.nets.items ≡ self.old.nets.items }
        ensures laters { self.new.laters.items ≡ left_by done.now self.old.laters.items }
        ensures since { self.new.since.items ≡ self.old.since.items }
        ensures lefts { self.new.lefts ≡ self.old.lefts }
        ensures ends { self.new.ends ≡ self.old.ends }
    {
        free_all(&mut self.laters, done.ended.items());
        carry_all(&mut self.laters, done.moves.items());
    }

    // Goes on behind a column: tells the nets as they are after it, and notes it for the tracks to which nets moved.
    pub(crate) fn pass(&mut self, column: u32, done: &Column)
        ensures nets { self.new.nets.items ≡ left_by done.now self.old.nets.items }
        ensures laters { self.new.laters.items ≡ self.old.laters.items }
        ensures since { self.new.since.items ≡ since_moved column done.now.moves self.old.since.items }
        ensures lefts { self.new.lefts ≡ self.old.lefts }
        ensures ends { self.new.ends ≡ self.old.ends }
    {
        free_all(&mut self.nets, done.ended.items());
        carry_all(&mut self.nets, done.moves.items());
        note_moves(&mut self.since, done.moves.items(), column);
    }

    // Marks the tracks that are left in a column, and those on which its joins and moves end.
    pub(crate) fn mark(&mut self, done: &Column)
        requires few_lefts { self.old.lefts.round + 1 < 2 ^ 32 }
        requires few_ends { self.old.ends.round + 1 < 2 ^ 32 }
        ensures lefts { (id : ℕ) → id < length self.old.lefts.rounds.items → is_marked self.new.lefts.rounds.items self.new.lefts.round id ≡ leaves done.now id }
        ensures ends { (id : ℕ) → id < length self.old.ends.rounds.items → is_marked self.new.ends.rounds.items self.new.ends.round id ≡ has_end done.now id }
        ensures lefts_long { length self.new.lefts.rounds.items ≡ length self.old.lefts.rounds.items }
        ensures ends_long { length self.new.ends.rounds.items ≡ length self.old.ends.rounds.items }
        ensures lefts_round { self.new.lefts.round ≡ self.old.lefts.round + 1 }
        ensures ends_round { self.new.ends.round ≡ self.old.ends.round + 1 }
        ensures nets { self.new.nets.items ≡ self.old.nets.items }
        ensures laters { self.new.laters.items ≡ self.old.laters.items }
        ensures since { self.new.since.items ≡ self.old.since.items }
    {
        self.lefts.begin();
        self.lefts.add_all(done.ended.items());
        self.lefts.add_firsts(done.moves.items());
        self.ends.begin();
        self.ends.add_both(done.joins.items());
        self.ends.add_both(done.moves.items());
    }
}
