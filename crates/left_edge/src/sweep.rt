//! Gives each net the lowest track that is free in its first column, from left to right.

ghost use Rattle.left_edge.specs.Swept.{IsSwept};
ghost use Rattle.left_edge.specs.Tracks.{level_of, track_count};
ghost use Rattle.std.specs.BTreeSet.{contains};
ghost use Rattle.std.specs.Ordering.{nat_cmp};
ghost use Rattle.std.specs.Prelude.{◌≡◌, ◌<◌, ◌^◌, ◌+◌, ◌==◌, ◌&&◌, ◌||◌, not, Bool, false, if◌then◌else◌, ℕ, IfOk, OnOk, length, map, slice_index};

use crate::columns::net_place;
use crate::free::Spanned;
use crate::spans::{is_begin, is_end};
use std::alloc::{AllocError, Global};
use std::collections::BTreeSet;

/// How many tracks there are, and how many of them lie below that of each net, by place.
#[derive(Drop)]
pub(crate) struct Levels {
    pub(crate) count: u32,
    pub(crate) of_nets: Vec<u32>,
}

// The tracks as the sweep comes to a column: how many there are, which of them are free, and those of the nets that have begun. A track is
// told by how many lie below it.
#[derive(Drop)]
struct TracksSoFar {
    count: u32,
    free: BTreeSet<u32>,
    levels: Vec<u32>,
}

impl TracksSoFar {
    // Takes the lowest free track, or adds one on top.
    fn take_lowest(&mut self) -> u32
        requires { self.old.count + 1 < 2 ^ 32 }
        ensures lowest { (level : ℕ) → level < result → contains nat_cmp self.old.free level ≡ false }
        ensures full { contains nat_cmp self.old.free result ≡ false → (result ≡ self.old.count) × ((level : ℕ) → contains nat_cmp self.old.free level ≡ false) }
        ensures count { self.new.count ≡ (if contains nat_cmp self.old.free result then self.old.count else self.old.count + 1) }
        ensures free { (level : ℕ) → contains nat_cmp self.new.free level ≡ (contains nat_cmp self.old.free level && not (level == result)) }
        ensures levels { self.new.levels.items ≡ self.old.levels.items }
    {
        match self.free.pop_first() {
            Some(level) => level,
            None => {
                let level = self.count;
                self.count += 1;
                level
            }
        }
    }

    // The track of a net that has begun, by its place.
    fn level(&self, place: usize) -> u32
        requires { place < length self.now.levels.items }
        ensures { result ≡ slice_index self.now.levels.items place }
    {
        self.levels[place]
    }

    // Frees a track.
    fn release(&mut self, level: u32) -> Result<(), AllocError>
        ensures free { OnOk result ((other : ℕ) → contains nat_cmp self.new.free other ≡ (other == level || contains nat_cmp self.old.free other)) }
        ensures count { OnOk result (self.new.count ≡ self.old.count) }
        ensures levels { OnOk result (self.new.levels.items ≡ self.old.levels.items) }
    {
        self.free.insert(level)?;
        Ok(())
    }

    // Gives a track to the net that begins in this column, if one does.
    fn enter(&mut self, spanned: &Spanned, column: usize)
        requires within { column < length spanned.now.channel.now.top }
        requires swept { IsSwept spanned.now.channel.now column column self.old }
        ensures { IsSwept spanned.now.channel.now (column + 1) column self.new }
    {
        if !is_begin(spanned, column) {
            return;
        }
        let level = self.take_lowest();
        self.levels[net_place(spanned, column)] = level;
    }

    // Frees the track of the net that ends in this column, if one does.
    fn leave(&mut self, spanned: &Spanned, column: usize) -> Result<(), AllocError>
        requires within { column < length spanned.now.channel.now.top }
        requires swept { IsSwept spanned.now.channel.now (column + 1) column self.old }
        ensures { OnOk result (IsSwept spanned.now.channel.now (column + 1) (column + 1) self.new) }
    {
        if !is_end(spanned, column) {
            return Ok(());
        }
        let level = self.level(net_place(spanned, column));
        self.release(level)
    }
}

/// Gives each net the lowest track that is free in its first column, in O(W log N) time for W columns and N nets.
pub(crate) fn sweep_columns(alloc: Global, spanned: &Spanned) -> Result<Levels, AllocError>
    ensures count { IfOk result (λ levels. levels.count ≡ track_count spanned.now.channel.now) }
    ensures levels { IfOk result (λ levels. levels.of_nets.items ≡ map (level_of spanned.now.channel.now) spanned.now.nets.now) }
{
    let channel = spanned.channel;
    let mut sweep = TracksSoFar {
        count: 0,
        free: BTreeSet::new(alloc),
        levels: vec![in alloc; 0u32; spanned.nets.len()]?,
    };
    for column in 0..channel.top.items().len() {
        sweep.enter(spanned, column);
        sweep.leave(spanned, column)?;
    }
    Ok(Levels {
        count: sweep.count,
        of_nets: sweep.levels,
    })
}
