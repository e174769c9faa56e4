//! The tracks of a column, from the bottom up: the id and the net on each line, and the tracks that a net holds.

ghost use Rattle.greedy_column.specs.Lines.{AreTracks, holds_track, id_on, net_on, own_lines};
ghost use Rattle.greedy_column.specs.Moving.{carried, without};
ghost use Rattle.greedy_column.specs.Replay.{freed};
ghost use Rattle.greedy_column.specs.Tracks.{held_by, hold, ids, line_of};
ghost use Rattle.std.specs.List.{count_by};
ghost use Rattle.std.specs.Prelude.{◌≡◌, ◌==◌, ◌<◌, ◌≤◌, ◌+◌, [], true, ◌^◌, IfOk, if◌then◌else◌, length, map};

use crate::column::Track;
use crate::lines::line_of;
use std::alloc::{AllocError, Global};
use std::marker::Model;

// The tracks of a column from bottom to top, so few of them that each line and the upper edge have a number, with ids that are all
// different.
#[derive(Drop)]
pub(crate) struct Tracks {
    list: Vec<Track>,
}

impl Model for Tracks {
    ghost use Rattle.greedy_column.specs.Lines.{AreTracks};
    ghost use Rattle.greedy_column.specs.declared.column.Track.{Track};
    ghost use Rattle.std.specs.Prelude.{List};

    ghost Value = { List Track };

    ghost view = { λ tracks. tracks.list.items };

    ghost invariant = { λ tracks. AreTracks tracks.list.items };
}

// 1 where something is so, else 0.
fn one_where(is: bool) -> usize
    ensures { result ≡ (if is then 1 else 0) }
{
    if is { 1 } else { 0 }
}

impl Tracks {
    // These tracks.
    pub(crate) fn new(list: Vec<Track>) -> Tracks
        requires { AreTracks list.items }
        ensures { result ≡ list.items }
    {
        Tracks { list }
    }

    // Lends the tracks, from bottom to top.
    pub(crate) fn list(&self) -> &[Track]
        ensures list { result.now ≡ self.now }
        ensures few { length self.now + 2 < 2 ^ 32 }
    {
        self.list.as_slice()
    }

    // The tracks without their type.
    pub(crate) fn into_list(self) -> Vec<Track>
        ensures { result.items ≡ self }
    {
        self.list
    }

    // How many there are.
    pub(crate) fn count(&self) -> u32
        ensures count { result ≡ length self.now }
        ensures few { result + 2 < 2 ^ 32 }
    {
        self.list.len() as u32
    }

    // The line of the upper edge.
    pub(crate) fn upper_edge(&self) -> u32
        ensures { result ≡ length self.now + 1 }
    {
        self.count() + 1
    }

    // Whether a net holds a track.
    pub(crate) fn holds(&self, net: u32) -> bool
        ensures { result ≡ holds_track self.now net }
    {
        self.list().iter().any(|track| track.net == net)
    }

    // How many tracks a net holds.
    pub(crate) fn held(&self, net: u32) -> usize
        ensures { result ≡ count_by (λ t. t.net == net) self.now }
    {
        let mut held = 0usize;
        let mut rest = self.list();
        while let Some((track, above)) = rest.split_first() {
            held += one_where(track.net == net);
            rest = above;
        }
        held
    }

    // Whether the one track that a net holds is seen to be that on this line.
    pub(crate) fn holds_alone(&self, net: u32, line: u32) -> bool
        ensures { result ≡ true → without line (own_lines net self.now) ≡ [] }
    {
        if line == 0 {
            return false;
        }
        if net == 0 {
            return false;
        }
        if self.net_on(line) != net {
            return false;
        }
        self.held(net) == 1
    }

    // The id on a line, 0 where there is no track.
    pub(crate) fn id_on(&self, line: u32) -> u32
        ensures { result ≡ id_on self.now line }
    {
        match self.list().get((line as usize).saturating_sub(1)) {
            Some(track) => track.id,
            None => 0,
        }
    }

    // The net on a line, 0 where there is no track.
    pub(crate) fn net_on(&self, line: u32) -> u32
        ensures { result ≡ net_on self.now line }
    {
        match self.list().get((line as usize).saturating_sub(1)) {
            Some(track) => track.net,
            None => 0,
        }
    }

    // The tracks, of which those on these lines are freed.
    pub(crate) fn freed(&self, alloc: Global, lines: &[u32]) -> Result<Tracks, AllocError>
        ensures { IfOk result (λ kept. kept ≡ freed (map (id_on self.now) lines.now) self.now) }
    {
        let list = Vec::from_slice(alloc, &self.list)?;
        let mut kept = Tracks { list };
        kept.free(lines);
        Ok(kept)
    }

    // Frees the tracks on these lines.
    fn free(&mut self, lines: &[u32])
        ensures { self.new ≡ freed (map (id_on self.old) lines.now) self.old }
    {
        let mut rest = lines;
        while let Some((line, later)) = rest.split_first() {
            let _net = self.give(*line, 0);
            rest = later;
        }
    }

    // Gives the track of an id to a net, and tells its line; where none has this id, it does nothing and tells the upper edge.
    pub(crate) fn hold(&mut self, id: u32, net: u32) -> u32
        ensures held { self.new ≡ hold id net self.old }
        ensures line { result ≡ line_of (ids self.old) id }
    {
        let line = line_in(&self.list, id);
        let _before = self.give(line, net);
        line
    }

    // Gives the track on a line to a net, and tells the net that held it; where there is no track, it does nothing and tells 0.
    fn give(&mut self, line: u32, net: u32) -> u32
        ensures given { self.new ≡ hold (id_on self.old line) net self.old }
        ensures held { result ≡ held_by self.old (id_on self.old line) }
    {
        give(&mut self.list, line, net)
    }

    // Carries the net of the track on one line to that on another.
    pub(crate) fn carry(&mut self, from: u32, to: u32)
        ensures { self.new ≡ carried self.old self.old from to }
    {
        let net = self.give(from, 0);
        let _free = self.give(to, net);
    }
}

// The line of an id, the upper edge where no track has it.
fn line_in(tracks: &[Track], id: u32) -> u32
    requires { AreTracks tracks.now }
    ensures { result ≡ line_of (ids tracks.now) id }
{
    // No track has the id 0, which is told where a pin enters none.
    if id == 0 {
        return tracks.len() as u32 + 1;
    }
    line_of(tracks, id)
}

// The same over the list of the tracks.
fn give(tracks: &mut [Track], line: u32, net: u32) -> u32
    requires { AreTracks tracks.old }
    ensures given { tracks.new ≡ hold (id_on tracks.old line) net tracks.old }
    ensures held { result ≡ held_by tracks.old (id_on tracks.old line) }
{
    let place = (line as usize).saturating_sub(1);
    if place >= tracks.len() {
        return 0;
    }
    let held = tracks[place].net;
    tracks[place].net = net;
    held
}
