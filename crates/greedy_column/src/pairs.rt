//! Two neighbouring tracks of a net as a pair: which pairs verticals join, and which may still be joined.

ghost use Rattle.greedy_column.specs.Desk.{HaveNetsTo, IsBelow, noted};
ghost use Rattle.greedy_column.specs.Ending.{joined_pairs};
ghost use Rattle.greedy_column.specs.Joining.{ArePairs, neighbours, pair_of, possible_joins};
ghost use Rattle.std.specs.Prelude.{◌≡◌, ◌<◌, ◌+◌, ◌^◌, ◌++◌, ℕ, IfOk, OnOk, length};

use crate::column::Track;
use crate::desk::Desk;
use crate::span::Span;
use crate::table::reach;
use crate::tracks::Tracks;
use std::alloc::{AllocError, Global};
use std::marker::Model;

// Pairs of tracks of one net, each as the piece between them.
#[derive(Drop)]
pub(crate) struct Pairs {
    list: Vec<Span>,
}

impl Model for Pairs {
    ghost use Rattle.greedy_column.specs.Joining.{ArePairs};
    ghost use Rattle.greedy_column.specs.declared.span.Span.{Span};
    ghost use Rattle.std.specs.Prelude.{List};

    ghost Value = { List Span };

    ghost view = { λ pairs. pairs.list.items };

    ghost invariant = { λ pairs. ArePairs pairs.list.items };
}

// Tracks with all two neighbouring ones of a net.
#[derive(Drop)]
pub(crate) struct Paired<'a> {
    pub(crate) tracks: &'a Tracks,
    pub(crate) pairs: Pairs,
    ghost neighbours: { pairs ≡ neighbours tracks.now },
}

impl Tracks {
    // These tracks with their neighbours.
    pub(crate) fn paired(&self, alloc: Global, desk: &mut Desk) -> Result<Paired<'_>, AllocError>
        ensures { IfOk result (λ paired. paired.tracks.now ≡ self.now) }
    {
        let pairs = desk.neighbours(alloc, self)?;
        Ok(Paired {
            tracks: self,
            pairs,
        })
    }
}

impl Pairs {
    // Lends the pairs.
    pub(crate) fn list(&self) -> &[Span]
        ensures list { result.now ≡ self.now }
        ensures are { ArePairs self.now }
    {
        self.list.as_slice()
    }

    // Those that verticals join.
    pub(crate) fn joined(&self, alloc: Global, spans: &[Span]) -> Result<Pairs, AllocError>
        ensures { IfOk result (λ joined. joined ≡ joined_pairs spans.now self.now) }
    {
        let pairs = self.list.iter().copied();
        let list = pairs.filter(|pair| pair.is_joined(spans)).collect(alloc)?;
        Ok(Pairs { list })
    }

    // Those that may be joined.
    pub(crate) fn possible_joins(&self, alloc: Global, spans: &[Span]) -> Result<Pairs, AllocError>
        ensures { IfOk result (λ joins. joins ≡ possible_joins spans.now self.now) }
    {
        let pairs = self.list.iter().copied();
        let list = pairs
            .filter(|pair| !pair.is_joined(spans) && pair.is_clear(spans))
            .collect(alloc)?;
        Ok(Pairs { list })
    }
}

// All two neighbouring tracks of a net, by ascending lower track: a table without entries above a base is made long enough for their nets, and
// comes to tell by net, above it, the lowest line.
pub(crate) fn neighbours_by(
    alloc: Global,
    tracks: &Tracks,
    above: &mut Vec<u32>,
    base: u32,
) -> Result<Pairs, AllocError>
    requires below { IsBelow base above.old.items }
    requires few { base + length tracks.now < 2 ^ 32 }
    ensures pairs { IfOk result (λ pairs. pairs ≡ neighbours tracks.now) }
    ensures below { IsBelow (base + length tracks.now) above.new.items }
{
    let all = tracks.list();
    reach(above, greatest_net(all), 0)?;
    let list = neighbours_in(alloc, all, above, base)?;
    Ok(Pairs { list })
}

// The greatest net of some tracks, 0 where none is held.
fn greatest_net(tracks: &[Track]) -> u32
    ensures { HaveNetsTo tracks.now result }
{
    let mut most = 0u32;
    for track in tracks {
        most = most.max(track.net);
    }
    most
}

// The same pairs, from the top down, by a table that has an entry for each of the nets.
#[inline(never)]
fn neighbours_in(
    alloc: Global,
    all: &[Track],
    above: &mut [u32],
    base: u32,
) -> Result<Vec<Span>, AllocError>
    requires below { IsBelow base above.old }
    requires few { base + length all.now < 2 ^ 32 }
    requires long { (most : ℕ) × (HaveNetsTo all.now most × (most < length above.old)) }
    ensures pairs { IfOk result (λ list. list.items ≡ neighbours all.now) }
    ensures below { IsBelow (base + length all.now) above.new }
{
    let mut list = Vec::with_capacity(alloc, all.len().min(32))?;
    let mut place = all.len();
    while place > 0 {
        let line = place as u32;
        place -= 1;
        let net = all[place].net;
        if net == 0 {
            continue;
        }
        push_pair(&mut list, net, line, noted(base, above[net as usize]))?;
        above[net as usize] = base + line;
    }
    list.reverse();
    Ok(list)
}

// The line that an entry tells above a base, none where it does not lie above it.
fn noted(base: u32, entry: u32) -> Option<u32>
    ensures { result ≡ noted base entry }
{
    if entry <= base {
        None
    } else {
        Some(entry - base)
    }
}

// Adds a track of a net and the next one above it, where there is one.
fn push_pair(
    pairs: &mut Vec<Span>,
    net: u32,
    line: u32,
    above: Option<u32>,
) -> Result<(), AllocError>
    ensures { OnOk result (pairs.new.items ≡ pairs.old.items ++ pair_of net line above) }
{
    let Some(above) = above else {
        return Ok(());
    };
    if net == 0 {
        return Ok(());
    }
    pairs.push(Span {
        net,
        low: line,
        high: above,
    })?;
    Ok(())
}
