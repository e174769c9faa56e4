//! Which nets get a feed in each row, and at which place among the cells of the row.

ghost use Rattle.feed_cells.specs.NetTables.{at_net};
ghost use Rattle.feed_cells.specs.RowFeeds.{is_at_place, is_fed_by, middle_at, nets_fed};
ghost use Rattle.list_facts.specs.Lists.{with_item};
ghost use Rattle.std.specs.List.Sorted.{IsNonDecreasingBy};
ghost use Rattle.std.specs.Option.{option_map};
ghost use Rattle.std.specs.Prelude.{◌≡◌, ◌<◌, ◌≤◌, ℕ, Some, filter, length, slice_get, IfOk, OnOk};

use crate::net_places::NetPlace;
use crate::placement::net_at;
use crate::places::place_among;
use limits::{MOST_INSTANCES, MOST_PINS};
use list_facts::Lists;
use std::alloc::{AllocError, Global};

/// The nets that cross each of so many rows by a feed, of nets that are numbered from 1 on. The one error is want of memory. Takes steps as the number of
/// nets, and of the rows that they cross.
pub(crate) fn feeds_by_row(
    alloc: Global,
    rows: usize,
    nets: &[NetPlace],
) -> Result<Lists<u32>, AllocError>
    requires few { length nets.now ≤ MOST_PINS }
    ensures { IfOk result (λ feeds. (row : ℕ) → row < rows → slice_get feeds row ≡ Some (nets_fed row 1 nets.now)) }
{
    let mut feeds = Lists::new(alloc, rows)?;
    let mut net = 1;
    let mut rest = nets;
    while let Some((place, after)) = rest.split_first() {
        feed_net(&mut feeds, net, place)?;
        net += 1;
        rest = after;
    }
    Ok(feeds)
}

// Puts a net into the rows that it crosses by a feed.
#[tactic(auto, using(std::proofs::lemmas::Bool::Decides::nat_tests))]
fn feed_net(feeds: &mut Lists<u32>, net: u32, place: &NetPlace) -> Result<(), AllocError>
    ensures { OnOk result ((row : ℕ) → slice_get feeds.new row ≡ option_map (with_item (is_fed_by place.now row) net) (slice_get feeds.old row)) }
{
    let (lo, hi) = place.crossing.rows();
    for row in lo..hi {
        if place.through_pin(row).is_none() {
            feeds.push(row as usize, net)?;
        }
    }
    Ok(())
}

/// The nets whose feeds stand in a row with these first columns, by their places from 0 to the number of its cells. The one error is want of memory.
pub(crate) fn feeds_by_place(
    alloc: Global,
    row: &[u32],
    nets: &[NetPlace],
    lefts: &[u64],
) -> Result<Lists<u32>, AllocError>
    requires rising { IsNonDecreasingBy (λ (left : ℕ). left) lefts.now }
    requires short { length lefts.now ≤ MOST_INSTANCES }
    ensures { IfOk result (λ feeds. (place : ℕ) → place ≤ length lefts.now → slice_get feeds place ≡ Some (filter (is_at_place nets.now lefts.now place) row.now)) }
{
    let mut feeds = Lists::new(alloc, lefts.len() + 1)?;
    let mut rest = row;
    while let Some((net, after)) = rest.split_first() {
        feeds.push(place_among(lefts, middle_at(nets, *net)), *net)?;
        rest = after;
    }
    Ok(feeds)
}

// The middle of a net.
fn middle_at(nets: &[NetPlace], net: u32) -> u64
    ensures { result ≡ middle_at (at_net nets.now net) }
{
    match net_at(nets, net) {
        Some(place) => place.middle,
        None => 0,
    }
}
