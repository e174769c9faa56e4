//! Where a new track goes in: near the middle of the channel, or near the next pins of its net.

ghost use Rattle.greedy_column.specs.Entering.{any_place, place_for};
ghost use Rattle.greedy_column.specs.Places.{place_ahead, place_by_edge, place_by_next, place_of_new};
ghost use Rattle.std.specs.Prelude.{◌≡◌, ◌<◌, ◌≤◌, ◌+◌, ◌^◌, length};

use crate::entering::{ChannelEdge, EnteringPin};
use crate::tracks::Tracks;
use choose_core::{Manner, Next};

// Of the places from `least` to `most` the one nearest to an edge.
fn place_by_edge(edge: ChannelEdge, least: u32, most: u32) -> u32
    ensures { result ≡ place_by_edge edge least most }
{
    match edge {
        ChannelEdge::Upper => most,
        ChannelEdge::Lower => least,
    }
}

// The one nearest to the next pins, or to this edge where these lie at no one edge.
fn place_by_next(next: Next, edge: ChannelEdge, least: u32, most: u32) -> u32
    ensures { result ≡ place_by_next next edge least most }
{
    match next {
        Next::Top => most,
        Next::Bottom => least,
        Next::Both | Next::Ends => place_by_edge(edge, least, most),
    }
}

// The same, by this edge alone where the net holds a track.
fn place_ahead(holds: bool, next: Next, edge: ChannelEdge, least: u32, most: u32) -> u32
    ensures { result ≡ place_ahead holds next edge least most }
{
    if holds {
        place_by_edge(edge, least, most)
    } else {
        place_by_next(next, edge, least, most)
    }
}

// How many of some tracks lie below a new one for a pin at an edge, which is to have at least and at most so many of them below it.
pub(crate) fn place_of_new(
    manner: Manner,
    holds: bool,
    next: Next,
    edge: ChannelEdge,
    tracks: u32,
    least: u32,
    most: u32,
) -> u32
    ensures { result ≡ place_of_new manner holds next edge tracks least most }
{
    match manner {
        Manner::Published => least.max(most.min(tracks / 2)),
        Manner::LookingAhead => place_ahead(holds, next, edge, least, most),
    }
}

// The same for a pin above or below these tracks.
pub(crate) fn place_for(
    manner: Manner,
    pin: EnteringPin,
    edge: ChannelEdge,
    before: &Tracks,
    least: u32,
    most: u32,
) -> u32
    ensures { result ≡ place_for manner pin edge before.now least most }
{
    let holds = before.holds(pin.net);
    let tracks = before.count();
    place_of_new(manner, holds, pin.next, edge, tracks, least, most)
}

// The same among all places.
pub(crate) fn any_place(manner: Manner, pin: EnteringPin, edge: ChannelEdge, before: &Tracks) -> u32
    ensures place { result ≡ any_place manner pin edge before.now }
    ensures within { result ≤ length before.now }
{
    place_for(manner, pin, edge, before, 0, before.count())
}
