//! Long channels.

ghost use Rattle.std.specs.Prelude.{◌<◌};

use channel_model::Channel;
use left_edge::{Edge, left_edge};
use std::alloc::{AllocError, Global};
use std::test::Fail;

// A channel with two pins of one net in each column. It is made of blocks, each with the columns of so many nets, and then with those of the
// same nets again.
fn blocks(alloc: Global, columns: u32, nets: u32) -> Result<Channel, Fail>
    requires some { 0 < nets }
    requires few { nets < 100000 }
{
    let mut bottom = Vec::new(alloc);
    for column in 0..columns {
        bottom.push(1 + column / nets / 2 * nets + column % nets)?;
    }
    Ok(doubled(alloc, bottom)?.ok_or("a channel")?)
}

// The channel with these pins along both edges, or none where they are too many.
fn doubled(alloc: Global, bottom: Vec<u32>) -> Result<Option<Channel>, AllocError> {
    if bottom.len() > 4_000_000 {
        return Ok(None);
    }
    let top = bottom.to_vec(alloc)?;
    Ok(Some(Channel::from_paired(top, bottom)))
}

// Whether a wiring has so many tracks, all of which are needed in this column.
fn is_full(edge: &Edge, tracks: u32, column: u32) -> bool {
    let full = edge.column == column && edge.nets.items().len() == tracks as usize;
    full && edge.wiring.tracks == tracks
}

#[test]
fn the_blocks_of_a_long_channel_share_tracks(rt: HostRuntime) -> Result<(), Fail> {
    let channel = blocks(rt.alloc(), 100_000, 500)?;
    let edge = left_edge(rt.alloc(), &channel)?;
    assert!(rt; is_full(&edge, 500, 499));
    Ok(())
}

#[test]
fn all_nets_of_a_long_block_have_tracks(rt: HostRuntime) -> Result<(), Fail> {
    let channel = blocks(rt.alloc(), 100_000, 50_000)?;
    let edge = left_edge(rt.alloc(), &channel)?;
    assert!(rt; is_full(&edge, 50_000, 49_999));
    Ok(())
}
