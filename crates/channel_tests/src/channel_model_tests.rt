//! Channels, their nets, and their density.

use channel_model::{Channel, Reach, cut_density, density, nets_of, place_of, reaches};
use std::alloc::{AllocError, Global};
use std::test::Fail;

/// A channel of 4,000 columns and 1,500 nets.
pub(crate) fn long_channel(alloc: Global) -> Result<Channel, Fail> {
    let mut top = Vec::new(alloc);
    let mut bottom = Vec::new(alloc);
    for column in 0..4000u32 {
        top.push(1 + column % 1500)?;
        bottom.push(1 + column / 2 % 1500)?;
    }
    Ok(Channel::new(top, bottom).ok_or("a channel")?)
}

/// A channel with these pins, or None where they make none.
pub(crate) fn channel_of(
    alloc: Global,
    top: &[u32],
    bottom: &[u32],
) -> Result<Option<Channel>, AllocError> {
    let top = top.to_vec(alloc)?;
    Ok(Channel::new(top, bottom.to_vec(alloc)?))
}

/// Whether these pins make a channel, and it keeps them.
fn is_kept(alloc: Global, top: &[u32], bottom: &[u32]) -> bool {
    match channel_of(alloc, top, bottom) {
        Ok(Some(channel)) => channel.top.items() == top && channel.bottom.items() == bottom,
        _ => false,
    }
}

/// Whether these pins make no channel.
fn is_none(alloc: Global, top: &[u32], bottom: &[u32]) -> bool {
    match channel_of(alloc, top, bottom) {
        Ok(channel) => channel.is_none(),
        Err(_) => false,
    }
}

/// The pins at an upper and at a lower edge.
type Edges = (&'static [u32], &'static [u32]);

/// Edges that make a channel, and edges that make none, as they differ in length or a pin is alone.
const KEPT: [Edges; 5] = [
    (&[], &[]),
    (&[0, 0], &[0, 0]),
    (&[2, 1], &[1, 2]),
    (&[7], &[7]),
    (&[0, 0, 3], &[0, 0, 3]),
];

const REFUSED: [Edges; 3] = [
    (&[2, 1], &[1, 2, 0]),
    (&[5, 1], &[1, 0]),
    (&[0, 0], &[0, 4]),
];

#[test]
fn a_channel_has_equal_edges_and_no_lone_pin(rt: HostRuntime) {
    for (i, (top, bottom)) in KEPT.iter().enumerate() {
        assert!(rt; is_kept(rt.alloc(), top, bottom), "kept {i}");
    }
    for (i, (top, bottom)) in REFUSED.iter().enumerate() {
        assert!(rt; is_none(rt.alloc(), top, bottom), "refused {i}");
    }
}

/// Whether the channel with these pins has these nets.
fn has_nets(alloc: Global, top: &[u32], bottom: &[u32], nets: &[u32]) -> Result<bool, AllocError> {
    match channel_of(alloc, top, bottom)? {
        Some(channel) => are_nets(alloc, &channel, nets),
        None => Ok(false),
    }
}

fn are_nets(alloc: Global, channel: &Channel, nets: &[u32]) -> Result<bool, AllocError> {
    Ok(nets_of(alloc, channel)?.as_slice() == nets)
}

/// Whether the middle one of three nets has no pin, and the others reach from their first pin to their last.
fn have_reaches(alloc: Global) -> Result<bool, AllocError> {
    let found = reaches(alloc, &[0, 4, 8, 4, 0], &[4, 6, 8])?;
    let (first, last) = (1, 3);
    Ok(
        found[0] == Some(Reach { first, last })
            && found[1].is_none()
            && found[2] == Some(Reach { first: 2, last: 2 }),
    )
}

#[test]
fn nets_stand_in_number_order_and_reach_from_pin_to_pin(rt: HostRuntime) -> Result<(), Fail> {
    let alloc = rt.alloc();
    assert!(rt; has_nets(alloc, &[9, 0, 3, 5], &[3, 5, 9, 0], &[3, 5, 9])?);
    assert!(rt; place_of(&[3, 5, 9], 5) == 1);
    assert!(rt; have_reaches(alloc)?);
    Ok(())
}

/// Edges of a channel, how many nets stand over a column of it at most, and how many cross from a column to the next at most.
struct Counted {
    edges: Edges,
    density: u32,
    cut: u32,
}

const COUNTED: [Counted; 6] = [
    Counted {
        edges: (&[], &[]),
        density: 0,
        cut: 0,
    },
    Counted {
        edges: (&[0, 0], &[0, 0]),
        density: 0,
        cut: 0,
    },
    Counted {
        edges: (&[2, 1], &[1, 2]),
        density: 2,
        cut: 2,
    },
    Counted {
        edges: (&[0, 0, 0, 0], &[1, 1, 2, 2]),
        density: 1,
        cut: 1,
    },
    // One net ends where the other begins.
    Counted {
        edges: (&[1, 1, 0], &[0, 2, 2]),
        density: 2,
        cut: 1,
    },
    // Nets within a column cross none.
    Counted {
        edges: (&[1, 2, 3, 0], &[1, 2, 3, 0]),
        density: 1,
        cut: 0,
    },
];

/// Whether a channel has the density and the cut density of a case.
fn are_counts(alloc: Global, channel: &Channel, case: &Counted) -> Result<bool, AllocError> {
    Ok(density(alloc, channel)? == case.density && cut_density(alloc, channel)? == case.cut)
}

/// Whether the channel of a case does.
fn is_counted(alloc: Global, case: &Counted) -> Result<bool, AllocError> {
    match channel_of(alloc, case.edges.0, case.edges.1)? {
        Some(channel) => are_counts(alloc, &channel, case),
        None => Ok(false),
    }
}

#[test]
fn densities_count_the_nets_over_a_column_and_from_it_to_the_next(
    rt: HostRuntime,
) -> Result<(), Fail> {
    for (i, case) in COUNTED.iter().enumerate() {
        assert!(rt; is_counted(rt.alloc(), case)?, "case {i}");
    }
    Ok(())
}

// That of a long channel comes at once.
#[test]
fn the_density_of_a_long_channel(rt: HostRuntime) -> Result<(), Fail> {
    let channel = long_channel(rt.alloc())?;
    assert!(rt; density(rt.alloc(), &channel) == Ok(1500));
    Ok(())
}
