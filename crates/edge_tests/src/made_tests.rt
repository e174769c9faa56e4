//! Channels made from numbers.

ghost use Rattle.std.specs.Prelude.{◌<◌, ◌≡◌, length};

use crate::small_tests::edge_of;
use std::alloc::{AllocError, Global};
use std::test::Fail;

// The pins of a channel, and the next number to make one from.
#[derive(Drop)]
struct Made {
    top: Vec<u32>,
    bottom: Vec<u32>,
    next: u32,
}

// The number after a number, and its upper half below a bound.
fn after(number: u32) -> u32 {
    number.wrapping_mul(1_664_525).wrapping_add(1_013_904_223)
}

fn below(number: u32, bound: u32) -> u32
    requires { 0 < bound }
{
    number / 65536 % bound
}

// Columns of one net of so many each, or of none, with a pin at the top, at the bottom or at both.
fn columns_of(alloc: Global, columns: u32, nets: u32, start: u32) -> Result<Made, AllocError>
    requires { nets < 1000 }
{
    let mut top = Vec::new(alloc);
    let mut bottom = Vec::new(alloc);
    let mut next = start;
    for _ in 0..columns {
        next = after(next);
        let net = below(next, nets + 1);
        next = after(next);
        let edge = below(next, 3);
        top.push(if edge == 1 { 0 } else { net })?;
        bottom.push(if edge == 0 { 0 } else { net })?;
    }
    Ok(Made { top, bottom, next })
}

// Whether a net has one pin alone.
fn is_lone(top: &[u32], bottom: &[u32], net: u32) -> bool {
    let above = top.iter().filter(|n| **n == net).count();
    let below = bottom.iter().filter(|n| **n == net).count();
    above == 0 && below == 1 || above == 1 && below == 0
}

// The pins along one edge, with one more across from each lone pin of the other.
fn paired(alloc: Global, side: &[u32], other: &[u32]) -> Result<Vec<u32>, AllocError> {
    let mut pins = Vec::new(alloc);
    for (near, far) in side.iter().zip(other) {
        pins.push(if is_lone(side, other, *far) {
            *far
        } else {
            *near
        })?;
    }
    Ok(pins)
}

// How many nets have a pin up to this column, and one from it on.
fn over(top: &[u32], bottom: &[u32], nets: u32, column: usize) -> u32
    requires within { column < length top.now }
    requires same { length top.now ≡ length bottom.now }
    requires few { nets < 1000 }
{
    let mut count = 0u32;
    for net in 1..=nets {
        let left = top[..=column].contains(&net) || bottom[..=column].contains(&net);
        let right = top[column..].contains(&net) || bottom[column..].contains(&net);
        if left && right {
            count = count.saturating_add(1);
        }
    }
    count
}

// The greatest such number.
fn counted(top: &[u32], bottom: &[u32], nets: u32) -> u32
    requires same { length top.now ≡ length bottom.now }
    requires few { nets < 1000 }
{
    let mut most = 0;
    for column in 0..top.len() {
        most = most.max(over(top, bottom, nets, column));
    }
    most
}

// The tracks of 200 channels of 5 to 44 columns and 1 to 12 nets, or 0 where one has not as many as are counted.
fn tracks_of_all(alloc: Global) -> Result<u32, Fail> {
    let mut all = 0u32;
    let mut next = 1;
    for round in 0..200u32 {
        let nets = 1 + round % 12;
        let made = columns_of(alloc, 5 + round % 40, nets, next)?;
        next = made.next;
        let top = paired(alloc, &made.top, &made.bottom)?;
        let bottom = paired(alloc, &made.bottom, &made.top)?;
        let edge = edge_of(alloc, &top, &bottom)?;
        if top.len() != bottom.len() || edge.wiring.tracks != counted(&top, &bottom, nets) {
            return Ok(0);
        }
        all = all.saturating_add(edge.wiring.tracks);
    }
    Ok(all)
}

#[test]
fn channels_have_as_many_tracks_as_nets_over_a_column(rt: HostRuntime) -> Result<(), Fail> {
    assert!(rt; tracks_of_all(rt.alloc())? == 816);
    Ok(())
}
