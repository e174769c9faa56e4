//! Channels made from numbers.

use channel_model::Channel;
use std::alloc::Global;
use std::test::Fail;

// The number after another one.
fn next_number(number: u32) -> u32 {
    number.wrapping_mul(1_103_515_245).wrapping_add(12_345)
}

// An edge with a net from 0 to `nets` for each column, and the number after those that it is made of.
fn edge_of(alloc: Global, number: u32, columns: u32, nets: u32) -> Result<(Vec<u32>, u32), Fail> {
    let mut edge = Vec::new(alloc);
    let mut number = number;
    for _ in 0..columns {
        number = next_number(number);
        edge.push((number / 65_536) % nets.max(1))?;
    }
    Ok((edge, number))
}

// Takes the pin from each net that has one alone.
fn without_single_pins(top: &mut [u32], bottom: &mut [u32], nets: u32) {
    for net in 1..nets {
        let above = top.iter().filter(|n| **n == net).count();
        let below = bottom.iter().filter(|n| **n == net).count();
        if above == 1 && below == 0 {
            clear(top, net);
        }
        if above == 0 && below == 1 {
            clear(bottom, net);
        }
    }
}

fn clear(side: &mut [u32], net: u32) {
    for pin in side.iter_mut() {
        if *pin == net {
            *pin = 0;
        }
    }
}

/// The channel made from a number.
pub(crate) fn made_channel(alloc: Global, number: u32) -> Result<Channel, Fail> {
    let columns = 2 + number % 9;
    let nets = 2 + number % 5;
    let (mut top, last) = edge_of(alloc, number, columns, nets)?;
    let (mut bottom, _) = edge_of(alloc, last, columns, nets)?;
    without_single_pins(&mut top, &mut bottom, nets);
    Ok(Channel::new(top, bottom).ok_or("a channel")?)
}
