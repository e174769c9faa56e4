//! The nets that have pins in a channel, in number order, and the place of a net among them.

ghost use Rattle.channel_model.specs.Nets.{AreNets, nets_of, place_of};
ghost use Rattle.channel_model.specs.Pins.{is_pin};
ghost use Rattle.std.specs.List.Sorted.{IsStrictlyIncreasing};
ghost use Rattle.std.specs.Prelude.{◌≡◌, ◌<◌, ◌≤◌, ◌+◌, ◌*◌, ◌++◌, IfOk, Contains, filter, length, slice_index};

use crate::channel::Channel;
use std::alloc::{AllocError, Global};

/// The nets of a channel, each once, in number order, in O(W log W) time for W columns. The one error is want of memory.
pub fn nets_of(alloc: Global, channel: &Channel) -> Result<Vec<u32>, AllocError>
    ensures is { IfOk result (λ nets. nets.items ≡ nets_of channel.now) }
    ensures nets { IfOk result (λ nets. AreNets channel.now nets.items) }
    ensures few { IfOk result (λ nets. length nets.items ≤ 2 * length channel.now.top) }
{
    let mut nets = pin_nets(alloc, channel.top.items(), channel.bottom.items())?;
    nets.sort_unstable();
    nets.dedup();
    Ok(nets)
}

// The nets of the pins along both edges, pin by pin.
fn pin_nets(alloc: Global, top: &[u32], bottom: &[u32]) -> Result<Vec<u32>, AllocError>
    ensures nets { IfOk result (λ nets. nets.items ≡ filter is_pin (top.now ++ bottom.now)) }
    ensures few { IfOk result (λ nets. length nets.items ≤ length top.now + length bottom.now) }
{
    let pins = top.iter().chain(bottom).copied();
    pins.filter(|net| *net != 0).collect(alloc)
}

/// Where a net stands in a list of nets in number order, from 0 on. Takes no memory.
pub fn place_of(nets: &[u32], net: u32) -> usize
    requires ascending { IsStrictlyIncreasing nets.now }
    requires listed { Contains nets.now net }
    ensures place { result ≡ place_of nets.now net }
    ensures within { result < length nets.now }
    ensures there { slice_index nets.now result ≡ net }
{
    match nets.binary_search(&net) {
        Ok(place) => place,
        Err(_) => unreachable!(),
    }
}
