//! A channel: for each column the nets of the pins at its upper and its lower edge.

ghost use Rattle.channel_model.specs.Pins.{IsChannel, are_matched, is_matched};
ghost use Rattle.std.specs.List.{list_all};
ghost use Rattle.std.specs.Prelude.{◌≡◌, ◌<◌, ◌+◌, ◌^◌, ◌↔◌, ◌==◌, IsSome, IfSome, length, count_by};

use geom_core::Items;
use limits::MOST_COLUMNS;
use std::marker::Model;

/// A channel between two rows: for each column the net of the pin at its upper edge and that of the pin at its lower edge,
/// 0 where there is none. Both lists have one length, at most 4,000,000, and no net has one pin alone.
#[derive(Debug, Drop)]
pub struct Channel {
    pub top: Items<u32>,
    pub bottom: Items<u32>,
}

impl Model for Channel {
    ghost use Rattle.channel_model.specs.Pins.{Pins};

    ghost Value = { Pins };

    ghost use Rattle.channel_model.specs.ChannelView.{pins_in, IsValid};

    ghost view = { pins_in };

    ghost invariant = { IsValid };
}

impl Channel {
    /// The channel with these pins. `None` exactly where the lengths differ, a length is above 4,000,000, or a net has one
    /// pin alone. Takes no memory, so that each pin's net is looked for anew, and the time is quadratic where a net's pins
    /// lie far apart; `from_paired` is for lists that are known to make a channel.
    pub fn new(top: Vec<u32>, bottom: Vec<u32>) -> Option<Channel>
        ensures valid { IsSome result ↔ IsChannel (record { top = top.items; bottom = bottom.items }) }
        ensures pins { IfSome result (λ channel. channel ≡ record { top = top.items; bottom = bottom.items }) }
    {
        if top.len() != bottom.len() || top.len() > MOST_COLUMNS {
            return None;
        }
        if !are_matched(&top, &bottom) {
            return None;
        }
        Some(Channel::from_paired(top, bottom))
    }

    /// The channel with these pins, which make one. Takes no memory and looks at no pin.
    pub fn from_paired(top: Vec<u32>, bottom: Vec<u32>) -> Channel
        requires { IsChannel (record { top = top.items; bottom = bottom.items }) }
        ensures { result ≡ record { top = top.items; bottom = bottom.items } }
    {
        Channel {
            top: Items::new(top),
            bottom: Items::new(bottom),
        }
    }
}

// Whether the net of each pin has other pins.
fn are_matched(top: &[u32], bottom: &[u32]) -> bool
    requires { length top.now + length bottom.now < 2 ^ 63 }
    ensures { result ≡ are_matched (record { top = top.now; bottom = bottom.now }) }
{
    are_matched_in(top, top, bottom) && are_matched_in(bottom, top, bottom)
}

// The same, for some of the pins.
fn are_matched_in(pins: &[u32], top: &[u32], bottom: &[u32]) -> bool
    requires { length top.now + length bottom.now < 2 ^ 63 }
    ensures { result ≡ list_all (is_matched (record { top = top.now; bottom = bottom.now })) pins.now }
{
    pins.iter().all(|&net| is_matched(top, bottom, net))
}

// Whether a pin's net is none, or has other pins.
fn is_matched(top: &[u32], bottom: &[u32], net: u32) -> bool
    requires { length top.now + length bottom.now < 2 ^ 63 }
    ensures { result ≡ is_matched (record { top = top.now; bottom = bottom.now }) net }
{
    net == 0 || pin_count(top, net) + pin_count(bottom, net) != 1
}

// How many pins of an edge a net has.
fn pin_count(side: &[u32], net: u32) -> usize
    ensures { result ≡ count_by (λ n. n == net) side.now }
{
    side.iter().filter(|n| **n == net).count()
}
