//! The net of each column of a channel, and the first column with pins of two different nets.

ghost use Rattle.channel_model.specs.Pins.{IsChannel};
ghost use Rattle.left_edge.specs.Columns.{IsConstrained, IsFirstConstrained, IsUnconstrained, net_at};
ghost use Rattle.std.specs.Prelude.{◌≡◌, ◌<◌, ◌↔◌, ℕ, IfOk, IfSome, IfNone, IsTrue, length, slice_index, vec_len};

use crate::free::Spanned;
use channel_model::{Channel, place_of};
use std::alloc::{AllocError, Global};

/// The first column with pins of two different nets.
pub(crate) fn first_constrained(channel: &Channel) -> Option<u32>
    ensures channel { IsChannel channel.now }
    ensures first { IfSome result (IsFirstConstrained channel.now) }
    ensures none { IfNone result (IsUnconstrained channel.now) }
{
    for column in 0..channel.top.items().len() {
        if is_constrained(channel, column) {
            return Some(column as u32);
        }
    }
    None
}

// Whether a column has pins of two different nets.
fn is_constrained(channel: &Channel, column: usize) -> bool
    requires { column < length channel.now.top }
    ensures { IsTrue result ↔ IsConstrained channel.now column }
{
    let top = channel.top.items()[column];
    let bottom = channel.bottom.items()[column];
    top != 0 && bottom != 0 && top != bottom
}

/// The net with the pins of a column of a channel without constraints, 0 where there are none.
pub(crate) fn net_at(channel: &Channel, column: usize) -> u32
    requires { column < length channel.now.top }
    ensures { result ≡ net_at channel.now column }
{
    let bottom = channel.bottom.items()[column];
    if bottom == 0 {
        channel.top.items()[column]
    } else {
        bottom
    }
}

/// The place of the net of a column among the nets of the channel, in O(log N) time for N nets.
pub(crate) fn net_place(spanned: &Spanned, column: usize) -> usize
    requires within { column < length spanned.now.channel.now.top }
    requires some { 0 < net_at spanned.now.channel.now column }
    ensures place { result < length spanned.now.nets.now }
    ensures there { slice_index spanned.now.nets.now result ≡ net_at spanned.now.channel.now column }
{
    place_of(spanned.nets, net_at(spanned.channel, column))
}

/// The net of each column.
pub(crate) fn column_nets(alloc: Global, channel: &Channel) -> Result<Vec<u32>, AllocError>
    ensures long { IfOk result (λ nets. length nets.items ≡ length channel.now.top) }
    ensures nets { IfOk result (λ nets. (k : ℕ) → k < length channel.now.top → slice_index nets.items k ≡ net_at channel.now k) }
{
    let mut nets = Vec::new(alloc);
    for column in 0..channel.top.items().len() {
        nets.push(net_at(channel, column))?;
    }
    Ok(nets)
}
