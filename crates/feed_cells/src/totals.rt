//! Counts over all rows and channels: the greatest width of a row with feeds, and the nets of each channel.

ghost use Rattle.feed_cells.specs.Fed.{items_width};
ghost use Rattle.feed_cells.specs.Crossings.{is_in};
ghost use Rattle.feed_cells.specs.Sizes.{AreNarrow, HaveRoom, count_in, one_more_if};
ghost use Rattle.std.specs.List.{range_with_len};
ghost use Rattle.std.specs.Option.{option_map};
ghost use Rattle.std.specs.Prelude.{◌≡◌, ◌==◌, ◌≤◌, ◌<◌, ◌+◌, ◌^◌, ℕ, Some, length, fold, map, max, slice_get, IfOk};

use crate::crossing::Crossing;
use crate::fed::Item;
use crate::net_places::NetPlace;
use design_model::Design;
use geom_core::Items;
use limits::MOST_PINS;
use std::alloc::{AllocError, Global};

/// The width of the widest of rows with feeds in columns, where each is narrow. Takes no memory.
pub(crate) fn greatest_width(design: &Design, rows: &[Items<Item>]) -> u64
    ensures { AreNarrow design.now rows.now → result ≡ fold max 0 (map (items_width design.now) rows.now) }
{
    let mut width = 0;
    let mut rest = rows;
    while let Some((items, after)) = rest.split_first() {
        width = items_width(design, items.items()).max(width);
        rest = after;
    }
    width
}

// The width of a row with feeds in columns, where it is below 2 ^ 64.
fn items_width(design: &Design, items: &[Item]) -> u64
    ensures { items_width design.now items.now < 2 ^ 64 → result ≡ items_width design.now items.now }
{
    let mut width: u64 = 0;
    let mut rest = items;
    while let Some((item, after)) = rest.split_first() {
        width = width.saturating_add(u64::from(item.width(design)));
        rest = after;
    }
    width
}

/// How many nets stand in each of so many channels from channel 0 on. The one error is want of memory. Takes steps as the number of channels and of nets, and
/// for each net as the number of its channels.
pub(crate) fn counts_in(
    alloc: Global,
    channels: usize,
    nets: &[NetPlace],
) -> Result<Vec<u32>, AllocError>
    requires few { length nets.now ≤ MOST_PINS }
    ensures { IfOk result (λ v. v.items ≡ map (count_in nets.now) (range_with_len 0 channels)) }
{
    let mut counts = vec![in alloc; 0; channels]?;
    count_all(counts.as_mut_slice(), nets);
    Ok(counts)
}

// Counts nets in their channels.
fn count_all(counts: &mut [u32], nets: &[NetPlace])
    requires { HaveRoom (length nets.now) counts.old }
    ensures { (k : ℕ) → slice_get counts.new k ≡ option_map (λ (n : ℕ). n + count_in nets.now k) (slice_get counts.old k) }
{
    let mut rest = nets;
    while let Some((net, after)) = rest.split_first() {
        count_net(counts, net.crossing);
        rest = after;
    }
}

// Counts a net in its channels.
fn count_net(counts: &mut [u32], crossing: Crossing)
    requires { HaveRoom 1 counts.old }
    ensures { (k : ℕ) → slice_get counts.new k ≡ option_map (one_more_if (is_in crossing k)) (slice_get counts.old k) }
{
    let (first, end) = crossing.channels();
    for channel in first..end {
        count_one(counts, channel);
    }
}

// Counts a net in a channel, if there is this channel.
fn count_one(counts: &mut [u32], channel: usize)
    requires { (n : ℕ) → slice_get counts.old channel ≡ Some n → n < MOST_PINS }
    ensures { (k : ℕ) → slice_get counts.new k ≡ option_map (one_more_if (channel == k)) (slice_get counts.old k) }
{
    if channel < counts.len() {
        counts[channel] += 1;
    }
}
