//! A layout in short.

ghost use Rattle.command_jobs.specs.Summarized.{feeds_at, feeds_in, feeds_of, line_of_channel, summary_with, taken_among};
ghost use Rattle.feed_cells.specs.Fed.{IsFed};
ghost use Rattle.std.specs.Prelude.{◌≡◌, ◌<◌, ◌≤◌, ◌^◌, IfOk, map};

use crate::placing::Annealed;
use channel_stack::Laid;
use command_words::TryCount;
use design_model::Design;
use feed_cells::{FedRows, Item};
use geom_core::Items;
use greedy_router::Routed;
use layout_report::{ChannelLine, Summary, Taken};
use limits::MOST_COLUMNS;
use std::alloc::{AllocError, Global};

fn feeds_at(item: &Item) -> u64
    ensures is { result ≡ feeds_at item.now }
    ensures few { result ≤ 1 }
{
    match item {
        Item::Cell(_) => 0,
        Item::Feed(_) => 1,
    }
}

// How many feeds a row has.
fn feeds_of(items: &[Item]) -> u64
    requires { feeds_of items.now < 2 ^ 64 }
    ensures { result ≡ feeds_of items.now }
{
    let mut feeds = 0;
    let mut rest = items;
    while let Some((item, after)) = rest.split_first() {
        feeds += feeds_at(item);
        rest = after;
    }
    feeds
}

// How many feeds rows have.
fn feeds_in(rows: &[Items<Item>]) -> u64
    requires { feeds_in rows.now < 2 ^ 64 }
    ensures { result ≡ feeds_in rows.now }
{
    let mut feeds = 0;
    let mut rest = rows;
    while let Some((row, after)) = rest.split_first() {
        feeds += feeds_of(row.items());
        rest = after;
    }
    feeds
}

// A routed channel in short, beside rows of this width.
fn line_of_channel(width: u64, channel: &Routed) -> ChannelLine
    ensures { result ≡ line_of_channel width channel.now }
{
    ChannelLine {
        tracks: channel.wiring.tracks,
        extra: u64::from(channel.wiring.columns).saturating_sub(width) as u32,
        by: channel.by,
    }
}

/// Routed channels in short, beside these rows. The one error is want of memory.
pub(crate) fn channel_lines(
    alloc: Global,
    channels: &[Routed],
    fed: &FedRows,
) -> Result<Vec<ChannelLine>, AllocError>
    ensures { IfOk result (λ v. v.items ≡ map (line_of_channel fed.now.width) channels.now) }
{
    let width = fed.width;
    channels
        .iter()
        .map(|channel| line_of_channel(width, channel))
        .collect(alloc)
}

// What is told of a try that was taken.
fn taken_among(tries: TryCount, annealed: Annealed) -> Option<Taken>
    ensures { result ≡ taken_among tries annealed.rows annealed.seed }
{
    if tries.get() > 1 {
        Some(Taken {
            rows: annealed.rows,
            seed: annealed.seed,
        })
    } else {
        None
    }
}

/// The layout in short of a design in rows with feeds, which were annealed so, as one of so many tries, with these channels. The rows are at most 4,000,000 columns wide. Takes no
/// memory.
pub(crate) fn summarized(
    design: &Design,
    fed: &FedRows,
    channels: Vec<ChannelLine>,
    laid: &Laid,
    annealed: Annealed,
    tries: TryCount,
) -> Summary
    requires fed { IsFed design.now fed.now }
    requires narrow { fed.now.width ≤ MOST_COLUMNS }
    ensures { result ≡ summary_with design.now fed.now annealed.cost channels.items laid.now (taken_among tries annealed.rows annealed.seed) }
{
    Summary {
        cells: design.instances.items().len() as u32,
        nets: design.nets.items().len() as u32,
        rows: fed.rows.items().len() as u32,
        feeds: feeds_in(fed.rows.items()),
        channels: Items::new(channels),
        width: laid.width,
        height: laid.height,
        cost: annealed.cost,
        taken: taken_among(tries, annealed),
    }
}

// How long the feeds of a row of this height are together.
fn feed_wire_of(items: &[Item], height: u32) -> u64 {
    let mut length: u64 = 0;
    for item in items {
        length = length.saturating_add(feeds_at(item).saturating_mul(u64::from(height)));
    }
    length
}

/// How long the feeds of rows that lie so are together, in units: each is as high as its row. Takes no memory.
pub(crate) fn feed_wire(fed: &FedRows, laid: &Laid) -> u64 {
    let mut length: u64 = 0;
    let mut heights = laid.row_height.items();
    for row in fed.rows.items() {
        let Some((height, taller)) = heights.split_first() else {
            break;
        };
        length = length.saturating_add(feed_wire_of(row.items(), *height));
        heights = taller;
    }
    length
}
