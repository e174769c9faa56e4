//! Wirings of channels by each style in stock, which a program of another origin has worked out.

use crate::choosers::style_of;
use crate::known_first::{FIRST, SECOND};
use crate::known_last::{FOURTH, THIRD};
use channel_model::{Channel, Segment, Wiring};
use choose_core::Style;
use greedy_router::{By, Routed, route_best};
use std::alloc::{AllocError, Global};
use std::test::Fail;
use stock_styles::Stock;

/// Checksums are below this.
const SUMS: u64 = 1 << 61;

// A checksum with more numbers behind those that it is of.
fn sum_with(sum: u64, numbers: &[u32]) -> u64 {
    let mut sum = sum;
    for number in numbers {
        sum = sum.wrapping_mul(1_000_003).wrapping_add(*number as u64 + 1) % SUMS;
    }
    sum
}

fn sum_with_segment(sum: u64, segment: Segment) -> u64 {
    match segment {
        Segment::Across {
            net,
            column,
            low,
            high,
        } => sum_with(sum, &[0, net, column, low, high]),
        Segment::Along {
            net,
            track,
            from,
            to,
        } => sum_with(sum, &[1, net, track, from, to]),
    }
}

// The checksum of a wiring: of the numbers of its segments, and then of its vias.
fn checksum(wiring: &Wiring) -> u64 {
    let mut sum = 0;
    for segment in wiring.segments.items() {
        sum = sum_with_segment(sum, *segment);
    }
    for via in wiring.vias.items() {
        sum = sum_with(sum, &[via.net, via.column, via.track]);
    }
    sum
}

fn router_of(by: By) -> &'static str {
    match by {
        By::Greedy => "greedy",
        By::Plain => "plain",
        By::Edge => "edge",
    }
}

// What is known of a wiring: the router, the tracks, the columns beyond the channel's, how many segments and vias, and the checksum.
fn told(alloc: Global, channel: &Channel, routed: &Routed) -> Result<String, AllocError> {
    let wiring = &routed.wiring;
    let width = channel.top.items().len();
    let router = router_of(routed.by);
    let tracks = wiring.tracks;
    let extra = (wiring.columns as usize).saturating_sub(width);
    let segments = wiring.segments.items().len();
    let vias = wiring.vias.items().len();
    let sum = checksum(wiring);
    format!(in alloc; "{router} {tracks} {extra} {segments} {vias} {sum}")
}

// The numbers of a text, which stand with blanks between them.
fn numbers_of(alloc: Global, text: &str) -> Result<Vec<u32>, Fail> {
    let mut numbers = Vec::new(alloc);
    for word in text.split(' ') {
        numbers.push(word.parse::<u32>().ok().ok_or("a number")?)?;
    }
    Ok(numbers)
}

fn channel_of(alloc: Global, top: &str, bottom: &str) -> Result<Channel, Fail> {
    let top = numbers_of(alloc, top)?;
    let bottom = numbers_of(alloc, bottom)?;
    Ok(Channel::new(top, bottom).ok_or("a channel")?)
}

// Whether a channel is routed by a style as is known.
fn is_known(alloc: Global, channel: &Channel, style: &Style, known: &str) -> Result<bool, Fail> {
    let routed = route_best(alloc, channel, style)?;
    let told = told(alloc, channel, &routed)?;
    Ok(told.as_str() == known)
}

/// A channel: its number, its top pins and its bottom pins, and what is known of it by the styles in their order.
#[derive(Clone, Copy)]
struct Line<'t> {
    number: &'t str,
    top: &'t str,
    bottom: &'t str,
    known: &'t str,
}

fn line_of(text: &str) -> Result<Line<'_>, Fail> {
    let (number, rest) = text.split_once('|').ok_or("a number")?;
    let (top, rest) = rest.split_once('|').ok_or("top pins")?;
    let (bottom, known) = rest.split_once('|').ok_or("bottom pins")?;
    Ok(Line {
        number,
        top,
        bottom,
        known,
    })
}

// The first style by which a channel is routed otherwise than is known.
fn first_wrong(
    alloc: Global,
    line: &Line<'_>,
    styles: &[(Stock, Style)],
) -> Result<Option<Stock>, Fail> {
    let channel = channel_of(alloc, line.top, line.bottom)?;
    let mut known = line.known.split('|');
    for (stock, style) in styles {
        let one = known.next().ok_or("what is known")?;
        if !is_known(alloc, &channel, style, one)? {
            return Ok(Some(*stock));
        }
    }
    Ok(None)
}

fn stock_styles(alloc: Global) -> Result<Vec<(Stock, Style)>, Fail> {
    let mut styles = Vec::new(alloc);
    for stock in Stock::ALL {
        styles.push((stock, style_of(alloc, stock)?))?;
    }
    Ok(styles)
}

// The first channel of a table that is routed otherwise, and the style.
fn wrong_in(alloc: Global, table: &'static str) -> Result<Option<(&'static str, Stock)>, Fail> {
    let styles = stock_styles(alloc)?;
    for text in table.split('\n') {
        let line = line_of(text)?;
        if let Some(stock) = first_wrong(alloc, &line, &styles)? {
            return Ok(Some((line.number, stock)));
        }
    }
    Ok(None)
}

#[test]
fn the_first_channels_are_routed_as_is_known(rt: HostRuntime) -> Result<(), Fail> {
    if let Some((number, stock)) = wrong_in(rt.alloc(), FIRST)? {
        assert!(rt; false, "channel {number} by {stock:?}");
    }
    Ok(())
}

#[test]
fn the_second_channels_are_routed_as_is_known(rt: HostRuntime) -> Result<(), Fail> {
    if let Some((number, stock)) = wrong_in(rt.alloc(), SECOND)? {
        assert!(rt; false, "channel {number} by {stock:?}");
    }
    Ok(())
}

#[test]
fn the_third_channels_are_routed_as_is_known(rt: HostRuntime) -> Result<(), Fail> {
    if let Some((number, stock)) = wrong_in(rt.alloc(), THIRD)? {
        assert!(rt; false, "channel {number} by {stock:?}");
    }
    Ok(())
}

#[test]
fn the_fourth_channels_are_routed_as_is_known(rt: HostRuntime) -> Result<(), Fail> {
    if let Some((number, stock)) = wrong_in(rt.alloc(), FOURTH)? {
        assert!(rt; false, "channel {number} by {stock:?}");
    }
    Ok(())
}
