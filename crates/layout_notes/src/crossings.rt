//! How many tracks a channel needs at least: as many as nets have to go past one of its columns.

use channel_model::{Segment, Wiring};
use std::alloc::{AllocError, Global};
use std::collections::BTreeMap;

// The first and the last column in which each net enters a channel.
type Spans = BTreeMap<u32, (u32, u32)>;

// Widens the span of a net to a column.
fn widen(spans: &mut Spans, net: u32, column: u32) -> Result<(), AllocError> {
    let span = match spans.get(&net) {
        Some(span) => (span.0.min(column), span.1.max(column)),
        None => (column, column),
    };
    let _ = spans.insert(net, span)?;
    Ok(())
}

// The spans of the nets of a channel: they enter where their wires reach one of its edges.
fn spans_of(alloc: Global, wiring: &Wiring) -> Result<Spans, AllocError> {
    let mut spans = BTreeMap::new(alloc);
    for segment in wiring.segments.items() {
        if let Segment::Across {
            net,
            column,
            low,
            high,
        } = *segment
        {
            if low == 0 || high > wiring.tracks {
                widen(&mut spans, net, column)?;
            }
        }
    }
    Ok(spans)
}

// Counts one more at this place, if it is there.
fn count_at(counts: &mut [u32], at: u32) {
    let at = at as usize;
    if at < counts.len() {
        counts[at] = counts[at].saturating_add(1);
    }
}

// The greatest number that is open at a place, where so many begin and end at each.
fn most_open(begins: &[u32], ends: &[u32]) -> u32 {
    let mut open: u32 = 0;
    let mut most: u32 = 0;
    for (begun, ended) in begins.iter().zip(ends) {
        open = open.saturating_add(*begun);
        most = most.max(open);
        open = open.saturating_sub(*ended);
    }
    most
}

/// The greatest number, over all columns of a channel, of nets that enter it in the column or left of it, and also right of it: every wiring has at least so many tracks. The one error
/// is want of memory.
pub(crate) fn least_tracks(alloc: Global, wiring: &Wiring) -> Result<u32, AllocError> {
    let columns = wiring.columns as usize;
    let mut begins = vec![in alloc; 0u32; columns]?;
    let mut ends = vec![in alloc; 0u32; columns]?;
    let spans = spans_of(alloc, wiring)?;
    for span in spans.values() {
        if span.0 < span.1 {
            count_at(begins.as_mut_slice(), span.0);
            count_at(ends.as_mut_slice(), span.1.saturating_sub(1));
        }
    }
    Ok(most_open(begins.as_slice(), ends.as_slice()))
}
