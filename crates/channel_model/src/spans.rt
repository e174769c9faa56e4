//! The span of each net of a channel, and the density and the cut density that these give.

ghost use Rattle.channel_model.specs.Density.{crossing_of, cut_density_of, density_of, most_over, spans_of};
ghost use Rattle.channel_model.specs.Nets.{AreNets};
ghost use Rattle.channel_model.specs.Reach.{IsReach, joined};
ghost use Rattle.std.specs.List.{filter_map};
ghost use Rattle.std.specs.Option.{option_to_list};
ghost use Rattle.std.specs.Prelude.{◌≡◌, ◌==◌, ◌<◌, ◌≤◌, ◌^◌, ◌++◌, ℕ, IfOk, OnOk, All, count_by, length, slice_index, vec_len};

use crate::channel::Channel;
use crate::nets::nets_of;
use crate::reach::{Reach, reaches};
use std::alloc::{AllocError, Global};

/// The density of a channel: the greatest number, over all columns, of nets whose first pin is not right of the column and
/// whose last pin is not left of it, in O(W log W) time for W columns. The one error is want of memory.
pub fn density(alloc: Global, channel: &Channel) -> Result<u32, AllocError>
    ensures { IfOk result (λ density. density ≡ density_of channel.now) }
{
    let nets = nets_of(alloc, channel)?;
    let spans = spans_of(alloc, channel, &nets)?;
    most_over(alloc, &spans, channel.top.items().len())
}

/// The cut density of a channel: the greatest number, over all columns, of nets with a pin in the column or left of it and with one right
/// of it, in O(W log W) time for W columns. Every wiring has at least so many tracks. The one error is want of memory.
pub fn cut_density(alloc: Global, channel: &Channel) -> Result<u32, AllocError>
    ensures cut { IfOk result (λ density. density ≡ cut_density_of channel.now) }
{
    let nets = nets_of(alloc, channel)?;
    let spans = spans_of(alloc, channel, &nets)?;
    let crossings = crossings_of(alloc, &spans)?;
    most_over(alloc, &crossings, channel.top.items().len())
}

// The columns behind which nets of these spans have pins on both sides.
fn crossings_of(alloc: Global, spans: &[Reach]) -> Result<Vec<Reach>, AllocError>
    ensures { IfOk result (λ crossings. crossings.items ≡ filter_map crossing_of spans.now) }
{
    spans
        .iter()
        .filter_map(|span| crossing_of(*span))
        .collect(alloc)
}

// The same for one net, where there are any.
fn crossing_of(span: Reach) -> Option<Reach>
    ensures { result ≡ crossing_of span }
{
    if span.first < span.last {
        Some(Reach {
            first: span.first,
            last: span.last - 1,
        })
    } else {
        None
    }
}

// The greatest number of spans over one column, by a sweep over how many begin and end at each.
fn most_over(alloc: Global, spans: &[Reach], columns: usize) -> Result<u32, AllocError>
    requires within { All (IsReach columns) spans.now }
    requires few { length spans.now < 2 ^ 32 }
    ensures { IfOk result (λ most. most ≡ most_over spans.now columns) }
{
    let begins = begins_of(alloc, spans, columns)?;
    let ends = ends_of(alloc, spans, columns)?;
    let mut open = 0u32;
    let mut most = 0u32;
    for column in 0..columns {
        open += begins[column];
        most = most.max(open);
        open -= ends[column];
    }
    Ok(most)
}

// How many spans begin at each column.
fn begins_of(alloc: Global, spans: &[Reach], columns: usize) -> Result<Vec<u32>, AllocError>
    requires within { All (IsReach columns) spans.now }
    requires few { length spans.now < 2 ^ 32 }
    ensures length { IfOk result (λ begins. vec_len begins ≡ columns) }
    ensures counts { IfOk result (λ begins. (k : ℕ) → k < columns
        → slice_index begins.items k ≡ count_by (λ span. span.first == k) spans.now) }
{
    let firsts: Vec<u32> = spans.iter().map(|span| span.first).collect(alloc)?;
    counts(alloc, &firsts, columns)
}

// How many spans end at each column.
fn ends_of(alloc: Global, spans: &[Reach], columns: usize) -> Result<Vec<u32>, AllocError>
    requires within { All (IsReach columns) spans.now }
    requires few { length spans.now < 2 ^ 32 }
    ensures length { IfOk result (λ ends. vec_len ends ≡ columns) }
    ensures counts { IfOk result (λ ends. (k : ℕ) → k < columns
        → slice_index ends.items k ≡ count_by (λ span. span.last == k) spans.now) }
{
    let lasts: Vec<u32> = spans.iter().map(|span| span.last).collect(alloc)?;
    counts(alloc, &lasts, columns)
}

// How many of these numbers are each number below a bound.
fn counts(alloc: Global, numbers: &[u32], bound: usize) -> Result<Vec<u32>, AllocError>
    requires within { All (λ n. n < bound) numbers.now }
    requires few { length numbers.now < 2 ^ 32 }
    ensures length { IfOk result (λ counts. vec_len counts ≡ bound) }
    ensures counts { IfOk result (λ counts.
        (k : ℕ) → k < bound → slice_index counts.items k ≡ count_by (λ n. n == k) numbers.now) }
{
    let mut counts = vec![in alloc; 0u32; bound]?;
    for number in numbers {
        counts[*number as usize] += 1;
    }
    Ok(counts)
}

// The spans of these nets.
fn spans_of(alloc: Global, channel: &Channel, nets: &[u32]) -> Result<Vec<Reach>, AllocError>
    requires { AreNets channel.now nets.now }
    ensures spans { IfOk result (λ spans. spans.items ≡ spans_of channel.now nets.now) }
    ensures within { IfOk result (λ spans. All (IsReach (length channel.now.top)) spans.items) }
    ensures few { IfOk result (λ spans. length spans.items ≤ length nets.now) }
{
    let tops = reaches(alloc, channel.top.items(), nets)?;
    let bottoms = reaches(alloc, channel.bottom.items(), nets)?;
    let mut spans = Vec::new(alloc);
    for place in 0..nets.len() {
        push_span(&mut spans, joined(tops[place], bottoms[place]))?;
    }
    Ok(spans)
}

// Adds a span, where there is one.
fn push_span(spans: &mut Vec<Reach>, span: Option<Reach>) -> Result<(), AllocError>
    ensures { OnOk result (spans.new.items ≡ spans.old.items ++ option_to_list span) }
{
    if let Some(span) = span {
        spans.push(span)?;
    }
    Ok(())
}

// The least reach that has both.
fn joined(one: Option<Reach>, other: Option<Reach>) -> Option<Reach>
    ensures { result ≡ joined one other }
{
    match (one, other) {
        (Some(a), Some(b)) => Some(Reach {
            first: a.first.min(b.first),
            last: a.last.max(b.last),
        }),
        (Some(a), None) => Some(a),
        (None, other) => other,
    }
}
