//! The span of each net, whether it begins or ends in a column, and the nets whose spans cover one.

ghost use Rattle.left_edge.specs.Spans.{nets_over, span};
ghost use Rattle.channel_model.specs.Density.{is_over};
ghost use Rattle.left_edge.specs.Tracks.{begins, ends};
ghost use Rattle.std.specs.Prelude.{◌≡◌, ◌<◌, IfOk, length, map, unwrap_or};

use crate::columns::{column_nets, net_at, net_place};
use crate::free::{Free, Spanned};
use channel_model::{Reach, reaches};
use std::alloc::{AllocError, Global};

/// From the first to the last pin column of each net, by place, in O(W log N) time for W columns and N nets.
pub(crate) fn net_spans(alloc: Global, free: &Free) -> Result<Vec<Reach>, AllocError>
    ensures { IfOk result (λ spans. spans.items ≡ map (span free.now.channel.now) free.now.nets.now) }
{
    let columns = column_nets(alloc, free.channel)?;
    let reaches = reaches(alloc, &columns, free.nets)?;
    spans_of(alloc, &reaches)
}

// Reaches as spans, where each net has one.
fn spans_of(alloc: Global, reaches: &[Option<Reach>]) -> Result<Vec<Reach>, AllocError>
    ensures { IfOk result (λ spans. spans.items ≡ map (λ reach. unwrap_or reach (record { first = 0; last = 0 })) reaches.now) }
{
    let none = Reach { first: 0, last: 0 };
    reaches
        .iter()
        .map(|reach| reach.unwrap_or(none))
        .collect(alloc)
}

/// Whether the net of a column has its first pin there.
pub(crate) fn is_begin(spanned: &Spanned, column: usize) -> bool
    requires { column < length spanned.now.channel.now.top }
    ensures { result ≡ begins spanned.now.channel.now column }
{
    net_at(spanned.channel, column) != 0
        && spanned.spans[net_place(spanned, column)].first as usize == column
}

/// Whether the net of a column has its last pin there.
pub(crate) fn is_end(spanned: &Spanned, column: usize) -> bool
    requires { column < length spanned.now.channel.now.top }
    ensures { result ≡ ends spanned.now.channel.now column }
{
    net_at(spanned.channel, column) != 0
        && spanned.spans[net_place(spanned, column)].last as usize == column
}

/// The nets whose spans cover a column.
pub(crate) fn nets_over(
    alloc: Global,
    spanned: &Spanned,
    column: u32,
) -> Result<Vec<u32>, AllocError>
    ensures { IfOk result (λ over. over.items ≡ nets_over spanned.now.channel.now column) }
{
    let mut over = Vec::new(alloc);
    for place in 0..spanned.nets.len() {
        if !is_over(spanned.spans[place], column) {
            continue;
        }
        over.push(spanned.nets[place])?;
    }
    Ok(over)
}

// Whether a span covers a column.
fn is_over(span: Reach, column: u32) -> bool
    ensures { result ≡ is_over column span }
{
    span.first <= column && column <= span.last
}
