//! The wiring of a channel by the left-edge rule, with a column that as many nets cross as there are tracks.

ghost use Rattle.channel_model.specs.Density.{density_of};
ghost use Rattle.channel_model.specs.Wired.{Wired};
ghost use Rattle.left_edge.specs.Columns.{IsFirstConstrained};
ghost use Rattle.left_edge.specs.EdgeWiring.{edge_wiring};
ghost use Rattle.left_edge.specs.Single.{IsLeast, IsSingle};
ghost use Rattle.left_edge.specs.Spans.{IsFullest, nets_over};
ghost use Rattle.std.specs.Prelude.{◌≡◌, ◌<◌, ◌↔◌, ℕ, Err, IfOk, length};

use crate::columns::first_constrained;
use crate::fault::EdgeFault;
use crate::free::{Free, Leveled, Spanned};
use crate::fullness::fullest_column;
use crate::spans::{net_spans, nets_over};
use crate::sweep::sweep_columns;
use crate::wires::{lay_nets, set_bottom_vias, set_top_vias, wire_bottom_pins, wire_top_pins};
use channel_model::{Channel, Wiring, nets_of};
use geom_core::Items;
use std::alloc::{AllocError, Global};

/// The wiring of a channel by the left-edge rule, and where all of its tracks are needed.
#[derive(Debug, Drop)]
pub struct Edge {
    /// The wiring.
    pub wiring: Wiring,
    /// The first of the columns over which the most nets are, 0 where the channel has no nets.
    pub column: u32,
    /// The nets over that column, in number order: as many as there are tracks.
    pub nets: Items<u32>,
}

/// The wiring of a channel in as many tracks as its density, with no column added, in O(W log W) time for W columns.
///
/// The nets are taken by their first pin columns, no two of which are one. Each goes to the lowest track whose last net has its last pin in an
/// earlier column, or else to a new track on top, and lies there from its first to its last pin column. An Across joins each pin to its net's
/// track, and has a via there, which the two pins of a column share. The segments are the Acrosses of the bottom pins and those of the top pins,
/// each by column, and then the Alongs by net; the vias follow the Acrosses.
///
/// `Constrained` exactly where a column has pins of two different nets, with the first such column; else the one fault is want of memory. No
/// wiring of the channel in which each net has one Along, which covers its pin columns, has fewer tracks: all nets of `nets` cross
/// `column`.
pub fn left_edge(alloc: Global, channel: &Channel) -> Result<Edge, EdgeFault>
    ensures constrained { (column : ℕ) → (result ≡ Err (EdgeFault.Constrained column)) ↔ IsFirstConstrained channel.now column }
    ensures wiring { IfOk result (λ edge. edge.wiring ≡ edge_wiring channel.now) }
    ensures wired { IfOk result (λ edge. Wired channel.now edge.wiring) }
    ensures single { IfOk result (λ edge. IsSingle channel.now edge.wiring) }
    ensures columns { IfOk result (λ edge. edge.wiring.columns ≡ length channel.now.top) }
    ensures tracks { IfOk result (λ edge. edge.wiring.tracks ≡ density_of channel.now) }
    ensures least { IfOk result (λ edge. IsLeast channel.now edge.wiring.tracks) }
    ensures fullest { IfOk result (λ edge. 0 < density_of channel.now → IsFullest channel.now edge.column) }
    ensures nets { IfOk result (λ edge. edge.nets ≡ nets_over channel.now edge.column) }
    ensures as_many { IfOk result (λ edge. length edge.nets ≡ edge.wiring.tracks) }
    ensures none { IfOk result (λ edge. density_of channel.now ≡ 0 → edge.column ≡ 0) }
{
    if let Some(column) = first_constrained(channel) {
        return Err(EdgeFault::Constrained(column));
    }
    let nets = nets_of(alloc, channel)?;
    let nets = nets.as_slice();
    let spans = net_spans(alloc, &Free { channel, nets })?;
    let spanned = Spanned {
        channel,
        nets,
        spans: spans.as_slice(),
    };
    let column = fullest_column(&spanned);
    Ok(Edge {
        wiring: wiring_of(alloc, &spanned)?,
        column,
        nets: Items::new(nets_over(alloc, &spanned, column)?),
    })
}

// The wiring of the nets of a channel, each on the lowest track that is free.
fn wiring_of(alloc: Global, spanned: &Spanned) -> Result<Wiring, AllocError>
    ensures { IfOk result (λ wiring. wiring ≡ edge_wiring spanned.now.channel.now) }
{
    let levels = sweep_columns(alloc, spanned)?;
    wiring_on(
        alloc,
        &Leveled {
            channel: spanned.channel,
            nets: spanned.nets,
            spans: spanned.spans,
            levels: levels.of_nets.as_slice(),
            tracks: levels.count,
        },
    )
}

// The wiring of the nets of a channel on these tracks.
fn wiring_on(alloc: Global, leveled: &Leveled) -> Result<Wiring, AllocError>
    ensures { IfOk result (λ wiring. wiring ≡ edge_wiring leveled.now.channel.now) }
{
    let channel = leveled.channel;
    let mut segments = Vec::new(alloc);
    wire_bottom_pins(&mut segments, leveled)?;
    wire_top_pins(&mut segments, leveled)?;
    lay_nets(&mut segments, leveled)?;
    let mut vias = Vec::new(alloc);
    set_bottom_vias(&mut vias, leveled)?;
    set_top_vias(&mut vias, leveled)?;
    Ok(Wiring {
        tracks: leveled.tracks,
        columns: channel.top.items().len() as u32,
        segments: Items::new(segments),
        vias: Items::new(vias),
    })
}
