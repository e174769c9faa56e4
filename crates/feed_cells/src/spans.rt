//! The channels that one net stands in, straight from a design and its rows, without tables.

ghost use Rattle.row_model.specs.Rows.{ArePlaced};
ghost use Rattle.row_model.specs.PinPlaces.{pin_place};
ghost use Rattle.feed_cells.specs.Crossings.{crossing_of, pins_of};
ghost use Rattle.feed_cells.specs.Spans.{span_of};
ghost use Rattle.std.specs.Prelude.{◌≡◌, ◌<◌, ◌≤◌, length, map};

use crate::crossing::Crossing;
use crate::net_spans::{NetSpan, crossing_in, joined};
use design_model::Design;
use row_model::{Rows, pin_place};

/// Which channels the net with this number, from 1 to the number of nets, stands in. Takes no memory, and steps as the number of pins
/// times that of cells and of the positions of a cell.
#[tactic(auto, using(crate::proofs::PlacementLaws::span_laws))]
pub fn spans_of(design: &Design, rows: &Rows, net: u32) -> Crossing
    requires some { 0 < net }
    requires within { net ≤ length design.now.nets }
    requires placed { ArePlaced design.now rows.now }
    ensures { result ≡ crossing_of design.now rows.now net }
{
    crossing_in(net_span(design, rows, net))
}

// How far a net's pins reach, if it has any.
fn net_span(design: &Design, rows: &Rows, net: u32) -> Option<NetSpan>
    requires { ArePlaced design.now rows.now }
    ensures { result ≡ span_of (map (pin_place design.now rows.now) (pins_of design.now net)) }
{
    let mut span = None;
    let mut rest = design.pins.items();
    while let Some((pin, after)) = rest.split_first() {
        if pin.net == net {
            span = joined(span, pin_place(design, rows, *pin));
        }
        rest = after;
    }
    span
}
