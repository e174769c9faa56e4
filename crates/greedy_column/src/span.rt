//! Vertical pieces of wire in a column: which join two lines, which stand clear of others, and those of the pins.

ghost use Rattle.greedy_column.specs.Joining.{covers, is_clear, is_joined, passes, span_in, spans_of_pins};
ghost use Rattle.greedy_column.specs.Tracks.{ids};
ghost use Rattle.greedy_column.specs.Verticals.{verticals_of_pins};
ghost use Rattle.std.specs.Prelude.{◌≡◌, ◌<◌, ◌+◌, ◌^◌, IfOk, length, map};

use std::alloc::{AllocError, Global};

/// A piece of wire in a column, from a lower line to a higher one.
#[derive(Clone, Copy, Debug)]
pub struct Span {
    pub net: u32,
    pub low: u32,
    pub high: u32,
}

impl Span {
    // Whether a vertical joins the ends of this piece.
    fn is_covered_by(self, vertical: Span) -> bool
        ensures { result ≡ covers self vertical }
    {
        vertical.net == self.net && (vertical.low <= self.low && self.high <= vertical.high)
    }

    // Whether a vertical is of the same net, or shares no point with this piece.
    fn is_passed_by(self, vertical: Span) -> bool
        ensures { result ≡ passes self vertical }
    {
        vertical.net == self.net || (vertical.high < self.low || self.high < vertical.low)
    }

    // Whether one of these verticals joins the ends of this piece.
    pub fn is_joined(self, verticals: &[Span]) -> bool
        ensures { result ≡ is_joined verticals.now self }
    {
        verticals
            .iter()
            .any(|vertical| self.is_covered_by(*vertical))
    }

    // Whether no vertical of another net shares a point with this piece.
    pub(crate) fn is_clear(self, verticals: &[Span]) -> bool
        ensures { result ≡ is_clear verticals.now self }
    {
        verticals
            .iter()
            .all(|vertical| self.is_passed_by(*vertical))
    }
}

// The verticals of a column's pins: that of two equal pins, or that of the bottom pin and that of the top pin, from the nets of the pins, the
// lines of the tracks that they enter and that of the upper edge.
pub(crate) fn spans_of_pins(
    alloc: Global,
    straight: bool,
    top_net: u32,
    bottom_net: u32,
    top: u32,
    bottom: u32,
    upper_edge: u32,
) -> Result<Vec<Span>, AllocError>
    ensures { IfOk result (λ spans. spans.items ≡ spans_of_pins straight top_net bottom_net top bottom upper_edge) }
{
    let mut spans = Vec::new(alloc);
    if straight {
        spans.push(Span {
            net: top_net,
            low: 0,
            high: upper_edge,
        })?;
        return Ok(spans);
    }
    if bottom_net != 0 {
        spans.push(Span {
            net: bottom_net,
            low: 0,
            high: bottom,
        })?;
    }
    if top_net != 0 {
        spans.push(Span {
            net: top_net,
            low: top,
            high: upper_edge,
        })?;
    }
    Ok(spans)
}
