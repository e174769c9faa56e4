//! How far the pins of a net reach, in channels and in columns, with the channels and the middle that follow from it.

ghost use Rattle.feed_cells.specs.Spans.{crossing_in, joined, middle_in, span_of};
ghost use Rattle.std.specs.Prelude.{◌≡◌};

use crate::crossing::Crossing;
use row_model::PinPlace;

/// How far the pins of a net reach: whether they are two or more, the greatest of their lowest channels, the least of their highest ones, and their
/// least and greatest column.
#[derive(Clone, Copy, Debug, Drop)]
pub(crate) struct NetSpan {
    pub(crate) many: bool,
    pub(crate) floor: u32,
    pub(crate) ceiling: u32,
    pub(crate) left: u64,
    pub(crate) right: u64,
}

/// How far pins reach together with one more, if there were any.
pub(crate) fn joined(span: Option<NetSpan>, pin: PinPlace) -> Option<NetSpan>
    ensures { result ≡ joined span pin }
{
    let Some(span) = span else {
        return Some(NetSpan {
            many: false,
            floor: pin.lowest(),
            ceiling: pin.highest(),
            left: pin.column,
            right: pin.column,
        });
    };
    Some(NetSpan {
        many: true,
        floor: span.floor.max(pin.lowest()),
        ceiling: span.ceiling.min(pin.highest()),
        left: span.left.min(pin.column),
        right: span.right.max(pin.column),
    })
}

/// How far pins reach, if there are any.
pub(crate) fn span_of(pins: &[PinPlace]) -> Option<NetSpan>
    ensures { result ≡ span_of pins.now }
{
    pins.iter().fold(None, |span, pin| joined(span, *pin))
}

/// Which channels a net stands in whose pins reach so far.
pub(crate) fn crossing_in(span: Option<NetSpan>) -> Crossing
    ensures { result ≡ crossing_in span }
{
    let Some(span) = span else {
        return Crossing::Alone;
    };
    if !span.many {
        return Crossing::Alone;
    }
    if span.floor <= span.ceiling {
        return Crossing::One(span.floor);
    }
    Crossing::Many {
        lo: span.ceiling,
        hi: span.floor,
    }
}

/// The middle of the columns of a net whose pins reach so far.
pub(crate) fn middle_in(span: Option<NetSpan>) -> u64
    ensures { result ≡ middle_in span }
{
    match span {
        Some(span) => ((u128::from(span.left) + u128::from(span.right)) / 2) as u64,
        None => 0,
    }
}
