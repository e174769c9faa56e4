//! A net by its pins: its channels, its middle column, and its through pin in each row that it crosses.

ghost use Rattle.feed_cells.specs.Crossings.{crossed_rows};
ghost use Rattle.feed_cells.specs.Placement.{first_through, net_place_in, through_at};
ghost use Rattle.std.specs.Prelude.{◌≡◌, map, IfOk};

use crate::crossing::Crossing;
use crate::net_spans::{crossing_in, middle_in, span_of};
use design_model::Pin;
use geom_core::Items;
use row_model::PinPlace;
use std::alloc::{AllocError, Global};

/// Which channels a net stands in, the middle of the columns of its pins, and for each row that it crosses, from the lowest up, its through pin, where it has
/// one there; in rows without feeds.
#[derive(Debug, Drop)]
pub struct NetPlace {
    pub crossing: Crossing,
    pub middle: u64,
    pub through: Items<Option<Pin>>,
}

impl NetPlace {
    /// The through pin of the net in a row, if the net crosses the row and has one there.
    pub(crate) fn through_pin(&self, row: u32) -> Option<Pin>
        ensures { result ≡ through_at self.now row }
    {
        match self.crossing {
            Crossing::Many { lo, hi } if lo <= row && row < hi => {
                *self.through.items().get((row - lo) as usize)?
            }
            _ => None,
        }
    }
}

/// A net by where its pins stand. The one error is want of memory. Takes steps as the number of the pins, and for each as the number of rows that the net crosses.
pub(crate) fn net_place(alloc: Global, pins: &[PinPlace]) -> Result<NetPlace, AllocError>
    ensures { IfOk result (λ net. net ≡ net_place_in pins.now) }
{
    let span = span_of(pins);
    let crossing = crossing_in(span);
    Ok(NetPlace {
        crossing,
        middle: middle_in(span),
        through: Items::new(through_pins(alloc, pins, crossing)?),
    })
}

// The first of a net's pins that passes each row that the net crosses.
#[tactic(auto, using(crate::proofs::PlacementLaws::range_laws))]
fn through_pins(
    alloc: Global,
    pins: &[PinPlace],
    crossing: Crossing,
) -> Result<Vec<Option<Pin>>, AllocError>
    ensures { IfOk result (λ v. v.items ≡ map (first_through pins.now) (crossed_rows crossing)) }
{
    let (lo, hi) = crossing.rows();
    let mut through = Vec::new(alloc);
    for row in lo..hi {
        through.push(first_through(pins, row))?;
    }
    Ok(through)
}

// The first of pins that passes a row.
fn first_through(pins: &[PinPlace], row: u32) -> Option<Pin>
    ensures { result ≡ first_through pins.now row }
{
    pins.iter()
        .find(|pin| u32::from(pin.row) == row && pin.passes_row())
        .map(|pin| pin.pin)
}
