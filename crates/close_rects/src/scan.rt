//! The pairs of close rectangles of a list, given one after another.

ghost use Rattle.close_rects.specs.Items.{entry};
ghost use Rattle.close_rects.specs.Rests.{pair_of};
ghost use Rattle.std.specs.Prelude.{◌≡◌};

use crate::bounds::Bounds;
use crate::indexed::Indexed;
use crate::items::{Item, Items};
use crate::reach::CloseLength;
use geom_core::Rect;
use std::alloc::{AllocError, Global};
use std::marker::Model;

/// The pairs of close rectangles of a list, one after another: those whose two gaps are both below a reach. At reach 0 they share
/// inner points, and at reach 1 they share a point. Contracts see the list of the pairs that are left.
/// Each rectangle is looked for among those after it in the order of the structure that a `RectSet` has, too, so that the first
/// pairs come early however many there are.
#[derive(Drop)]
pub struct Scan {
    indexed: Indexed,
    reach: CloseLength,
    row: usize,
    at: usize,
}

impl Model for Scan {
    ghost use Rattle.close_rects.specs.ScanView.{rest_in, IsScan};
    ghost use Rattle.std.specs.Prelude.{List, ℕ};

    ghost Value = { List (ℕ × ℕ) };

    ghost view = { rest_in };

    ghost invariant = { IsScan };
}

impl Scan {
    ghost use Rattle.close_rects.specs.ClosePairs.{AreClosePairs};
    ghost use Rattle.geom_core.specs.Reach.{IsExtentInWideReach};
    ghost use Rattle.std.specs.Prelude.{◌≡◌, ◌<◌, ◌≤ℤ◌, ◌^◌, pos, [], ◌∷◌, length, All, IfNone, IfOk, IfSome};

    /// All pairs of close rectangles of a list, each once, by their numbers there from 0 on, the lesser first. There are fewer
    /// than 2^32 rectangles, whose sides lie within 10^16 half centimicrons; the reach is 0 to 10^16 of these. The order of the pairs
    /// is left open. The one error is want of memory.
    pub fn new(alloc: Global, rects: &[Rect], reach: i64) -> Result<Scan, AllocError>
        requires few { length rects.now < 2 ^ 32 }
        requires wide { All IsExtentInWideReach rects.now }
        requires low { pos 0 ≤ℤ reach }
        requires high { reach ≤ℤ pos 10000000000000000 }
        ensures { IfOk result (AreClosePairs reach rects.now) }
    {
        let items = Items::numbered(alloc, rects)?.ordered();
        Ok(Scan {
            indexed: Indexed::of(alloc, items)?,
            reach: CloseLength { length: reach },
            row: 0,
            at: 1,
        })
    }

    /// The first pair of those left, which is then left no more; None where none is left. Takes no memory.
    pub fn next(&mut self) -> Option<(u32, u32)>
        ensures first { IfSome result (λ pair. self.old ≡ pair ∷ self.new) }
        ensures none { IfNone result (self.old ≡ []) }
        ensures same { IfNone result (self.new ≡ self.old) }
    {
        while self.row < self.indexed.items().len() {
            let item = self.indexed.items().at(self.row);
            let window = Bounds::near(&item.rect, self.reach);
            if let Some(found) = self.indexed.first_meeting(&window, self.at) {
                self.at = found + 1;
                return Some(numbers(item, self.indexed.items().at(found)));
            }
            self.row += 1;
            self.at = self.row + 1;
        }
        None
    }
}

// The numbers of two items, the lesser first.
fn numbers(a: Item, b: Item) -> (u32, u32)
    ensures { result ≡ pair_of (entry a) (entry b) }
{
    (a.number.min(b.number), a.number.max(b.number))
}
