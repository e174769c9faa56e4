//! A set of rectangles: one that meets a given rectangle is taken out, or one that holds it is found.

use crate::bounds::Bounds;
use crate::indexed::Indexed;
use crate::items::Items;
use geom_core::Rect;
use std::alloc::{AllocError, Global};
use std::marker::Model;

/// Numbered rectangles, out of which those are taken that meet a given one. Contracts see the list of those that are left, each
/// behind its number, in an order that is left open.
/// They stand in blocks of eight by their places, with bounds round each block and round runs of blocks, so that a call looks at few
/// of them where they are spread out, and also where they all overlap; no bound is promised.
#[derive(Drop)]
pub struct RectSet {
    indexed: Indexed,
}

impl Model for RectSet {
    ghost use Rattle.close_rects.specs.Items.{left_of};
    ghost use Rattle.geom_core.specs.Extent.{Extent};
    ghost use Rattle.std.specs.Prelude.{List, ℕ};

    ghost Value = { List (ℕ × Extent) };

    ghost view = { λ a. left_of a.indexed };
}

impl RectSet {
    ghost use Rattle.close_rects.specs.RectSets.{IsHeldBy, NoneIn, Takes};
    ghost use Rattle.geom_core.specs.Rectangles.{Encloses, Meet};
    ghost use Rattle.std.specs.List.{enumerate_from};
    ghost use Rattle.std.specs.List.Sorted.{IsPermutation};
    ghost use Rattle.std.specs.Prelude.{◌≡◌, ◌<◌, ◌^◌, length, IfNone, IfOk, IfSome};

    /// All rectangles of a list, each with its number there, from 0 on. There are fewer than 2^32. The one error is want of memory.
    pub fn new(alloc: Global, rects: &[Rect]) -> Result<RectSet, AllocError>
        requires few { length rects.now < 2 ^ 32 }
        ensures { IfOk result (IsPermutation (enumerate_from 0 rects.now)) }
    {
        let items = Items::numbered(alloc, rects)?.ordered();
        Ok(RectSet {
            indexed: Indexed::of(alloc, items)?,
        })
    }

    /// Takes out one of those left that share a point with a rectangle, and gives its number; None where there is none, and then
    /// nothing changes. Takes no memory.
    pub fn take(&mut self, rect: &Rect) -> Option<u32>
        ensures taken { IfSome result (λ number. Takes rect.now number self.old self.new) }
        ensures none { IfNone result (NoneIn (Meet rect.now) self.old) }
        ensures same { IfNone result (self.new ≡ self.old) }
    {
        let window = Bounds::of(rect);
        self.indexed.take_meeting(&window)
    }

    /// The number of one of those left in which a rectangle lies, side on side too; None where it lies in none. Takes no memory.
    pub fn holder(&self, rect: &Rect) -> Option<u32>
        ensures found { IfSome result (IsHeldBy rect.now self.now) }
        ensures none { IfNone result (NoneIn (λ held. Encloses held rect.now) self.now) }
    {
        let window = Bounds::inside_out(rect);
        let at = self.indexed.first_meeting(&window, 0)?;
        Some(self.indexed.items().at(at).number)
    }
}
