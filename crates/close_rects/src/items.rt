//! Numbered rectangles, each left or taken, in an order in which near ones stand near each other.

ghost use Rattle.close_rects.specs.Items.{fresh, HasInside};
ghost use Rattle.std.specs.Prelude.{◌≡◌};

use crate::order::order;
use geom_core::Rect;
use std::alloc::{AllocError, Global};
use std::marker::Model;

// A rectangle with its number in the list that was handed in, and whether it has been taken.
#[derive(Clone, Copy)]
pub(crate) struct Item {
    pub(crate) rect: Rect,
    pub(crate) number: u32,
    pub(crate) taken: bool,
}

fn fresh(rect: &Rect, number: u32) -> Item
    ensures made { result ≡ fresh (number, rect.now) }
    ensures inside { HasInside rect.now }
{
    let _ = &rect.x0;
    Item {
        rect: *rect,
        number,
        taken: false,
    }
}

// Numbered rectangles, fewer than 2^32.
#[derive(Drop)]
pub(crate) struct Items {
    list: Vec<Item>,
}

impl Model for Items {
    ghost use Rattle.close_rects.specs.declared.items.Item.{Item};
    ghost use Rattle.std.specs.Prelude.{◌<◌, ◌^◌, List, length};

    ghost Value = { List Item };

    ghost view = { λ a. a.list.items };

    ghost invariant = { λ a. length a.list.items < 2 ^ 32 };
}

impl Items {
    ghost use Rattle.close_rects.specs.Items.{fresh, HasInside};
    ghost use Rattle.close_rects.specs.declared.items.Item.{Item};
    ghost use Rattle.std.specs.List.{enumerate_from, slice_get};
    ghost use Rattle.std.specs.List.Sorted.{IsPermutation};
    ghost use Rattle.std.specs.Prelude.{◌≡◌, ◌<◌, ◌^◌, true, length, map, slice_set, All, IfOk, OnOk, Some};

    // Rectangles with their places in a list as their numbers. The one error is want of memory.
    pub(crate) fn numbered(alloc: Global, rects: &[Rect]) -> Result<Items, AllocError>
        requires { length rects.now < 2 ^ 32 }
        ensures numbered { IfOk result (λ v. v ≡ map fresh (enumerate_from 0 rects.now)) }
        ensures inside { OnOk result (All HasInside rects.now) }
    {
        let mut list = Vec::with_capacity(alloc, rects.len())?;
        for k in 0..rects.len() {
            list.push(fresh(&rects[k], k as u32))?;
        }
        Ok(Items { list })
    }

    // The same rectangles in an order in which those near each other have places near each other.
    pub(crate) fn ordered(self) -> Items
        ensures { IsPermutation self result }
    {
        let mut list = self.list;
        order(list.as_mut_slice());
        Items { list }
    }

    pub(crate) fn len(&self) -> usize
        ensures is { result ≡ length self.now }
        ensures few { result < 2 ^ 32 }
    {
        self.list.len()
    }

    pub(crate) fn at(&self, place: usize) -> Item
        requires { place < length self.now }
        ensures is { slice_get self.now place ≡ Some result }
        ensures few { place < 2 ^ 32 }
    {
        self.list[place]
    }

    // Notes that the rectangle at a place has been taken.
    pub(crate) fn take(&mut self, place: usize)
        requires { place < length self.old }
        ensures { (item : Item) → slice_get self.old place ≡ Some item → self.new ≡ slice_set self.old place (record item { taken = true }) }
    {
        let item = self.at(place);
        self.list[place] = Item {
            taken: true,
            ..item
        };
    }
}
