//! Members by their places in a list, and their rectangles numbered by these.

ghost use Rattle.close_rects.specs.Crowds.{area};
ghost use Rattle.std.specs.Prelude.{◌≡◌, map, IfOk};

use crate::items::Items;
use crate::member::Member;
use geom_core::Rect;
use std::alloc::{AllocError, Global};
use std::marker::Model;

// Members, fewer than 2^32, with sides and reaches that are within reach.
#[derive(Drop)]
pub(crate) struct Members<'a> {
    list: &'a [Member],
}

impl<'a> Model for Members<'a> {
    ghost use Rattle.close_rects.specs.Crowds.{KeepsInReach};
    ghost use Rattle.close_rects.specs.declared.member.Member.{Member};
    ghost use Rattle.std.specs.Prelude.{◌<◌, ◌^◌, List, length, All};

    ghost Value = { List Member };

    ghost view = { λ a. a.list.now };

    ghost invariant = { λ a. (length a.list.now < 2 ^ 32) × All KeepsInReach a.list.now };
}

impl<'a> Members<'a> {
    ghost use Rattle.close_rects.specs.Crowds.{KeepsInReach};
    ghost use Rattle.close_rects.specs.Kins.{ArePlaced, class_of};
    ghost use Rattle.std.specs.List.{slice_get};
    ghost use Rattle.std.specs.Prelude.{◌≡◌, ◌<◌, ◌^◌, length, All, IfOk, Some};

    pub(crate) fn new(list: &'a [Member]) -> Members<'a>
        requires few { length list.now < 2 ^ 32 }
        requires reach { All KeepsInReach list.now }
        ensures { result ≡ list.now }
    {
        Members { list }
    }

    pub(crate) fn len(&self) -> usize
        ensures { result ≡ length self.now }
    {
        self.list.len()
    }

    pub(crate) fn at(&self, place: usize) -> Member
        requires { place < length self.now }
        ensures is { slice_get self.now place ≡ Some result }
        ensures reach { KeepsInReach result }
    {
        let list = self.list;
        list[place]
    }

    // The class of the member at a place.
    pub(crate) fn class_at(&self, place: u32) -> u32
        requires { place < length self.now }
        ensures { result ≡ class_of self.now place }
    {
        let list = self.list;
        list[place as usize].class
    }

    // The members' rectangles, each with its place in the list, such that those near each other have places near each other. The
    // one error is want of memory.
    pub(crate) fn items(&self, alloc: Global) -> Result<Items, AllocError>
        ensures { IfOk result (ArePlaced self.now) }
    {
        let rects = rects_of(alloc, self.list)?;
        let items = Items::numbered(alloc, rects.as_slice())?;
        Ok(items.ordered())
    }
}

fn rects_of(alloc: Global, members: &[Member]) -> Result<Vec<Rect>, AllocError>
    ensures { IfOk result (λ v. v.items ≡ map area members.now) }
{
    members.iter().map(|member| member.rect).collect(alloc)
}
