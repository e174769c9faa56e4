//! Members in blocks by their places, and the first of another class that meets a window.

use crate::blocks::BLOCK;
use crate::bounds::Bounds;
use crate::indexed::{Indexed, is_met};
use crate::items::Items;
use crate::kin::{Kin, common};
use crate::members::Members;
use crate::span::Span;
use std::alloc::{AllocError, Global};
use std::marker::Model;

// Members, their rectangles in blocks by their places, and the kin of each block. Contracts see the members and the rectangles.
#[derive(Drop)]
pub(crate) struct Crowd<'a> {
    members: Members<'a>,
    indexed: Indexed,
    kins: Vec<Kin>,
}

impl<'a> Model for Crowd<'a> {
    ghost use Rattle.close_rects.specs.Kins.{Crowded};

    ghost Value = { Crowded };

    ghost use Rattle.close_rects.specs.CrowdView.{crowded_in, IsCrowd};

    ghost view = { crowded_in };

    ghost invariant = { IsCrowd };
}

impl<'a> Crowd<'a> {
    ghost use Rattle.close_rects.specs.Kins.{AreOfClass, ArePlaced, IsFirstStranger, IsStranger, NoneStrange, class_of};
    ghost use Rattle.close_rects.specs.declared.items.Item.{Item};
    ghost use Rattle.std.specs.List.{slice_get};
    ghost use Rattle.std.specs.Prelude.{◌≡◌, ◌+◌, ◌*◌, ◌<◌, ◌≤◌, ◌↔◌, length, IfNone, IfOk, IfSome, IsTrue, OnOk, Some};

    // The one error is want of memory.
    pub(crate) fn of(alloc: Global, members: Members<'a>) -> Result<Crowd<'a>, AllocError>
        ensures { IfOk result (λ crowd. crowd.members ≡ members.entry) }
    {
        let items = members.items(alloc)?;
        let blocks = items.len().div_ceil(BLOCK);
        let mut crowd = Crowd {
            members,
            indexed: Indexed::of(alloc, items)?,
            kins: Vec::with_capacity(alloc, blocks)?,
        };
        crowd.add_kins(blocks)?;
        crowd.join_all();
        Ok(crowd)
    }

    // Lends the members.
    pub(crate) fn members(&self) -> &Members<'a>
        ensures is { result.now ≡ self.now.members }
        ensures placed { ArePlaced self.now.members self.now.items }
    {
        &self.members
    }

    // Lends the rectangles.
    pub(crate) fn items(&self) -> &Items
        ensures { result.now ≡ self.now.items }
    {
        self.indexed.items()
    }

    // Adds the kin of this many blocks, where only their own classes are looked for. The one error is want of memory.
    fn add_kins(&mut self, count: usize) -> Result<(), AllocError>
        ensures { OnOk result (self.new ≡ self.old) }
    {
        for b in 0..count {
            let own = self.block_class(self.kins.len());
            let next = self.kins.len() + 1;
            self.kins.push(Kin {
                own,
                all: None,
                next,
            })?;
        }
        Ok(())
    }

    // The one class of the items of a block, if there is one.
    fn block_class(&self, b: usize) -> Option<u32>
        ensures { IfSome result (AreOfClass self.now.members self.now.items (8 * b) (8 * b + 8)) }
    {
        let start = BLOCK.saturating_mul(b);
        let count = self.items().len();
        if start >= count {
            return None;
        }
        let class = self.class_at(start);
        for at in start..count.min(start.saturating_add(BLOCK)) {
            if self.class_at(at) != class {
                return None;
            }
        }
        Some(class)
    }

    // The class of the member whose rectangle stands at a place.
    fn class_at(&self, at: usize) -> u32
        requires { at < length self.now.items }
        ensures { (item : Item) → slice_get self.now.items at ≡ Some item → result ≡ class_of self.now.members item.number }
    {
        self.members.class_at(self.items().at(at).number)
    }

    // Looks for the one class of the blocks of which each kin tells, from the last block on, by those that are known.
    fn join_all(&mut self)
        ensures { self.new ≡ self.old }
    {
        let count = self.kins.len();
        let mut b = count;
        while b > 0 {
            b -= 1;
            self.join(b, Span::one().widest(b, count));
        }
    }

    // Lets the kin of block b tell of so many blocks, or more, by what the kin after it tell.
    fn join(&mut self, b: usize, span: Span)
        ensures { self.new ≡ self.old }
    {
        let count = self.kins.len();
        if b >= count {
            return;
        }
        let kin = self.kins[b];
        let end = count.min(b.saturating_add(span.blocks));
        let mut all = kin.own;
        let mut next = b + 1;
        while next < end {
            let further = self.kins[next];
            all = common(all, further.all);
            next = further.next;
        }
        self.kins[b] = Kin { all, next, ..kin };
    }

    // The first place from `from` on of a member of another class than this one that meets the window.
    pub(crate) fn first_stranger(&self, window: &Bounds, class: u32, from: usize) -> Option<usize>
        ensures first { IfSome result (IsFirstStranger self.now.members self.now.items window.now class from) }
        ensures none { IfNone result (NoneStrange self.now.members self.now.items window.now class from (length self.now.items)) }
    {
        let mut at = from;
        while at < self.items().len() {
            let next = self.passed(window, class, at);
            if next > at {
                at = next;
            } else if self.class_at(at) != class && is_met(self.items().at(at), window) {
                return Some(at);
            } else {
                at += 1;
            }
        }
        None
    }

    // A place up to which none from place `at` on is a stranger, by the bounds and the kin of a block that begins there.
    fn passed(&self, window: &Bounds, class: u32, at: usize) -> usize
        ensures on { at ≤ result }
        ensures none { NoneStrange self.now.members self.now.items window.now class at result }
    {
        let met = self.indexed.passed(window, at);
        if met > at {
            met
        } else {
            self.passed_kin(class, at)
        }
    }

    // A place up to which all from place `at` on are of the class, by the kin of a block that begins there.
    fn passed_kin(&self, class: u32, at: usize) -> usize
        ensures on { at ≤ result }
        ensures kin { AreOfClass self.now.members self.now.items at result class }
    {
        let b = at / BLOCK;
        if at % BLOCK != 0 || b >= self.kins.len() {
            return at;
        }
        let kin = self.kins[b];
        if kin.all == Some(class) {
            BLOCK.saturating_mul(kin.next)
        } else if kin.own == Some(class) {
            at.saturating_add(BLOCK)
        } else {
            at
        }
    }
}
