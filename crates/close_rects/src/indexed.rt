//! Rectangles indexed by blocks: the first that meets a window is found, or taken out.

ghost use Rattle.close_rects.specs.Blocks.{IsMet};
ghost use Rattle.std.specs.Prelude.{◌↔◌, IsTrue};

use crate::blocks::{BLOCK, Node, own_bounds, single_nodes};
use crate::bounds::Bounds;
use crate::items::{Item, Items};
use crate::span::Span;
use std::alloc::{AllocError, Global};
use std::marker::Model;

// Rectangles with a node for each block of them, by which those that meet a window are found. Contracts see the rectangles.
#[derive(Drop)]
pub(crate) struct Indexed {
    items: Items,
    nodes: Vec<Node>,
}

impl Model for Indexed {
    ghost use Rattle.close_rects.specs.declared.items.Item.{Item};
    ghost use Rattle.std.specs.Prelude.{List};

    ghost Value = { List Item };

    ghost view = { λ a. a.items };

    ghost use Rattle.close_rects.specs.Blocks.{IsIndexed};

    ghost invariant = { λ a. IsIndexed a.items a.nodes.items };
}

impl Indexed {
    ghost use Rattle.close_rects.specs.Blocks.{IsFirstMet, NoneMet};
    ghost use Rattle.close_rects.specs.Items.{left_of};
    ghost use Rattle.close_rects.specs.RectSets.{NoneIn, Takes};
    ghost use Rattle.geom_core.specs.Rectangles.{Meet};
    ghost use Rattle.std.specs.Prelude.{◌≡◌, ◌<◌, ◌≤◌, length, IfNone, IfOk, IfSome};

    // The one error is want of memory.
    pub(crate) fn of(alloc: Global, items: Items) -> Result<Indexed, AllocError>
        ensures { IfOk result (λ indexed. indexed ≡ items) }
    {
        let nodes = single_nodes(alloc, &items)?;
        let mut indexed = Indexed { items, nodes };
        indexed.join_all();
        Ok(indexed)
    }

    // Lends the rectangles.
    pub(crate) fn items(&self) -> &Items
        ensures { result.now ≡ self.now }
    {
        &self.items
    }

    // Lets each node tell of as many blocks as its number has it: those up to the next one whose number has a greater power of two
    // as its factor.
    fn join_all(&mut self)
        ensures { self.new ≡ self.old }
    {
        let count = self.nodes.len();
        let mut b = count;
        while b > 0 {
            b -= 1;
            let _ = self.join(b, Span::one().widest(b, count));
        }
    }

    // Takes the bounds of each node anew that tells of block b, until some stay as they were.
    fn join_above(&mut self, b: usize)
        ensures { self.new ≡ self.old }
    {
        let count = self.nodes.len();
        let mut span = Span::one().widest(b, count);
        let mut changed = self.join(b, span);
        while span.blocks < count && changed {
            let double = span.doubled();
            let above = b - b % double.blocks;
            span = double.widest(above, count);
            changed = self.join(above, span);
        }
    }

    // Lets node b tell of so many blocks, or more, by what the nodes after it tell. Answers whether its bounds round these have
    // changed, on which only time depends.
    fn join(&mut self, b: usize, span: Span) -> bool
        ensures { self.new ≡ self.old }
    {
        let count = self.nodes.len();
        if b >= count {
            return false;
        }
        let node = self.nodes[b];
        let end = count.min(b.saturating_add(span.blocks));
        let mut all = node.own;
        let mut next = b + 1;
        while next < end {
            let further = self.nodes[next];
            all = all.over(&further.all);
            next = further.next;
        }
        self.nodes[b] = Node { all, next, ..node };
        all != node.all
    }

    // The first place from `from` on of a rectangle that is left and meets the window.
    pub(crate) fn first_meeting(&self, window: &Bounds, from: usize) -> Option<usize>
        ensures first { IfSome result (IsFirstMet self.now window.now from) }
        ensures none { IfNone result (NoneMet self.now window.now from (length self.now)) }
    {
        let mut at = from;
        while at < self.items.len() {
            let next = self.passed(window, at);
            if next > at {
                at = next;
            } else if is_met(self.items.at(at), window) {
                return Some(at);
            } else {
                at += 1;
            }
        }
        None
    }

    // A place up to which no rectangle from place `at` on meets the window, by the bounds of a block that begins there.
    pub(crate) fn passed(&self, window: &Bounds, at: usize) -> usize
        ensures on { at ≤ result }
        ensures none { NoneMet self.now window.now at result }
    {
        let b = at / BLOCK;
        if at % BLOCK != 0 || b >= self.nodes.len() {
            return at;
        }
        let node = self.nodes[b];
        if !window.meets(&node.all) {
            BLOCK * node.next
        } else if !window.meets(&node.own) {
            at + BLOCK
        } else {
            at
        }
    }

    // Takes out the first rectangle that is left and meets the window, and gives its number; None where there is none, and then
    // nothing changes.
    pub(crate) fn take_meeting(&mut self, window: &Bounds) -> Option<u32>
        ensures taken { IfSome result (λ number. Takes window.now number (left_of self.old) (left_of self.new)) }
        ensures none { IfNone result (NoneIn (Meet window.now) (left_of self.old)) }
        ensures same { IfNone result (self.new ≡ self.old) }
    {
        let at = self.first_meeting(window, 0)?;
        let number = self.items.at(at).number;
        self.items.take(at);
        self.renew(at / BLOCK);
        Some(number)
    }

    // After what is left of block b has changed: its own bounds, and those of each node that tells of it, are taken anew.
    fn renew(&mut self, b: usize)
        ensures { self.new ≡ self.old }
    {
        if b < self.nodes.len() {
            let node = self.nodes[b];
            self.nodes[b] = Node {
                own: own_bounds(&self.items, b),
                ..node
            };
            self.join_above(b);
        }
    }
}

// Whether a rectangle is left and meets the window.
pub(crate) fn is_met(item: Item, window: &Bounds) -> bool
    ensures { IsTrue result ↔ IsMet window.now item }
{
    !item.taken && window.meets(&Bounds::of(&item.rect))
}
