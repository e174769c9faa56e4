//! The classes of shapes, given by a walk from each shape that has none yet.

use crate::walk::{NONE, Walk};
use crate::web::Web;
use close_rects::RectSet;
use std::alloc::{AllocError, Global};
use std::marker::Model;

// The classes that shapes of a web have been given: each is the number of a shape from which a chain leads to it, and what a
// shape with a class is linked to has the same. Contracts see the web and the classes.
#[derive(Drop)]
pub(crate) struct Classes<'w> {
    web: &'w Web,
    set: RectSet,
    list: Vec<u32>,
}

impl<'w> Model for Classes<'w> {
    ghost use Rattle.geom_extract.specs.Walks.{Classed};

    ghost Value = { Classed };

    ghost use Rattle.geom_extract.specs.ClassesView.{classed_in, AreSettled};

    ghost view = { classed_in };

    ghost invariant = { AreSettled };
}

impl<'w> Classes<'w> {
    ghost use Rattle.geom_extract.specs.Walks.{IsFree, IsGrown};
    ghost use Rattle.geom_extract.specs.Webs.{Chain};
    ghost use Rattle.std.specs.Prelude.{◌≡◌, ◌<◌, ◌↔◌, length, slice_index, IfOk, ℕ};

    // A number for each shape of a web: two shapes have equal numbers exactly where a chain of links leads from one to the other.
    // The one error is want of memory.
    pub(crate) fn all(alloc: Global, web: &'w Web) -> Result<Vec<u32>, AllocError>
        ensures len { IfOk result (λ v. length v.items ≡ length web.now.asks) }
        ensures classes { IfOk result (λ v. (x y : ℕ) → x < length v.items → y < length v.items → (slice_index v.items x ≡ slice_index v.items y) ↔ Chain web.now x y) }
    {
        let mut classes = Classes::none(alloc, web)?;
        for start in 0..web.asks.len() {
            classes = classes.walk(alloc, start as u32)?;
        }
        Ok(classes.list)
    }

    // No shape has a class. The one error is want of memory.
    fn none(alloc: Global, web: &'w Web) -> Result<Classes<'w>, AllocError>
        ensures { IfOk result (λ made. made.web ≡ web.now) }
    {
        let set = RectSet::new(alloc, web.rects.as_slice())?;
        let list = vec![in alloc; NONE; web.asks.len()]?;
        Ok(Classes { web, set, list })
    }

    // A shape that has no class, and all that a chain leads to from it, get the shape's number as their class. Each shape is
    // put in the queue once, and from each in the queue all rectangles are taken that meet what it asks with. The one error is
    // want of memory.
    fn walk(self, alloc: Global, start: u32) -> Result<Classes<'w>, AllocError>
        ensures web { IfOk result (λ walked. walked.web ≡ self.entry.web) }
        ensures grown { IfOk result (λ walked. IsGrown self.entry.classes walked.classes) }
        ensures reached { IfOk result (λ walked. IsFree walked.classes start → ⊥) }
    {
        let at = start as usize;
        if at >= self.list.len() || self.list[at] != NONE {
            return Ok(self);
        }
        // The bounds of the web's type are known once a field is read.
        let web = self.web;
        let _ = &web.asks;
        let mut classes = self.list;
        let mut queue = Vec::new(alloc);
        classes[at] = start;
        queue.push(start)?;
        let mut walk = Walk {
            web,
            set: self.set,
            classes,
            queue,
            start,
        };
        let mut at = 0;
        while at < walk.queue.len() {
            let x = walk.queue[at];
            walk.visit(x)?;
            at += 1;
        }
        Ok(Classes {
            web: walk.web,
            set: walk.set,
            list: walk.classes,
        })
    }
}
