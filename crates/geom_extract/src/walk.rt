//! A walk from one shape to all that it is joined with, which takes each rectangle out as it meets it.

ghost use Rattle.geom_extract.specs.Walks.{IsReached};
ghost use Rattle.std.specs.Prelude.{◌<◌, ◌∷◌, ◌++◌, [], length, OnErr, OnOk};

use crate::web::Web;
use close_rects::RectSet;
use geom_core::Rect;
use std::alloc::{AllocError, Global};
use std::marker::Model;

// The class of a shape that has none yet.
pub(crate) const NONE: u32 = u32::MAX;

// A walk from a shape of a web along all chains: the rectangles that have not been met yet, the classes of shapes, and the
// shapes in the order in which they were come to. Contracts see all of it but the rectangles.
#[derive(Drop)]
pub(crate) struct Walk<'w> {
    pub(crate) web: &'w Web,
    pub(crate) set: RectSet,
    pub(crate) classes: Vec<u32>,
    pub(crate) queue: Vec<u32>,
    pub(crate) start: u32,
}

impl<'w> Model for Walk<'w> {
    ghost use Rattle.geom_extract.specs.Walks.{Walking};

    ghost Value = { Walking };

    ghost use Rattle.geom_extract.specs.WalkView.{walking_in, IsWalking};

    ghost view = { walking_in };

    ghost invariant = { IsWalking };
}

impl<'w> Walk<'w> {
    ghost use Rattle.geom_extract.specs.Walks.{IsGone};
    ghost use Rattle.geom_extract.specs.Webs.{Leads, Linked};
    ghost use Rattle.std.specs.Prelude.{◌≡◌, ◌<◌, length, OnOk};

    // Takes all rectangles that meet what a shape asks with. The one error is want of memory.
    pub(crate) fn visit(&mut self, x: u32) -> Result<(), AllocError>
        requires { x < length self.old.web.asks }
        ensures web { self.new.web ≡ self.old.web }
        ensures start { self.new.start ≡ self.old.start }
        ensures gone { OnOk result (IsGone self.old.web self.old.start (Linked self.old.web x) self.old.classes self.old.queue self.new.classes self.new.queue) }
    {
        let web = self.web;
        let asks = web.asks[x as usize].asks();
        self.take_all(&asks.first)?;
        self.take_all(&asks.second)?;
        self.take_all(&asks.third)?;
        Ok(())
    }

    // Takes all rectangles that meet this one, and gives the shapes to which they lead the class if they have none.
    fn take_all(&mut self, ask: &Rect) -> Result<(), AllocError>
        ensures web { self.new.web ≡ self.old.web }
        ensures start { self.new.start ≡ self.old.start }
        ensures gone { OnOk result (IsGone self.old.web self.old.start (Leads self.old.web ask.now) self.old.classes self.old.queue self.new.classes self.new.queue) }
    {
        let web = self.web;
        while let Some(number) = self.set.take(ask) {
            let x = web.ends[number as usize];
            reach(x, self.start, &mut self.classes, &mut self.queue)?;
        }
        Ok(())
    }
}

// Gives a shape the class if it is there and has none, and puts it in the queue then.
fn reach(x: u32, start: u32, classes: &mut Vec<u32>, queue: &mut Vec<u32>) -> Result<(), AllocError>
    ensures reached { OnOk result (IsReached x start classes.old.items classes.new.items queue.old.items queue.new.items) }
    ensures begun { OnErr result (IsReached x start classes.old.items classes.new.items queue.old.items (queue.old.items ++ x ∷ [])) }
{
    let at = x as usize;
    if at < classes.len() && classes[at] == NONE {
        classes[at] = start;
        queue.push(x)?;
    }
    Ok(())
}
