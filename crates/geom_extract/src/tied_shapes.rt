//! Shapes with their ties and layers, and the rectangles by which they are linked.

use crate::asker::Asker;
use crate::plane::{plane_of, raised, tie_at};
use crate::walked::Classes;
use crate::web::Web;
use geom_core::{Rect, Shape};
use std::alloc::{AllocError, Global};
use std::marker::Model;
use tech_rules::Rules;

// Shapes, some pairs of which are tied, and the rules of their layers.
#[derive(Drop)]
pub(crate) struct TiedShapes<'a> {
    shapes: &'a [Shape],
    ties: &'a [(u32, u32)],
    rules: &'a Rules,
}

impl<'a> Model for TiedShapes<'a> {
    ghost use Rattle.geom_extract.specs.Touching.{Tied};

    ghost Value = { Tied };

    ghost use Rattle.geom_extract.specs.TiedView.{tied_in, AreTied};

    ghost view = { tied_in };

    ghost invariant = { AreTied };
}

impl<'a> TiedShapes<'a> {
    ghost use Rattle.geom_core.specs.Reach.{IsShapeInReach};
    ghost use Rattle.geom_extract.specs.Planes.{tie_at};
    ghost use Rattle.geom_extract.specs.Touching.{Connected, IsWebOf, Tied, asks_from, firsts, rect_of, seconds};
    ghost use Rattle.std.specs.List.{range_with_len};
    ghost use Rattle.std.specs.Prelude.{◌≡◌, ◌<◌, ◌↔◌, ◌^◌, ◌++◌, length, map, slice_index, All, IfOk, ℕ};

    pub(crate) fn new(
        shapes: &'a [Shape],
        ties: &'a [(u32, u32)],
        rules: &'a Rules,
    ) -> TiedShapes<'a>
        requires few { length shapes.now < 2 ^ 32 }
        requires reach { All IsShapeInReach shapes.now }
        requires ties { All (λ t. (t.0 < length shapes.now) × (t.1 < length shapes.now)) ties.now }
        ensures shapes { result.shapes ≡ shapes.now }
        ensures ties { result.ties ≡ ties.now }
        ensures rules { result.rules ≡ rules.now }
    {
        TiedShapes {
            shapes,
            ties,
            rules,
        }
    }

    // A number for each shape: two have equal numbers exactly where a chain leads from the one to the other in which each shape
    // touches the next or is tied to it. The one error is want of memory.
    pub(crate) fn classes(&self, alloc: Global) -> Result<Vec<u32>, AllocError>
        ensures len { IfOk result (λ v. length v.items ≡ length self.now.shapes) }
        ensures classes { IfOk result (λ v. (x y : ℕ) → x < length v.items → y < length v.items → (slice_index v.items x ≡ slice_index v.items y) ↔ Connected self.now.rules self.now.shapes self.now.ties x y) }
    {
        // The bounds of the rules' type are known once a field is read.
        let rules = self.rules;
        let _ = &rules.version;
        let web = self.web(alloc)?;
        Classes::all(alloc, &web)
    }

    // The web of these shapes. The one error is want of memory.
    fn web(&self, alloc: Global) -> Result<Web, AllocError>
        ensures { IfOk result (IsWebOf self.now.rules self.now.shapes self.now.ties) }
    {
        let rules = self.rules;
        let _ = &rules.version;
        let rects = self.rects(alloc)?;
        if rects.len() > u32::MAX as usize {
            return Err(AllocError);
        }
        Ok(Web {
            rects,
            ends: self.ends(alloc)?,
            asks: self.asks(alloc)?,
        })
    }

    // The rectangles of the shapes, and then for each tie those of its first shapes, and those of its second.
    fn rects(&self, alloc: Global) -> Result<Vec<Rect>, AllocError>
        ensures { IfOk result (λ v. v.items ≡ map (rect_of self.now.rules) self.now.shapes ++ (map tie_at (firsts self.now.ties) ++ map tie_at (seconds self.now.ties))) }
    {
        let (shapes, ties, rules) = (self.shapes, self.ties, self.rules);
        let mut rects = Vec::with_capacity(alloc, shapes.len())?;
        for shape in shapes {
            rects.push(raised(&shape.rect, plane_of(rules, &shape.layer)))?;
        }
        for tie in ties {
            rects.push(tie_at(tie.0))?;
        }
        for tie in ties {
            rects.push(tie_at(tie.1))?;
        }
        Ok(rects)
    }

    // The shapes to which these lead.
    fn ends(&self, alloc: Global) -> Result<Vec<u32>, AllocError>
        ensures { IfOk result (λ v. v.items ≡ range_with_len 0 (length self.now.shapes) ++ (seconds self.now.ties ++ firsts self.now.ties)) }
    {
        let (count, ties) = (self.shapes.len(), self.ties);
        let mut ends = Vec::with_capacity(alloc, count)?;
        for k in 0..count {
            ends.push(k as u32)?;
        }
        for tie in ties {
            ends.push(tie.1)?;
        }
        for tie in ties {
            ends.push(tie.0)?;
        }
        Ok(ends)
    }

    // What each shape asks with.
    fn asks(&self, alloc: Global) -> Result<Vec<Asker>, AllocError>
        ensures { IfOk result (λ v. v.items ≡ asks_from self.now.rules 0 self.now.shapes) }
    {
        let (shapes, rules) = (self.shapes, self.rules);
        let mut asks = Vec::with_capacity(alloc, shapes.len())?;
        for k in 0..shapes.len() {
            asks.push(Asker::new(plane_of(rules, &shapes[k].layer), &shapes[k].rect, k as u32))?;
        }
        Ok(asks)
    }
}
