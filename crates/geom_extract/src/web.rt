//! Rectangles that lead to shapes, and those with which each shape asks for the shapes that it is linked to.

use crate::asker::Asker;
use geom_core::Rect;
use std::marker::Model;

// Rectangles, each of which leads to a shape, and what each shape asks for: it is linked to the shapes to which those lead that
// meet a rectangle of its own. Links go both ways.
#[derive(Drop)]
pub(crate) struct Web {
    pub(crate) rects: Vec<Rect>,
    pub(crate) ends: Vec<u32>,
    pub(crate) asks: Vec<Asker>,
}

impl Model for Web {
    ghost use Rattle.geom_extract.specs.Webs.{IsWeb, Web as Links};

    ghost Value = { Links };

    ghost view = { λ a. record { rects = a.rects.items; ends = a.ends.items; asks = a.asks.items } };

    ghost invariant = { λ a. IsWeb (record { rects = a.rects.items; ends = a.ends.items; asks = a.asks.items }) };
}
