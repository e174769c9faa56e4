//! Shapes on layers, named cells, and the layout of both.

use crate::items::Items;
use crate::layer::LayerName;
use crate::name::Name;
use crate::rect::Rect;
use crate::turn::Turn;

/// A rectangle on a layer of the mask.
#[derive(Clone, Copy, Debug, PartialEq, Eq)]
pub struct Shape {
    pub layer: LayerName,
    pub rect: Rect,
}

/// A named cell of a layout: the symbol that it is a copy of, where that copy stands, and its shapes, which are `count`
/// shapes of the layout from number `first` on.
#[derive(Debug, Drop)]
pub struct Cell {
    pub name: Name,
    pub symbol: Name,
    pub turn: Turn,
    pub first: u32,
    pub count: u32,
}

/// A layout: its named cells, and all its shapes, those of the cells among them, in order.
#[derive(Debug, Drop)]
pub struct Layout {
    pub cells: Items<Cell>,
    pub shapes: Items<Shape>,
}
