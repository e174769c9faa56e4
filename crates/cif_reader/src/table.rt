//! A symbol as it is kept: its own shapes and its calls of earlier symbols, and the shapes that these draw.

ghost use Rattle.cif_reader.specs.Table.{AreKept, IsItem, items_drawn, symbols_of};
ghost use Rattle.cif_reader.specs.Within.{IsShapeWithin};
ghost use Rattle.cif_text.specs.Symbols.{moved_shapes};
ghost use Rattle.geom_core.specs.Moving.{moved_shape};
ghost use Rattle.std.specs.List.{AllByRecursion};
ghost use Rattle.std.specs.Prelude.{◌≡◌, ◌++◌, length, IfOk, OnOk};

use crate::near_turn::NearTurn;
use geom_core::{Name, Rect, Shape, moved};
use std::alloc::{AllocError, Global};

/// What a definition draws: a shape of its own, or the shapes of an earlier symbol, by its place in the table, under a turn.
#[derive(Clone, Copy, Debug)]
pub(crate) enum Item {
    Own(Shape),
    Copied { of: usize, turn: NearTurn },
}

/// A symbol as it is kept: what it draws, how many shapes that is, a rectangle around them if there are any, and its depth.
#[derive(Debug, Drop)]
pub(crate) struct Kept {
    pub(crate) number: u64,
    pub(crate) name: Option<Name>,
    pub(crate) items: Vec<Item>,
    pub(crate) count: u32,
    pub(crate) bounds: Option<Rect>,
    pub(crate) depth: u32,
}

fn moved_shape(shape: &Shape, turn: &NearTurn) -> Shape
    requires { IsShapeWithin shape.now }
    ensures { result ≡ moved_shape turn.now shape.now }
{
    Shape {
        layer: shape.layer,
        rect: moved(&shape.rect, turn.turn()),
    }
}

/// Puts shapes under a turn behind others.
pub(crate) fn push_moved(
    into: &mut Vec<Shape>,
    shapes: &[Shape],
    turn: &NearTurn,
) -> Result<(), AllocError>
    requires { AllByRecursion IsShapeWithin shapes.now }
    ensures { OnOk result (into.new.items ≡ into.old.items ++ moved_shapes turn.now shapes.now) }
{
    let mut rest = shapes;
    while let Some((shape, after)) = rest.split_first() {
        into.push(moved_shape(shape, turn))?;
        rest = after;
    }
    Ok(())
}

/// The shapes that items draw, which copy the symbols of this table.
pub(crate) fn drawn(alloc: Global, table: &[Kept], items: &[Item]) -> Result<Vec<Shape>, AllocError>
    requires table { AreKept table.now }
    requires items { AllByRecursion (IsItem (length table.now)) items.now }
    ensures { IfOk result (λ shapes. shapes.items ≡ items_drawn (symbols_of table.now) items.now) }
{
    let mut shapes = Vec::new(alloc);
    let mut rest = items;
    while let Some((item, after)) = rest.split_first() {
        match item {
            Item::Own(shape) => shapes.push(*shape)?,
            Item::Copied { of, turn } => {
                let copied = drawn(alloc, &table[..*of], table[*of].items.as_slice())?;
                push_moved(&mut shapes, copied.as_slice(), turn)?;
            }
        }
        rest = after;
    }
    Ok(shapes)
}
