//! A box, a wire or a call more for the symbol that is being defined, with its shape count, rectangle and depth kept up.

ghost use Rattle.cif_reader.specs.Growing.{Grows, HasItem};
ghost use Rattle.cif_reader.specs.Limits.{most_shapes};
ghost use Rattle.cif_reader.specs.Sides.{AreProper};
ghost use Rattle.cif_reader.specs.Standing.{IsSoundIn, depth_made, shapes_made};
ghost use Rattle.cif_reader.specs.Table.{IsKeptBehind};
ghost use Rattle.cif_reader.specs.Tabled.{Tabled};
ghost use Rattle.cif_reader.specs.Within.{IsShapeWithin};
ghost use Rattle.cif_text.specs.Symbols.{Symbol};
ghost use Rattle.std.specs.List.{AllByRecursion};
ghost use Rattle.std.specs.Prelude.{◌≡◌, ◌+◌, ◌≤◌, List, length, max, Ok, OnOk};

use crate::bounds::{joined, moved_bounds};
use crate::level::Given;
use crate::table::{Item, Kept};
use geom_core::{Rect, Shape};
use std::alloc::AllocError;

/// Gives a symbol one item more, of so many shapes in this rectangle, which makes this depth.
fn push_item(
    kept: &mut Kept,
    item: Item,
    count: u32,
    bounds: Option<Rect>,
    depth: u32,
) -> Result<(), AllocError>
    requires { kept.old.count + count ≤ most_shapes }
    ensures { OnOk result (HasItem kept.old kept.new item count bounds depth) }
{
    kept.items.push(item)?;
    kept.count += count;
    kept.bounds = joined(kept.bounds, bounds);
    kept.depth = kept.depth.max(depth);
    Ok(())
}

fn deepen(kept: &mut Kept, depth: u32)
    ensures { kept.new ≡ record kept.old { depth = max kept.old.depth depth } }
{
    kept.depth = kept.depth.max(depth);
}

/// Gives a symbol shapes of its own.
fn push_shapes(kept: &mut Kept, shapes: &[Shape], depth: u32) -> Result<(), AllocError>
    requires { kept.old.count + length shapes.now ≤ most_shapes }
    ensures { (symbols : List Symbol) → IsKeptBehind symbols kept.old → AllByRecursion IsShapeWithin shapes.now → AreProper shapes.now → 1 ≡ depth
        → OnOk result (Grows symbols kept.old kept.new shapes.now depth) }
{
    deepen(kept, depth);
    let mut rest = shapes;
    while let Some((shape, after)) = rest.split_first() {
        push_item(kept, Item::Own(*shape), 1, Some(shape.rect), depth)?;
        rest = after;
    }
    Ok(())
}

/// Gives a symbol what a command gives its level, which makes this depth. A copy without shapes is not kept, so that whatever is drawn
/// later takes no more steps than it has shapes on each of its levels.
pub(crate) fn push(kept: &mut Kept, given: &Given, depth: u32) -> Result<(), AllocError>
    requires { kept.old.count + length (shapes_made given.now) ≤ most_shapes }
    ensures { (t : Tabled) → IsKeptBehind t.symbols kept.old → IsSoundIn t given.now → AllByRecursion IsShapeWithin (shapes_made given.now)
        → depth_made given.now ≡ Ok depth → OnOk result (Grows t.symbols kept.old kept.new (shapes_made given.now) depth) }
{
    match given {
        Given::Nothing => {
            deepen(kept, depth);
            Ok(())
        }
        Given::Own(shape) => push_item(kept, Item::Own(*shape), 1, Some(shape.rect), depth),
        Given::Several(shapes) => push_shapes(kept, shapes.items(), depth),
        Given::Copied(call) => {
            let symbol = call.symbol.kept();
            if symbol.count == 0 {
                deepen(kept, depth);
                return Ok(());
            }
            let item = Item::Copied {
                of: call.symbol.place,
                turn: call.turn,
            };
            let bounds = moved_bounds(symbol.bounds, &call.turn);
            push_item(kept, item, symbol.count, bounds, depth)
        }
    }
}
