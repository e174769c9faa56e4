//! The places of cells and feeds in their rows.

ghost use Rattle.channel_stack.specs.Stack.{corner_column, is_mirrored, item_place, place_at, placed_from, placed_rows};
ghost use Rattle.feed_cells.specs.Fed.{items_width};
ghost use Rattle.feed_cells.specs.declared.fed.Item.{Item};
ghost use Rattle.std.specs.List.{AllByRecursion};
ghost use Rattle.std.specs.Prelude.{◌≡◌, ◌<◌, ◌^◌, List, IfOk};

use crate::placed::PlacedItem;
use design_model::Design;
use feed_cells::Item;
use geom_core::{Items, Place};
use std::alloc::{AllocError, Global};
use tech_rules::Rules;

fn is_mirrored(item: Item) -> bool
    ensures { result ≡ is_mirrored item }
{
    match item {
        Item::Cell(seat) => seat.mirror,
        Item::Feed(_) => false,
    }
}

// The place of a corner in this column of an item that stands on `base`.
fn place_at(rules: &Rules, base: u32, mirror: bool, column: u64) -> Place
    requires { column < 2 ^ 40 }
    ensures { result ≡ place_at rules.now base mirror column }
{
    let centi = u64::from(rules.grid.centi);
    let across = column * u64::from(rules.grid.column);
    Place {
        dx: (2 * across * centi) as i64,
        dy: (2 * u64::from(base) * centi) as i64,
        mirror,
    }
}

// The place of an item whose first column is `left`: a mirrored cell is placed by its right edge.
fn item_place(design: &Design, rules: &Rules, base: u32, left: u64, item: Item) -> Place
    requires { left < 2 ^ 39 }
    ensures { result ≡ item_place rules.now design.now base left item }
{
    let mirror = is_mirrored(item);
    let corner = if mirror {
        left + u64::from(item.width(design))
    } else {
        left
    };
    place_at(rules, base, mirror, corner)
}

// The items of a row side by side.
fn placed_row(
    alloc: Global,
    design: &Design,
    rules: &Rules,
    base: u32,
    items: &[Item],
) -> Result<Vec<PlacedItem>, AllocError>
    requires { items_width design.now items.now < 2 ^ 39 }
    ensures { IfOk result (λ placed. placed.items ≡ placed_from rules.now design.now base 0 items.now) }
{
    let mut placed = Vec::with_capacity(alloc, items.len())?;
    let mut left = 0;
    let mut rest = items;
    while let Some((item, after)) = rest.split_first() {
        let place = item_place(design, rules, base, left, *item);
        placed.push(PlacedItem { item: *item, place })?;
        left += u64::from(item.width(design));
        rest = after;
    }
    Ok(placed)
}

/// The items of all rows, each row on its base. The one error is want of memory.
pub(crate) fn placed_rows(
    alloc: Global,
    design: &Design,
    rules: &Rules,
    rows: &[Items<Item>],
    bases: &[u32],
) -> Result<Vec<Items<PlacedItem>>, AllocError>
    requires { AllByRecursion (λ (items : List Item). items_width design.now items < 2 ^ 39) rows.now }
    ensures { IfOk result (λ placed. placed.items ≡ placed_rows rules.now design.now rows.now bases.now) }
{
    let mut placed = Vec::new(alloc);
    let mut edges = bases;
    let mut rest = rows;
    while let Some((items, above)) = rest.split_first() {
        let Some((base, others)) = edges.split_first() else {
            return Ok(placed);
        };
        let row = placed_row(alloc, design, rules, *base, items.items())?;
        placed.push(Items::new(row))?;
        edges = others;
        rest = above;
    }
    Ok(placed)
}
