//! The drawings of the symbols of a placed design.

ghost use Rattle.channel_stack.specs.Layouts.{feed_drawing, feed_outline, feed_wire};
ghost use Rattle.cif_writer.specs.FeedHeights.{feed_heights, is_feed};
ghost use Rattle.cif_writer.specs.Symbols.{symbol_drawings};
ghost use Rattle.design_model.specs.Drawing.{drawing_of};
ghost use Rattle.design_model.specs.Room.{HasRoom};
ghost use Rattle.feed_cells.specs.Fed.{IsFed};
ghost use Rattle.geom_core.specs.Reach.{IsShapeInReach};
ghost use Rattle.std.specs.List.{AllByRecursion, list_any};
ghost use Rattle.std.specs.Prelude.{◌≡◌, ◌<◌, ◌≤◌, ◌*◌, ℕ, map, pos, IfOk};
ghost use Rattle.tech_rules.specs.Rules.{ValidRules};

use design_model::{Design, drawing};
use feed_cells::{FedRows, Item};
use geom_core::{Items, Rect, Shape};
use limits::MOST_HEIGHT;
use std::alloc::{AllocError, Global};
use std::collections::BTreeSet;
use tech_rules::Rules;

fn is_feed(item: Item) -> bool
    ensures { result ≡ is_feed item }
{
    match item {
        Item::Cell(_) => false,
        Item::Feed(_) => true,
    }
}

fn row_has_feed(row: &[Item]) -> bool
    ensures { result ≡ list_any is_feed row.now }
{
    row.iter().any(|item| is_feed(*item))
}

// The different heights of the rows in which feeds stand, ascending.
fn feed_heights(alloc: Global, fed: &FedRows) -> Result<Vec<u32>, AllocError>
    ensures { IfOk result (λ heights. heights.items ≡ feed_heights fed.now) }
{
    let mut found = BTreeSet::new(alloc);
    let mut heights = fed.heights.items();
    let mut rest = fed.rows.items();
    while let Some((height, higher)) = heights.split_first() {
        let Some((row, above)) = rest.split_first() else {
            break;
        };
        if row_has_feed(row.items()) {
            found.insert(*height)?;
        }
        heights = higher;
        rest = above;
    }
    let mut ascending = Vec::with_capacity(alloc, found.len())?;
    while let Some(lowest) = found.pop_first() {
        ascending.push(lowest)?;
    }
    Ok(ascending)
}

// A number of half units, in half centimicrons.
fn scaled(rules: &Rules, half_units: u64) -> i64
    requires { half_units ≤ 1000000000 }
    ensures { result ≡ pos (half_units * rules.now.grid.centi) }
{
    (half_units * u64::from(rules.grid.centi)) as i64
}

// The outline of a feed: one column, as high as a row.
fn feed_outline(rules: &Rules, height: u32) -> Shape
    requires some { 0 < height }
    requires low { height ≤ MOST_HEIGHT }
    ensures { result ≡ feed_outline rules.now height }
{
    let rect = Rect {
        x0: 0,
        y0: 0,
        x1: scaled(rules, 2 * u64::from(rules.grid.column)),
        y1: scaled(rules, 2 * u64::from(height)),
    };
    Shape {
        layer: rules.outline.layer,
        rect,
    }
}

// The wire of a feed: in the middle of its column, from its lower edge to its upper one.
fn feed_wire(rules: &Rules, height: u32) -> Shape
    requires some { 0 < height }
    requires low { height ≤ MOST_HEIGHT }
    ensures { result ≡ feed_wire rules.now height }
{
    let middle = u64::from(rules.grid.column);
    let width = u64::from(rules.vertical.width);
    let rect = Rect {
        x0: scaled(rules, middle.saturating_sub(width)),
        y0: 0,
        x1: scaled(rules, middle + width),
        y1: scaled(rules, 2 * u64::from(height)),
    };
    Shape {
        layer: rules.vertical.layer,
        rect,
    }
}

// The drawing of a feed.
#[tactic(auto, unfolding(channel_stack::specs::Layouts::feed_drawing))]
fn feed_drawing(alloc: Global, rules: &Rules, height: u32) -> Result<Vec<Shape>, AllocError>
    requires some { 0 < height }
    requires low { height ≤ MOST_HEIGHT }
    ensures { IfOk result (λ shapes. shapes.items ≡ feed_drawing rules.now height) }
{
    let mut shapes = Vec::new(alloc);
    shapes.push(feed_outline(rules, height))?;
    shapes.push(feed_wire(rules, height))?;
    Ok(shapes)
}

// The drawings of a design's kinds.
fn kind_drawings(
    alloc: Global,
    design: &Design,
    rules: &Rules,
) -> Result<Vec<Items<Shape>>, AllocError>
    requires valid { ValidRules rules.now }
    requires high { HasRoom rules.now design.now }
    ensures { IfOk result (λ drawings. drawings.items ≡ map (drawing_of rules.now) design.now.kinds) }
{
    let mut drawings = Vec::new(alloc);
    for n in 0..design.kinds.items().len() {
        drawings.push(Items::new(drawing(alloc, design, rules, n as u32)?))?;
    }
    Ok(drawings)
}

// The drawings of the feeds of rows of these heights.
fn feed_drawings(
    alloc: Global,
    rules: &Rules,
    heights: &[u32],
) -> Result<Vec<Items<Shape>>, AllocError>
    requires { AllByRecursion (λ (h : ℕ). (0 < h) × (h ≤ MOST_HEIGHT)) heights.now }
    ensures { IfOk result (λ drawings. drawings.items ≡ map (feed_drawing rules.now) heights.now) }
{
    let mut drawings = Vec::with_capacity(alloc, heights.len())?;
    let mut rest = heights;
    while let Some((height, higher)) = rest.split_first() {
        drawings.push(Items::new(feed_drawing(alloc, rules, *height)?))?;
        rest = higher;
    }
    Ok(drawings)
}

/// The symbols of a placed design: the drawings of its kinds in their order, and behind them those of feeds, one for each height of the rows in which feeds stand; and these heights
/// in units, ascending.
#[derive(Drop)]
pub struct Symbols {
    pub drawings: Items<Items<Shape>>,
    pub feed_heights: Items<u32>,
}

/// The symbols of a placed design. The cells have room for their pins. The one error is want of memory.
pub fn symbol_drawings(
    alloc: Global,
    design: &Design,
    fed: &FedRows,
    rules: &Rules,
) -> Result<Symbols, AllocError>
    requires valid { ValidRules rules.now }
    requires high { HasRoom rules.now design.now }
    requires fed { IsFed design.now fed.now }
    ensures drawings { IfOk result (λ symbols. symbols.drawings ≡ symbol_drawings rules.now design.now fed.now) }
    ensures heights { IfOk result (λ symbols. symbols.feed_heights ≡ feed_heights fed.now) }
{
    // The bounds of the design's type are known once a field is read.
    let _kinds = &design.kinds;
    let heights = feed_heights(alloc, fed)?;
    let mut drawings = kind_drawings(alloc, design, rules)?;
    let mut feeds = feed_drawings(alloc, rules, heights.as_slice())?;
    drawings.append(&mut feeds)?;
    Ok(Symbols {
        drawings: Items::new(drawings),
        feed_heights: Items::new(heights),
    })
}
