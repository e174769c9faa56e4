//! A layout of the same areas as another.

ghost use Rattle.design_model.specs.Room.{HasRoom};
ghost use Rattle.layout_check.specs.Measured.{IsMeasured};
ghost use Rattle.layout_merge.specs.Drawn.{drawn, known_cells};
ghost use Rattle.layout_merge.specs.MergedLayout.{merged_layout, outside, placed};
ghost use Rattle.layout_merge.specs.Near.{IsMergeable};
ghost use Rattle.std.specs.List.{flat_map};
ghost use Rattle.std.specs.Prelude.{◌≡◌, ◌++◌, ◌∷◌, [], ◌≤◌, ◌<◌, ◌^◌, ◌-◌, drop, length, take, IfOk, OnOk};

use crate::cells::{drawn, is_known};
use crate::shapes::merged_shapes;
use design_model::Design;
use geom_core::{Cell, Items, Layout, Shape};
use std::alloc::{AllocError, Global};
use tech_rules::Rules;

// The cells of a layout that is made, and their shapes.
#[derive(Drop)]
struct Placed {
    cells: Vec<Cell>,
    shapes: Vec<Shape>,
}

// A number of shapes: 2^32 of them have no room.
fn number(n: usize) -> Result<u32, AllocError>
    ensures is { IfOk result (λ m. m ≡ n) }
    ensures few { IfOk result (λ m. n < 2 ^ 32) }
{
    match u32::try_from(n) {
        Ok(n) => Ok(n),
        Err(_) => Err(AllocError),
    }
}

impl Placed {
    // Puts a cell with its shapes behind those that stand there.
    fn put(&mut self, alloc: Global, cell: &Cell, shapes: &[Shape]) -> Result<(), AllocError>
        ensures cells { OnOk result (self.new.cells.items ≡ self.old.cells.items ++ (record cell.now { first = length self.old.shapes.items; count = length shapes.now } ∷ [])) }
        ensures shapes { OnOk result (self.new.shapes.items ≡ self.old.shapes.items ++ shapes.now) }
    {
        let placed = Cell {
            name: cell.name.copied(alloc)?,
            symbol: cell.symbol.copied(alloc)?,
            turn: cell.turn,
            first: number(self.shapes.len())?,
            count: number(shapes.len())?,
        };
        self.cells.push(placed)?;
        self.shapes.extend_from_slice(shapes)
    }
}

// The cells of the design, each with the shapes of its kind's drawing where it covers the same.
fn placed_cells(
    alloc: Global,
    layout: &Layout,
    design: &Design,
    rules: &Rules,
) -> Result<Placed, AllocError>
    requires layout { IsMeasured layout.now }
    requires room { HasRoom rules.now design.now }
    ensures cells { IfOk result (λ p. p.cells.items ≡ placed (drawn rules.now design.now layout.now) 0 (known_cells design.now layout.now)) }
    ensures shapes { IfOk result (λ p. p.shapes.items ≡ flat_map (drawn rules.now design.now layout.now) (known_cells design.now layout.now)) }
{
    let mut placed = Placed {
        cells: Vec::new(alloc),
        shapes: Vec::new(alloc),
    };
    for cell in layout.cells.items() {
        if is_known(design, cell) {
            let shapes = drawn(alloc, rules, design, layout, cell)?;
            placed.put(alloc, cell, shapes.as_slice())?;
        }
    }
    Ok(placed)
}

// The shapes from one number up to another: none where that is no greater.
fn between(shapes: &[Shape], from: usize, to: usize) -> &[Shape]
    requires { to ≤ length shapes.now }
    ensures { result.now ≡ take (to - from) (drop from shapes.now) }
{
    if to <= from {
        return &[];
    }
    &shapes[from..to]
}

// The shapes of a layout that no cell of the design has.
fn outside(alloc: Global, layout: &Layout, design: &Design) -> Result<Vec<Shape>, AllocError>
    requires layout { IsMeasured layout.now }
    ensures { IfOk result (λ v. v.items ≡ outside 0 (known_cells design.now layout.now) layout.now.shapes) }
{
    let shapes = layout.shapes.items();
    let mut found = Vec::new(alloc);
    let mut end = 0;
    for cell in layout.cells.items() {
        if is_known(design, cell) {
            let first = cell.first as usize;
            found.extend_from_slice(between(shapes, end, first))?;
            end = first + cell.count as usize;
        }
    }
    found.extend_from_slice(between(shapes, end, shapes.len()))?;
    Ok(found)
}

/// The layout that covers the same areas as another, for a design under rules. Its cells are those calls that call a kind of the design or bear the name of one of its instances. A cell that covers the same
/// areas as its kind's drawing under its turn has the shapes of that drawing, in their order; another keeps its own. What lies outside of these cells comes behind them: the shapes on
/// the layers of wires and of cuts merged, layer by layer, into the maximal blocks of the area that they cover together, and then the others as they are. Shapes of a layer stay as they are where there would
/// be more than twice as many blocks, or more than `MOST_WORK` to look at. The one error is want of memory, as which 2^32 shapes count.
#[tactic(auto, unfolding(crate::specs::MergedLayout::merged_layout))]
pub fn merge_layout(
    alloc: Global,
    layout: Layout,
    design: &Design,
    rules: &Rules,
) -> Result<Layout, AllocError>
    requires layout { IsMergeable layout }
    requires room { HasRoom rules.now design.now }
    ensures is { IfOk result (λ l. l ≡ merged_layout rules.now design.now layout) }
    ensures measured { IfOk result IsMeasured }
{
    let _ = &rules.version;
    let _ = &design.height;
    let rest = outside(alloc, &layout, design)?;
    let rest = merged_shapes(alloc, rules, rest.as_slice())?;
    let Placed { cells, mut shapes } = placed_cells(alloc, &layout, design, rules)?;
    shapes.extend_from_slice(rest.as_slice())?;
    number(shapes.len())?;
    Ok(Layout {
        cells: Items::new(cells),
        shapes: Items::new(shapes),
    })
}
