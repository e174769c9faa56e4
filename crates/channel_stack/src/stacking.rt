//! The layout of a routed design.

ghost use Rattle.channel_model.specs.Elements.{elements};
ghost use Rattle.channel_model.specs.Wired.{IsOnGrid};
ghost use Rattle.channel_model.specs.declared.wiring.Wiring.{Wiring};
ghost use Rattle.channel_stack.specs.Layouts.{layout_of};
ghost use Rattle.channel_stack.specs.Risers.{AreRisers};
ghost use Rattle.channel_stack.specs.Routed.{AreWired, IsRouted, IsWithin};
ghost use Rattle.channel_stack.specs.Stack.{drawings, laid_of, stack_of};
ghost use Rattle.feed_cells.specs.Fed.{IsFed};
ghost use Rattle.design_model.specs.Good.{Good};
ghost use Rattle.design_model.specs.Room.{HasRoom};
ghost use Rattle.pin_assign.specs.Tables.{tables_of};
ghost use Rattle.std.specs.List.{All, AllByRecursion};
ghost use Rattle.std.specs.Prelude.{◌≡◌, IfOk, map};

use crate::bases::{channel_bases, most_columns, row_bases, stack_top};
use crate::placed::{Laid, Placed};
use crate::places::placed_rows;
use crate::risers::all_risers;
use channel_model::{Channel, HasWiring};
use design_model::Design;
use feed_cells::FedRows;
use geom_core::Items;
use std::alloc::{AllocError, Global};
use tech_rules::Rules;
use wire_geom::{Drawn, draw};

// The rectangles of the channels, each on its base.
fn drawings<W: HasWiring>(
    alloc: Global,
    wirings: &[W],
    bases: &[u32],
    rules: &Rules,
) -> Result<Vec<Items<Drawn>>, AllocError>
    requires { AllByRecursion (λ (w : Wiring). All (IsOnGrid w.columns w.tracks) (elements w)) (map W.wiring_of wirings.now) }
    ensures { IfOk result (λ drawn. drawn.items ≡ drawings rules.now (map W.wiring_of wirings.now) bases.now) }
{
    let mut drawn = Vec::new(alloc);
    let mut edges = bases;
    let mut rest = wirings;
    while let Some((one, above)) = rest.split_first() {
        let Some((base, others)) = edges.split_first() else {
            return Ok(drawn);
        };
        let channel = draw(alloc, one.wiring(), *base, rules)?;
        drawn.push(Items::new(channel))?;
        edges = others;
        rest = above;
    }
    Ok(drawn)
}

/// Where the channels, rows, cells, feeds and risers of a routed design lie: from y 0 up, channel 0, row 0, channel 1, and so on, each row of its own height and
/// each channel of t tracks as high as t + 1 tracks. The rows with feeds are those of their cells, and the channels are those between them; there is one wiring for
/// each channel, within the tracks and columns of the bound, which passes no limit. The one error is want of memory.
///
/// The risers of a row are those of its cells that are lower than the row: for each net that such a cell gives to the channel above, a vertical wire in the
/// entry's column, from `grid.pin` below the cell's top to the row's top.
///
/// The layout is within its bound. Where each wiring connects its channel, by whatever router, and the cells have room for their pins, the layout of these cells
/// and feeds, with each wiring drawn on its channel's lower edge, is good for the design and the rules.
#[tactic(auto, unfolding(crate::specs::Stack::stack_of))]
pub fn lay<W: HasWiring>(
    alloc: Global,
    design: &Design,
    fed: &FedRows,
    channels: &[Channel],
    wirings: &[W],
    rules: &Rules,
) -> Result<Laid, AllocError>
    requires fed { IsFed design.now fed.now }
    requires channels { channels.now ≡ tables_of design.now fed.now }
    requires routed { IsRouted rules.now design.now fed.now (map W.wiring_of wirings.now) }
    ensures laid { IfOk result (λ laid. laid ≡ laid_of (stack_of rules.now design.now fed.now (map W.wiring_of wirings.now))) }
    ensures risers { IfOk result (λ laid. AreRisers rules.now design.now fed.now laid.row_base laid.risers) }
    ensures within { IfOk result (λ _. IsWithin rules.now design.now fed.now (map W.wiring_of wirings.now) (stack_of rules.now design.now fed.now (map W.wiring_of wirings.now))) }
    ensures good { IfOk result (λ _. HasRoom rules.now design.now → AreWired design.now fed.now (map W.wiring_of wirings.now)
        → Good rules.now design.now (layout_of rules.now design.now (stack_of rules.now design.now fed.now (map W.wiring_of wirings.now)))) }
{
    // The bounds of the design's type are known once a field is read.
    let _pins = &design.pins;
    let centi = u64::from(rules.grid.centi);
    let heights = fed.heights.items();
    let channel_base = channel_bases(alloc, wirings, heights, rules)?;
    let row_base = row_bases(alloc, wirings, heights, rules)?;
    let row_height = heights.to_vec(alloc)?;
    let cells = placed_rows(alloc, design, rules, fed.rows.items(), row_base.as_slice())?;
    let risers = all_risers(alloc, design, rules, fed, channels, row_base.as_slice())?;
    let columns = u64::from(most_columns(wirings));
    Ok(Laid {
        width: columns * u64::from(rules.grid.column) * centi,
        height: stack_top(wirings, heights, rules) * centi,
        channel_base: Items::new(channel_base),
        row_base: Items::new(row_base),
        row_height: Items::new(row_height),
        cells: Items::new(cells),
        risers: Items::new(risers),
    })
}

/// The whole layout of a routed design: where its channels, rows, cells, feeds and risers lie, and the rectangles of its channels. It needs what `lay` needs. The one
/// error is want of memory.
///
/// The layout is within its bound. Where each wiring connects its channel, by whatever router, and the cells have room for their pins, the layout that the result
/// is is good for the design and the rules.
#[tactic(auto, unfolding(crate::specs::Stack::stack_of))]
pub fn stack<W: HasWiring>(
    alloc: Global,
    design: &Design,
    fed: &FedRows,
    channels: &[Channel],
    wirings: &[W],
    rules: &Rules,
) -> Result<Placed, AllocError>
    requires fed { IsFed design.now fed.now }
    requires channels { channels.now ≡ tables_of design.now fed.now }
    requires routed { IsRouted rules.now design.now fed.now (map W.wiring_of wirings.now) }
    ensures stacked { IfOk result (λ placed. placed ≡ stack_of rules.now design.now fed.now (map W.wiring_of wirings.now)) }
    ensures risers { IfOk result (λ placed. AreRisers rules.now design.now fed.now placed.row_base placed.risers) }
    ensures within { IfOk result (λ placed. IsWithin rules.now design.now fed.now (map W.wiring_of wirings.now) placed) }
    ensures good { IfOk result (λ placed. HasRoom rules.now design.now → AreWired design.now fed.now (map W.wiring_of wirings.now)
        → Good rules.now design.now (layout_of rules.now design.now placed)) }
{
    let laid = lay(alloc, design, fed, channels, wirings, rules)?;
    let shapes = drawings(alloc, wirings, laid.channel_base.items(), rules)?;
    Ok(Placed {
        channel_base: laid.channel_base,
        row_base: laid.row_base,
        row_height: laid.row_height,
        cells: laid.cells,
        risers: laid.risers,
        shapes: Items::new(shapes),
        width: laid.width,
        height: laid.height,
    })
}
