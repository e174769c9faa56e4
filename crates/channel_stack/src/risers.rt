//! Risers: wires that lead from the upper pins of cells lower than their row to the row's upper edge.

ghost use Rattle.channel_stack.specs.Risers.{all_risers, item_risers, risers_along, risers_over, row_risers};
ghost use Rattle.feed_cells.specs.Fed.{IsFed, items_width};
ghost use Rattle.pin_assign.specs.Tables.{tables_of};
ghost use Rattle.std.specs.Prelude.{◌≡◌, ◌<◌, ◌≤◌, ◌+◌, ◌++◌, ◌^◌, IfOk, length};

use channel_model::Channel;
use design_model::Design;
use feed_cells::{FedRows, Item};
use geom_core::Items;
use row_model::cell_height;
use std::alloc::{AllocError, Global};
use tech_rules::Rules;
use wire_geom::{Drawn, upright};

// Adds the risers over columns from this one on, by the nets that enter the channel above there.
fn push_risers(
    risers: &mut Vec<Drawn>,
    rules: &Rules,
    low: u64,
    high: u64,
    first: u32,
    nets: &[u32],
) -> Result<(), AllocError>
    requires long { low < high }
    requires low { high ≤ 2 ^ 33 }
    requires near { first + length nets.now < 2 ^ 32 }
    ensures { IfOk result (λ _. risers.new.items ≡ risers.old.items ++ risers_over rules.now low high first nets.now) }
{
    let mut column = first;
    let mut rest = nets;
    while let Some((net, after)) = rest.split_first() {
        if *net > 0 {
            risers.push(upright(rules, low, high, column, *net))?;
        }
        column += 1;
        rest = after;
    }
    Ok(())
}

// Adds the risers of an item of a row of this height, which stands on this lower edge: those of a cell lower than the row.
fn push_item(
    risers: &mut Vec<Drawn>,
    design: &Design,
    rules: &Rules,
    base: u32,
    height: u32,
    left: u32,
    nets: &[u32],
    item: Item,
) -> Result<(), AllocError>
    requires near { left + length nets.now < 2 ^ 32 }
    ensures { IfOk result (λ _. risers.new.items ≡ risers.old.items ++ item_risers rules.now design.now base height left nets.now item) }
{
    let Item::Cell(seat) = item else {
        return Ok(());
    };
    let own = cell_height(design, seat.instance);
    if own >= height {
        return Ok(());
    }
    let low = u64::from(base) + u64::from(own.saturating_sub(rules.grid.pin));
    let high = u64::from(base) + u64::from(height);
    push_risers(risers, rules, low, high, left, nets)
}

// The risers of items side by side, by the nets that enter the channel above them.
fn risers_along(
    alloc: Global,
    design: &Design,
    rules: &Rules,
    base: u32,
    height: u32,
    items: &[Item],
    nets: &[u32],
) -> Result<Vec<Drawn>, AllocError>
    requires wide { items_width design.now items.now ≤ length nets.now }
    requires near { length nets.now < 2 ^ 32 }
    ensures { IfOk result (λ risers. risers.items ≡ risers_along rules.now design.now base height 0 nets.now items.now) }
{
    let mut risers = Vec::new(alloc);
    let mut left = 0;
    let mut over = nets;
    let mut rest = items;
    while let Some((item, after)) = rest.split_first() {
        let width = item.width(design);
        let (own, others) = over.split_at(width as usize);
        push_item(&mut risers, design, rules, base, height, left, own, *item)?;
        left += width;
        over = others;
        rest = after;
    }
    Ok(risers)
}

// The risers of the row with this number, where rows stand on these lower edges, by the channels between them.
fn row_risers(
    alloc: Global,
    design: &Design,
    rules: &Rules,
    fed: &FedRows,
    channels: &[Channel],
    bases: &[u32],
    row: usize,
) -> Result<Vec<Drawn>, AllocError>
    requires fed { IsFed design.now fed.now }
    requires channels { channels.now ≡ tables_of design.now fed.now }
    requires narrow { fed.now.width < 2 ^ 32 }
    requires bases { length bases.now ≡ length fed.now.rows }
    requires within { row < length fed.now.rows }
    ensures { IfOk result (λ risers. risers.items ≡ row_risers rules.now design.now fed.now bases.now row) }
{
    // The bounds of the design's type are known once a field is read.
    let _pins = &design.pins;
    let items = fed.rows.items()[row].items();
    let height = fed.heights.items()[row];
    let above = &channels[row + 1];
    risers_along(
        alloc,
        design,
        rules,
        bases[row],
        height,
        items,
        above.bottom.items(),
    )
}

/// The risers of all rows, from the lowest up, where the rows stand on these lower edges: for each net that a cell lower than its row gives to the channel above, a vertical wire from where
/// the cell's upper pins begin to the row's upper edge. The channels are those between the rows. The one error is want of memory.
pub(crate) fn all_risers(
    alloc: Global,
    design: &Design,
    rules: &Rules,
    fed: &FedRows,
    channels: &[Channel],
    bases: &[u32],
) -> Result<Vec<Items<Drawn>>, AllocError>
    requires fed { IsFed design.now fed.now }
    requires channels { channels.now ≡ tables_of design.now fed.now }
    requires narrow { fed.now.width < 2 ^ 32 }
    requires bases { length bases.now ≡ length fed.now.rows }
    ensures { IfOk result (λ risers. risers.items ≡ all_risers rules.now design.now fed.now bases.now) }
{
    let mut risers = Vec::with_capacity(alloc, fed.rows.items().len())?;
    let mut row = 0;
    let mut rest = fed.rows.items();
    while let Some((_, after)) = rest.split_first() {
        let own = row_risers(alloc, design, rules, fed, channels, bases, row)?;
        risers.push(Items::new(own))?;
        row += 1;
        rest = after;
    }
    Ok(risers)
}
