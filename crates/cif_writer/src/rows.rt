//! The rows of a placed design, written as they stand.

ghost use Rattle.cif_text.specs.Printing.{text_of};
ghost use Rattle.cif_text.specs.Written.{items_commands, layer_after};
ghost use Rattle.cif_writer.specs.FeedHeights.{height_place};
ghost use Rattle.cif_writer.specs.InReach.{IsPlaceInReach};
ghost use Rattle.cif_writer.specs.LabelParts.{AreLabelParts};
ghost use Rattle.cif_writer.specs.Symbols.{copies_of, copy_name, copy_number, feed_number, item_items, row_items, wires_of};
ghost use Rattle.channel_stack.specs.declared.placed.PlacedItem.{PlacedItem as Placed};
ghost use Rattle.geom_core.specs.Reach.{IsShapeInReach};
ghost use Rattle.shelf_io.specs.Wrote.{Writes};
ghost use Rattle.std.specs.List.{AllByRecursion};
ghost use Rattle.std.specs.Prelude.{◌≡◌, ◌≤◌, None, is_some, length, option_map, OnOk};
ghost use Rattle.wire_geom.specs.declared.drawn.Drawn.{Drawn};

use crate::labels::write_labels;
use crate::marks::RowParts;
use crate::text::Text;
use channel_stack::PlacedItem;
use design_model::Design;
use feed_cells::Item;
use geom_core::Name;
use shelf_io::{Failed, Sink};
use wire_geom::Drawn;

// The name with which an item is written: that of a cell's instance.
fn copy_name(design: &Design, item: Item) -> Option<&Name>
    ensures { option_map (λ name. name.now) result ≡ copy_name design.now item }
{
    match item {
        Item::Cell(seat) => match design.instances.items().get(seat.instance as usize) {
            Some(inst) => Some(&inst.name),
            None => None,
        },
        Item::Feed(_) => None,
    }
}

// The number of the symbol of an item: that of a cell's kind, or of a feed this one.
fn copy_number(design: &Design, feeds: u64, item: Item) -> u64
    ensures { result ≡ copy_number design.now feeds item }
{
    match item {
        Item::Cell(seat) => match design.instances.items().get(seat.instance as usize) {
            Some(inst) => u64::from(inst.kind) + 1,
            None => 0,
        },
        Item::Feed(_) => feeds,
    }
}

// The first place of a height among others, or how many they are.
fn height_place(heights: &[u32], height: u32) -> u64
    ensures place { result ≡ height_place heights.now height }
    ensures within { result ≤ length heights.now }
{
    let mut place = 0;
    let mut rest = heights;
    while let Some((first, others)) = rest.split_first() {
        if *first == height {
            return place;
        }
        place += 1;
        rest = others;
    }
    place
}

// The number of the symbol of the feeds of a row of this height, where feeds have these heights.
fn feed_number(design: &Design, heights: &[u32], height: u32) -> u64
    ensures { result ≡ feed_number design.now heights.now height }
{
    design.kinds.items().len() as u64 + 1 + height_place(heights, height)
}

// Writes an item, whose feeds have the symbol with this number, and behind it its labels, where labels are written.
fn write_item<'p, K: Sink>(
    text: &mut Text,
    out: &mut K,
    parts: &RowParts<'p>,
    feeds: u64,
    placed: &'p PlacedItem,
) -> Result<(), Failed>
    requires parts { AreLabelParts parts.now.rules.now parts.now.design.now parts.now.drawings.now (option_map (λ firsts. firsts.now) parts.now.labels) }
    requires place { IsPlaceInReach placed.now.place }
    ensures wrote { Writes result (text_of (items_commands text.old.last (item_items (is_some parts.now.labels) parts.now.rules.now parts.now.design.now feeds placed.now))) text.old.buffered text.new.buffered (K.written out.old) (K.written out.new) (K.faults out.old) (K.faults out.new) (K.same_place out.old out.new) (K.else_same out.old out.new) }
    ensures layer { OnOk result (text.new.last ≡ layer_after text.old.last (item_items (is_some parts.now.labels) parts.now.rules.now parts.now.design.now feeds placed.now)) }
{
    let name = copy_name(parts.design, placed.item);
    let number = copy_number(parts.design, feeds, placed.item);
    text.cell(out, name, number, &placed.place)?;
    let Some(firsts) = parts.labels else {
        return Ok(());
    };
    write_labels(text, out, parts, firsts, placed)
}

// Writes the cells and feeds of a row, whose feeds have the symbol with this number.
fn write_row<'p, K: Sink>(
    text: &mut Text,
    out: &mut K,
    parts: &RowParts<'p>,
    feeds: u64,
    row: &'p [PlacedItem],
) -> Result<(), Failed>
    requires parts { AreLabelParts parts.now.rules.now parts.now.design.now parts.now.drawings.now (option_map (λ firsts. firsts.now) parts.now.labels) }
    requires places { AllByRecursion (λ (p : Placed). IsPlaceInReach p.place) row.now }
    ensures wrote { Writes result (text_of (items_commands text.old.last (copies_of (is_some parts.now.labels) parts.now.rules.now parts.now.design.now feeds row.now))) text.old.buffered text.new.buffered (K.written out.old) (K.written out.new) (K.faults out.old) (K.faults out.new) (K.same_place out.old out.new) (K.else_same out.old out.new) }
    ensures layer { OnOk result (text.new.last ≡ layer_after text.old.last (copies_of (is_some parts.now.labels) parts.now.rules.now parts.now.design.now feeds row.now)) }
{
    let mut rest = row;
    while let Some((placed, after)) = rest.split_first() {
        write_item(text, out, parts, feeds, placed)?;
        rest = after;
    }
    Ok(())
}

// Writes the risers of a row.
fn write_risers<K: Sink>(text: &mut Text, out: &mut K, risers: &[Drawn]) -> Result<(), Failed>
    requires reach { AllByRecursion (λ (a : Drawn). IsShapeInReach a.shape) risers.now }
    ensures wrote { Writes result (text_of (items_commands text.old.last (wires_of risers.now))) text.old.buffered text.new.buffered (K.written out.old) (K.written out.new) (K.faults out.old) (K.faults out.new) (K.same_place out.old out.new) (K.else_same out.old out.new) }
    ensures layer { OnOk result (text.new.last ≡ layer_after text.old.last (wires_of risers.now)) }
{
    let mut rest = risers;
    while let Some((riser, after)) = rest.split_first() {
        text.shape(out, &riser.shape)?;
        rest = after;
    }
    Ok(())
}

// Writes a row of this height, where feeds have these heights: its items, and then its risers.
pub(crate) fn write_level<'p, K: Sink>(
    text: &mut Text,
    out: &mut K,
    parts: &RowParts<'p>,
    tall: &[u32],
    height: u32,
    row: &'p [PlacedItem],
    risers: &[Drawn],
) -> Result<(), Failed>
    requires parts { AreLabelParts parts.now.rules.now parts.now.design.now parts.now.drawings.now (option_map (λ firsts. firsts.now) parts.now.labels) }
    requires places { AllByRecursion (λ (p : Placed). IsPlaceInReach p.place) row.now }
    requires reach { AllByRecursion (λ (a : Drawn). IsShapeInReach a.shape) risers.now }
    ensures wrote { Writes result (text_of (items_commands text.old.last (row_items (is_some parts.now.labels) parts.now.rules.now parts.now.design.now tall.now height row.now risers.now))) text.old.buffered text.new.buffered (K.written out.old) (K.written out.new) (K.faults out.old) (K.faults out.new) (K.same_place out.old out.new) (K.else_same out.old out.new) }
    ensures layer { OnOk result (text.new.last ≡ layer_after text.old.last (row_items (is_some parts.now.labels) parts.now.rules.now parts.now.design.now tall.now height row.now risers.now)) }
{
    let feeds = feed_number(parts.design, tall, height);
    write_row(text, out, parts, feeds, row)?;
    write_risers(text, out, risers)
}
