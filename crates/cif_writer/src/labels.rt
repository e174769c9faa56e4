//! The labels of cells, and of the nets that begin at their pins, written.

ghost use Rattle.cif_text.specs.Printing.{text_of};
ghost use Rattle.cif_text.specs.Written.{items_commands, layer_after};
ghost use Rattle.cif_writer.specs.InReach.{IsPlaceInReach};
ghost use Rattle.cif_writer.specs.LabelParts.{AreLabelParts, IsExtentInTwiceReach, IsLabelled};
ghost use Rattle.cif_writer.specs.Labels.{first_pins, label_of, placed_marks, terminal_marks};
ghost use Rattle.shelf_io.specs.Wrote.{Writes};
ghost use Rattle.std.specs.Option.{option_to_list};
ghost use Rattle.std.specs.Prelude.{◌≡◌, map, option_map, IfSome, OnOk};

use crate::marks::{Label, LabelledCell, RowParts, labelled_cell, moved_shape, terminal_label};
use crate::net_firsts::FirstPins;
use crate::text::Text;
use channel_stack::PlacedItem;
use shelf_io::{Failed, Sink};

// Writes a label, if there is one.
fn write_label<K: Sink>(text: &mut Text, out: &mut K, label: &Option<Label>) -> Result<(), Failed>
    requires { IfSome label.now (λ label. IsExtentInTwiceReach label.shape.rect) }
    ensures wrote { Writes result (text_of (items_commands text.old.last (map label_of (option_to_list (option_map (λ label. record { name = label.name.now; shape = label.shape }) label.now))))) text.old.buffered text.new.buffered (K.written out.old) (K.written out.new) (K.faults out.old) (K.faults out.new) (K.same_place out.old out.new) (K.else_same out.old out.new) }
    ensures layer { OnOk result (text.new.last ≡ layer_after text.old.last (map label_of (option_to_list (option_map (λ label. record { name = label.name.now; shape = label.shape }) label.now)))) }
{
    match label {
        None => Ok(()),
        Some(label) => text.label(out, label.name, &label.shape),
    }
}

// Writes the labels of the nets that begin at the terminals of a cell.
fn write_nets<'p, K: Sink>(
    text: &mut Text,
    out: &mut K,
    parts: &RowParts<'p>,
    firsts: &FirstPins,
    cell: &LabelledCell<'p>,
) -> Result<(), Failed>
    requires firsts { firsts.now ≡ first_pins parts.now.design.now }
    requires cell { IsLabelled parts.now.rules.now parts.now.design.now cell.now.instance cell.now.kind.now cell.now.pins.now }
    requires place { IsPlaceInReach cell.now.place.now }
    ensures wrote { Writes result (text_of (items_commands text.old.last (map label_of (terminal_marks parts.now.rules.now parts.now.design.now cell.now.instance cell.now.kind.now cell.now.place.now 0 cell.now.kind.now.terminals)))) text.old.buffered text.new.buffered (K.written out.old) (K.written out.new) (K.faults out.old) (K.faults out.new) (K.same_place out.old out.new) (K.else_same out.old out.new) }
    ensures layer { OnOk result (text.new.last ≡ layer_after text.old.last (map label_of (terminal_marks parts.now.rules.now parts.now.design.now cell.now.instance cell.now.kind.now cell.now.place.now 0 cell.now.kind.now.terminals))) }
{
    let mut terminal: u64 = 0;
    let mut rest = cell.kind.terminals.items();
    while let Some((_, others)) = rest.split_first() {
        let label = terminal_label(parts, firsts, cell, terminal);
        write_label(text, out, &label)?;
        terminal += 1;
        rest = others;
    }
    Ok(())
}

/// Writes the labels of an item: of a cell its name, and the names of the nets that begin at its terminals; of a feed none.
pub(crate) fn write_labels<'p, K: Sink>(
    text: &mut Text,
    out: &mut K,
    parts: &RowParts<'p>,
    firsts: &FirstPins,
    placed: &'p PlacedItem,
) -> Result<(), Failed>
    requires firsts { firsts.now ≡ first_pins parts.now.design.now }
    requires parts { AreLabelParts parts.now.rules.now parts.now.design.now parts.now.drawings.now (option_map (λ firsts. firsts.now) parts.now.labels) }
    requires place { IsPlaceInReach placed.now.place }
    ensures wrote { Writes result (text_of (items_commands text.old.last (map label_of (placed_marks parts.now.rules.now parts.now.design.now placed.now.item placed.now.place)))) text.old.buffered text.new.buffered (K.written out.old) (K.written out.new) (K.faults out.old) (K.faults out.new) (K.same_place out.old out.new) (K.else_same out.old out.new) }
    ensures layer { OnOk result (text.new.last ≡ layer_after text.old.last (map label_of (placed_marks parts.now.rules.now parts.now.design.now placed.now.item placed.now.place))) }
{
    let Some(cell) = labelled_cell(parts, placed) else {
        return Ok(());
    };
    text.label(out, cell.name, &moved_shape(cell.outline, cell.place))?;
    write_nets(text, out, parts, firsts, &cell)
}
