//! A placed design, written to a file as it is drawn.

ghost use Rattle.channel_model.specs.Elements.{elements};
ghost use Rattle.channel_model.specs.Wired.{IsOnGrid};
ghost use Rattle.channel_model.specs.declared.wiring.Wiring.{Wiring};
ghost use Rattle.channel_stack.specs.Layouts.{layout_of};
ghost use Rattle.channel_stack.specs.Routed.{IsRouted};
ghost use Rattle.channel_stack.specs.Stack.{drawings, laid_of, stack_of};
ghost use Rattle.cif_text.specs.Printing.{line, text_of};
ghost use Rattle.cif_text.specs.ReadsAs.{ReadsAs};
ghost use Rattle.cif_text.specs.Written.{items_commands, layer_after, symbols_commands};
ghost use Rattle.cif_text.specs.declared.command.CifCommand.TheVariants as commands;
ghost use Rattle.cif_writer.specs.FeedHeights.{feed_heights};
ghost use Rattle.cif_writer.specs.InReach.{AreInReach};
ghost use Rattle.cif_writer.specs.LabelParts.{AreLabelParts};
ghost use Rattle.cif_writer.specs.Labels.{first_pins};
ghost use Rattle.cif_writer.specs.LayoutText.{HoldsFront, placed_text, text_behind};
ghost use Rattle.cif_writer.specs.Symbols.{kind_name, laid_items, symbol_drawings, symbols_with, wires_of};
ghost use Rattle.design_model.specs.Room.{HasRoom};
ghost use Rattle.feed_cells.specs.Fed.{IsFed};
ghost use Rattle.geom_core.specs.Reach.{IsShapeInReach};
ghost use Rattle.geom_core.specs.declared.layout.Shape.{Shape};
ghost use Rattle.shelf_io.specs.Count.{Rose};
ghost use Rattle.shelf_io.specs.OtherFiles.{OthersSame};
ghost use Rattle.shelf_io.specs.Told.{Refines};
ghost use Rattle.shelf_io.specs.Wrote.{Puts, Writes};
ghost use Rattle.std.specs.List.{All, AllByRecursion};
ghost use Rattle.std.specs.Prelude.{◌≡◌, ◌++◌, List, None, Some, is_ok, is_some, map, option_map, IfSome, OnOk, OnErr};
ghost use Rattle.tech_rules.specs.Rules.{ValidRules};
ghost use Rattle.wire_geom.specs.Drawing.{drawing};
ghost use Rattle.wire_geom.specs.declared.drawn.Drawn.{Drawn};

use crate::drawings::Symbols;
use crate::marks::RowParts;
use crate::net_firsts::FirstPins;
use crate::rows::write_level;
use crate::text::Text;
use channel_model::{HasWiring, Wiring};
use channel_stack::Laid;
use design_model::Design;
use feed_cells::FedRows;
use geom_core::{Items, Name, Shape};
use progress::{Step, Unwatched, Watch};
use shelf_io::{Failed, FileSink, Shelf, Sink};
use tech_rules::Rules;
use wire_geom::{shape_at, shapes};

// The name of a kind, if there is one of this number.
fn kind_name(design: &Design, n: u64) -> Option<&Name>
    ensures { option_map (λ name. name.now) result ≡ kind_name design.now n }
{
    match design.kinds.items().get(n as usize) {
        Some(kind) => Some(&kind.name),
        None => None,
    }
}

// Writes symbols with these drawings: those of kinds with their names.
fn write_symbols<K: Sink>(
    text: &mut Text,
    out: &mut K,
    design: &Design,
    drawings: &[Items<Shape>],
) -> Result<(), Failed>
    requires reach { AllByRecursion (λ (shapes : List Shape). AllByRecursion IsShapeInReach shapes) drawings.now }
    requires begun { text.old.last ≡ None }
    ensures wrote { Writes result (text_of (symbols_commands 1 (symbols_with design.now 0 drawings.now))) text.old.buffered text.new.buffered (K.written out.old) (K.written out.new) (K.faults out.old) (K.faults out.new) (K.same_place out.old out.new) (K.else_same out.old out.new) }
    ensures layer { text.new.last ≡ None }
{
    let mut number = 0;
    let mut rest = drawings;
    while let Some((drawing, after)) = rest.split_first() {
        let name = kind_name(design, number);
        number += 1;
        text.symbol(out, number, name, drawing.items())?;
        rest = after;
    }
    Ok(())
}

// Writes the rectangles of a channel.
fn write_wires<K: Sink>(
    text: &mut Text,
    out: &mut K,
    wiring: &Wiring,
    base: u32,
    rules: &Rules,
) -> Result<(), Failed>
    requires on_grid { All (IsOnGrid wiring.now.columns wiring.now.tracks) (elements wiring.now) }
    requires reach { AllByRecursion (λ (a : Drawn). IsShapeInReach a.shape) (drawing rules.now base wiring.now) }
    ensures wrote { Writes result (text_of (items_commands text.old.last (wires_of (drawing rules.now base wiring.now)))) text.old.buffered text.new.buffered (K.written out.old) (K.written out.new) (K.faults out.old) (K.faults out.new) (K.same_place out.old out.new) (K.else_same out.old out.new) }
    ensures layer { OnOk result (text.new.last ≡ layer_after text.old.last (wires_of (drawing rules.now base wiring.now))) }
{
    for k in 0..shapes(wiring) {
        let drawn = shape_at(wiring, k, base, rules);
        text.shape(out, &drawn.shape)?;
    }
    Ok(())
}

/// A routed design as it is written: its rows with feeds, the wirings of its channels, where all of it lies, its symbols, and the first pins of its nets where labels
/// are to be written.
#[derive(Drop)]
pub struct RoutedDesign<'p, W> {
    pub design: &'p Design,
    pub fed: &'p FedRows,
    pub wirings: &'p [W],
    pub laid: &'p Laid,
    pub symbols: &'p Symbols,
    pub rules: &'p Rules,
    pub labels: Option<&'p FirstPins>,
}

// How many rectangles a channel is drawn with.
fn shapes_of<W: HasWiring>(one: &W) -> u64 {
    shapes(one.wiring())
}

// How many rectangles channels are drawn with, as far as a number of 64 bits goes.
fn shapes_in<W: HasWiring>(wirings: &[W]) -> u64 {
    let mut all: u64 = 0;
    for one in wirings {
        all = all.saturating_add(shapes_of(one));
    }
    all
}

// Writes the channels and rows from the bottom up: channel 0, row 0 with its risers, channel 1, and so on. At each row is told how many of all rectangles of channels are written.
fn write_main<'p, W: HasWiring, K: Sink, V: Watch>(
    text: &mut Text,
    out: &mut K,
    routed: &'p RoutedDesign<'p, W>,
    all: u64,
    watch: &mut V,
) -> Result<(), Failed>
    requires parts { AreLabelParts routed.now.rules.now routed.now.design.now routed.now.symbols.now.drawings (option_map (λ firsts. firsts.now) routed.now.labels) }
    requires reach { AreInReach routed.now.rules.now (map W.wiring_of routed.now.wirings.now) routed.now.laid.now.channel_base routed.now.laid.now.cells routed.now.laid.now.risers routed.now.symbols.now.drawings }
    ensures wrote { Writes result (text_of (items_commands text.old.last (laid_items (is_some routed.now.labels) routed.now.rules.now routed.now.design.now routed.now.symbols.now.feed_heights (drawings routed.now.rules.now (map W.wiring_of routed.now.wirings.now) routed.now.laid.now.channel_base) routed.now.laid.now))) text.old.buffered text.new.buffered (K.written out.old) (K.written out.new) (K.faults out.old) (K.faults out.new) (K.same_place out.old out.new) (K.else_same out.old out.new) }
    ensures goes { V.goes watch.old watch.new }
{
    let drawings = routed.symbols.drawings.items();
    let parts = RowParts {
        design: routed.design,
        rules: routed.rules,
        drawings,
        labels: routed.labels,
    };
    let mut written: u64 = 0;
    let mut channels = routed.wirings;
    let laid = routed.laid;
    let tall = routed.symbols.feed_heights.items();
    let mut edges = laid.channel_base.items();
    let mut rows = laid.cells.items();
    let mut heights = laid.row_height.items();
    let mut risers = laid.risers.items();
    while let Some((one, above)) = channels.split_first() {
        let Some((base, others)) = edges.split_first() else {
            return Ok(());
        };
        write_wires(text, out, one.wiring(), *base, routed.rules)?;
        let Some((row, higher)) = rows.split_first() else {
            return Ok(());
        };
        let Some((height, taller)) = heights.split_first() else {
            return Ok(());
        };
        let Some((rise, rising)) = risers.split_first() else {
            return Ok(());
        };
        write_level(text, out, &parts, tall, *height, row.items(), rise.items())?;
        written = written.saturating_add(shapes_of(one));
        watch.told(Step::Writing, written, all);
        channels = above;
        edges = others;
        rows = higher;
        heights = taller;
        risers = rising;
    }
    Ok(())
}

// Puts the text of a routed design to a sink.
fn write_all<'p, W: HasWiring, K: Sink, V: Watch>(
    out: &mut K,
    routed: &'p RoutedDesign<'p, W>,
    watch: &mut V,
) -> Result<(), Failed>
    requires parts { AreLabelParts routed.now.rules.now routed.now.design.now routed.now.symbols.now.drawings (option_map (λ firsts. firsts.now) routed.now.labels) }
    requires reach { AreInReach routed.now.rules.now (map W.wiring_of routed.now.wirings.now) routed.now.laid.now.channel_base routed.now.laid.now.cells routed.now.laid.now.risers routed.now.symbols.now.drawings }
    ensures put { Puts result (line commands.Comment ++ (text_behind (symbols_with routed.now.design.now 0 routed.now.symbols.now.drawings) (laid_items (is_some routed.now.labels) routed.now.rules.now routed.now.design.now routed.now.symbols.now.feed_heights (drawings routed.now.rules.now (map W.wiring_of routed.now.wirings.now) routed.now.laid.now.channel_base) routed.now.laid.now))) (K.written out.old) (K.written out.new) (K.faults out.old) (K.faults out.new) (K.same_place out.old out.new) (K.else_same out.old out.new) }
    ensures goes { V.goes watch.old watch.new }
{
    let all = shapes_in(routed.wirings);
    let mut text = Text::begin();
    write_symbols(
        &mut text,
        out,
        routed.design,
        routed.symbols.drawings.items(),
    )?;
    write_main(&mut text, out, routed, all, watch)?;
    watch.told(Step::Writing, all, all);
    text.end(out)
}

// Puts the text of a routed design to a file.
fn put_design<'p, W: HasWiring, S: Shelf, V: Watch>(
    shelf: &mut S,
    file: &str,
    routed: &'p RoutedDesign<'p, W>,
    watch: &mut V,
) -> Result<(), Failed>
    requires parts { AreLabelParts routed.now.rules.now routed.now.design.now routed.now.symbols.now.drawings (option_map (λ firsts. firsts.now) routed.now.labels) }
    requires reach { AreInReach routed.now.rules.now (map W.wiring_of routed.now.wirings.now) routed.now.laid.now.channel_base routed.now.laid.now.cells routed.now.laid.now.risers routed.now.symbols.now.drawings }
    ensures put { Puts result (line commands.Comment ++ (text_behind (symbols_with routed.now.design.now 0 routed.now.symbols.now.drawings) (laid_items (is_some routed.now.labels) routed.now.rules.now routed.now.design.now routed.now.symbols.now.feed_heights (drawings routed.now.rules.now (map W.wiring_of routed.now.wirings.now) routed.now.laid.now.channel_base) routed.now.laid.now))) (S.holds shelf.old file.now) (S.holds shelf.new file.now) (S.write_faults shelf.old file.now) (S.write_faults shelf.new file.now) (Unit {0}) (λ calm. OthersSame calm file.now (S.holds shelf.old) (S.holds shelf.new) (S.read_faults shelf.old) (S.read_faults shelf.new) (S.write_faults shelf.old) (S.write_faults shelf.new)) }
    ensures goes { V.goes watch.old watch.new }
{
    let mut out = FileSink::new(shelf, file);
    write_all(&mut out, routed, watch)
}

/// Makes a file hold the text of a routed design, and nothing else: the symbols of its kinds and of its feeds, and then its channels and rows from the bottom up, the
/// risers of a row behind its items, each rectangle written as it is drawn. Its wirings are routed, it lies as its stack says, and its symbols are drawn so. Where it has
/// the first pins of its nets, which are those of its design, the labels of each cell stand behind the cell. Takes no memory. After Failed, which comes only where the file's write count rose, the file holds what it held before, or a front of the text.
///
/// The text reads as the layout that the stack of these rows and wirings is, with labels or without.
pub fn write_layout<W: HasWiring, S: Shelf>(
    shelf: &mut S,
    file: &str,
    routed: &RoutedDesign<W>,
) -> Result<(), Failed>
    requires valid { ValidRules routed.now.rules.now }
    requires high { HasRoom routed.now.rules.now routed.now.design.now }
    requires fed { IsFed routed.now.design.now routed.now.fed.now }
    requires wired { IsRouted routed.now.rules.now routed.now.design.now routed.now.fed.now (map W.wiring_of routed.now.wirings.now) }
    requires laid { routed.now.laid.now ≡ laid_of (stack_of routed.now.rules.now routed.now.design.now routed.now.fed.now (map W.wiring_of routed.now.wirings.now)) }
    requires symbols { routed.now.symbols.now.drawings ≡ symbol_drawings routed.now.rules.now routed.now.design.now routed.now.fed.now }
    requires feeds { routed.now.symbols.now.feed_heights ≡ feed_heights routed.now.fed.now }
    requires labels { IfSome routed.now.labels (λ firsts. firsts.now ≡ first_pins routed.now.design.now) }
    ensures text { OnOk result (Refines (S.holds shelf.new file.now) (Some (placed_text (is_some routed.now.labels) routed.now.rules.now routed.now.design.now routed.now.fed.now (stack_of routed.now.rules.now routed.now.design.now routed.now.fed.now (map W.wiring_of routed.now.wirings.now))))) }
    ensures reads_as { ReadsAs (placed_text (is_some routed.now.labels) routed.now.rules.now routed.now.design.now routed.now.fed.now (stack_of routed.now.rules.now routed.now.design.now routed.now.fed.now (map W.wiring_of routed.now.wirings.now)))
        (layout_of routed.now.rules.now routed.now.design.now (stack_of routed.now.rules.now routed.now.design.now routed.now.fed.now (map W.wiring_of routed.now.wirings.now))) }
    ensures front { OnErr result (HoldsFront (placed_text (is_some routed.now.labels) routed.now.rules.now routed.now.design.now routed.now.fed.now (stack_of routed.now.rules.now routed.now.design.now routed.now.fed.now (map W.wiring_of routed.now.wirings.now)))
        (S.holds shelf.old file.now) (S.holds shelf.new file.now)) }
    ensures others { OthersSame (is_ok result) file.now (S.holds shelf.old) (S.holds shelf.new) (S.read_faults shelf.old) (S.read_faults shelf.new) (S.write_faults shelf.old) (S.write_faults shelf.new) }
    ensures cause { OnErr result (Rose (S.write_faults shelf.old file.now) (S.write_faults shelf.new file.now)) }
{
    write_layout_watched(shelf, file, routed, &mut Unwatched)
}

/// The same, where one that watches is told, at each row and at the end, how many of all rectangles of channels are written.
#[tactic(auto, unfolding(crate::specs::LayoutText::placed_text))]
pub fn write_layout_watched<W: HasWiring, S: Shelf, V: Watch>(
    shelf: &mut S,
    file: &str,
    routed: &RoutedDesign<W>,
    watch: &mut V,
) -> Result<(), Failed>
    requires valid { ValidRules routed.now.rules.now }
    requires high { HasRoom routed.now.rules.now routed.now.design.now }
    requires fed { IsFed routed.now.design.now routed.now.fed.now }
    requires wired { IsRouted routed.now.rules.now routed.now.design.now routed.now.fed.now (map W.wiring_of routed.now.wirings.now) }
    requires laid { routed.now.laid.now ≡ laid_of (stack_of routed.now.rules.now routed.now.design.now routed.now.fed.now (map W.wiring_of routed.now.wirings.now)) }
    requires symbols { routed.now.symbols.now.drawings ≡ symbol_drawings routed.now.rules.now routed.now.design.now routed.now.fed.now }
    requires feeds { routed.now.symbols.now.feed_heights ≡ feed_heights routed.now.fed.now }
    requires labels { IfSome routed.now.labels (λ firsts. firsts.now ≡ first_pins routed.now.design.now) }
    ensures text { OnOk result (Refines (S.holds shelf.new file.now) (Some (placed_text (is_some routed.now.labels) routed.now.rules.now routed.now.design.now routed.now.fed.now (stack_of routed.now.rules.now routed.now.design.now routed.now.fed.now (map W.wiring_of routed.now.wirings.now))))) }
    ensures reads_as { ReadsAs (placed_text (is_some routed.now.labels) routed.now.rules.now routed.now.design.now routed.now.fed.now (stack_of routed.now.rules.now routed.now.design.now routed.now.fed.now (map W.wiring_of routed.now.wirings.now)))
        (layout_of routed.now.rules.now routed.now.design.now (stack_of routed.now.rules.now routed.now.design.now routed.now.fed.now (map W.wiring_of routed.now.wirings.now))) }
    ensures front { OnErr result (HoldsFront (placed_text (is_some routed.now.labels) routed.now.rules.now routed.now.design.now routed.now.fed.now (stack_of routed.now.rules.now routed.now.design.now routed.now.fed.now (map W.wiring_of routed.now.wirings.now)))
        (S.holds shelf.old file.now) (S.holds shelf.new file.now)) }
    ensures others { OthersSame (is_ok result) file.now (S.holds shelf.old) (S.holds shelf.new) (S.read_faults shelf.old) (S.read_faults shelf.new) (S.write_faults shelf.old) (S.write_faults shelf.new) }
    ensures cause { OnErr result (Rose (S.write_faults shelf.old file.now) (S.write_faults shelf.new file.now)) }
    ensures goes { V.goes watch.old watch.new }
{
    // The bounds of the design's type are known once a field is read.
    let design = routed.design;
    let _kinds = &design.kinds;
    shelf.begin(file)?;
    put_design(shelf, file, routed, watch)
}
