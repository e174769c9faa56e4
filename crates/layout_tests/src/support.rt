//! Designs in rows, what is stacked of them, and their texts.

ghost use Rattle.channel_stack.specs.Routed.{IsRouted};
ghost use Rattle.design_model.specs.Room.{HasRoom};
ghost use Rattle.feed_cells.specs.Fed.{IsFed, cells_in};
ghost use Rattle.feed_cells.specs.Placement.{placement_of};
ghost use Rattle.pin_assign.specs.Tables.{tables_of};
ghost use Rattle.row_model.specs.Rows.{ArePlaced};
ghost use Rattle.std.specs.Prelude.{◌≡◌, ◌<◌, ◌≤◌, true, IfOk, IfSome};
ghost use Rattle.tech_rules.specs.Rules.{ValidRules};

use crate::mirror::mirrored;
use crate::routing::route_channels;
use crate::written::{Texts, texts_written};
use channel_model::{Channel, Wiring};
use channel_stack::{Placed, stack};
use design_model::Design;
use feed_cells::{FedRows, Placement, insert_feeds, place};
use pin_assign::{bound_of, channels};
use row_model::{Rows, start};
use samples::{CELLS, SampleFault, designed, sample_rules};
use std::alloc::{AllocError, Global};
use tech_rules::{Rules, StartBy};

/// Cells besides the samples. LEAN is 40 units high as they are, and has four columns: `a` below in the first and above in the second, `y` above in the last, and `b` below in the third. TRI is as
/// high, with a pin above in each of its three columns. MID is 42 high, and TAL and INT are 80; each has one column, with a pin above or in INT below.
const CELLS_BESIDE: &str = "\
MODULE LEAN; TYPE STANDARD; DIMENSIONS 0 0 32 0 32 40 0 40; IOLIST; a I 4 0 3 POLY; a I 12 40 3 POLY; y O 28 40 3 POLY; b I 20 0 3 POLY; ENDIOLIST; ENDMODULE;\n\
MODULE TRI; TYPE STANDARD; DIMENSIONS 0 0 24 0 24 40 0 40; IOLIST; x O 4 40 3 POLY; y O 12 40 3 POLY; z O 20 40 3 POLY; ENDIOLIST; ENDMODULE;\n\
MODULE MID; TYPE STANDARD; DIMENSIONS 0 0 8 0 8 42 0 42; IOLIST; y O 4 42 3 POLY; ENDIOLIST; ENDMODULE;\n\
MODULE TAL; TYPE STANDARD; DIMENSIONS 0 0 8 0 8 80 0 80; IOLIST; y O 4 80 3 POLY; ENDIOLIST; ENDMODULE;\n\
MODULE INT; TYPE STANDARD; DIMENSIONS 0 0 8 0 8 80 0 80; IOLIST; a I 4 0 3 POLY; ENDIOLIST; ENDMODULE;\n";

/// Calls, the number of rows that they go into, and whether each cell is mirrored there.
#[derive(Clone, Copy)]
pub(crate) struct Rowed {
    pub(crate) calls: &'static str,
    pub(crate) rows: u32,
    pub(crate) mirrored: bool,
}

/// The design of the sample cells and those beside them with these calls.
pub(crate) fn designed_with(alloc: Global, calls: &str) -> Result<Design, SampleFault> {
    let modules = format!(in alloc; "{CELLS}{CELLS_BESIDE}").map_err(|_| SampleFault::Memory)?;
    designed(alloc, modules.as_str(), calls)
}

/// The rows that a design begins with, or these with each cell mirrored.
pub(crate) fn rows_of(
    alloc: Global,
    design: &Design,
    count: u32,
    mirror: bool,
) -> Result<Rows, AllocError>
    requires some { 0 < count }
    requires few { count ≤ 512 }
    ensures { IfOk result (λ made. ArePlaced design.now made) }
{
    let rows = start(alloc, design, count, StartBy::Width)?;
    if mirror {
        return mirrored(alloc, &rows);
    }
    Ok(rows)
}

/// The channels between rows with feeds, and a wiring of each.
#[derive(Drop)]
struct RoutedRows {
    channels: Vec<Channel>,
    wirings: Vec<Wiring>,
}

/// The channels between rows with feeds, wired by the plain router; None where the layout is above a limit.
fn routed_rows(
    alloc: Global,
    design: &Design,
    fed: &FedRows,
    placement: &Placement,
    rules: &Rules,
) -> Result<Option<RoutedRows>, AllocError>
    requires fed { IsFed design.now fed.now }
    requires placement { placement.now ≡ placement_of design.now (cells_in fed.now.rows) }
    ensures channels { IfOk result (λ made. IfSome made (λ rows. rows.channels.items ≡ tables_of design.now fed.now)) }
    ensures routed { IfOk result (λ made. IfSome made (λ rows. IsRouted rules.now design.now fed.now rows.wirings.items)) }
{
    let bound = bound_of(design, fed, rules);
    if bound.grid > 4000000 || bound.width > 1000000000 || bound.height > 1000000000 {
        return Ok(None);
    }
    let channels = channels(alloc, design, fed, placement)?;
    let wirings = route_channels(alloc, channels.as_slice())?;
    Ok(Some(RoutedRows { channels, wirings }))
}

/// A layout: what is stacked, and its texts without labels and with them.
#[derive(Drop)]
pub(crate) struct Shown {
    pub(crate) placed: Placed,
    pub(crate) texts: Texts,
}

/// The layout of a routed design; None where it has no text.
fn shown_routed(
    alloc: Global,
    design: &Design,
    fed: &FedRows,
    channels: &[Channel],
    wirings: &[Wiring],
    rules: &Rules,
) -> Result<Option<Shown>, SampleFault>
    requires valid { ValidRules rules.now }
    requires high { HasRoom rules.now design.now }
    requires fed { IsFed design.now fed.now }
    requires channels { channels.now ≡ tables_of design.now fed.now }
    requires routed { IsRouted rules.now design.now fed.now wirings.now }
{
    let Some(texts) = texts_written(alloc, design, fed, channels, wirings, rules)? else {
        return Ok(None);
    };
    let placed = stack(alloc, design, fed, channels, wirings, rules)?;
    Ok(Some(Shown { placed, texts }))
}

/// Whether each kind of cells of a design has room for its pins.
fn have_room(design: &Design, rules: &Rules) -> bool
    ensures { result ≡ true → HasRoom rules.now design.now }
{
    let least = 2 * u64::from(rules.grid.pin) + u64::from(rules.vertical.space);
    let mut kinds = design.kinds.items();
    while let Some((kind, others)) = kinds.split_first() {
        if u64::from(kind.height) < least {
            return false;
        }
        kinds = others;
    }
    true
}

/// The layout of rows with feeds; None where it is above a limit, or the cells have no room for their pins.
fn shown_fed(
    alloc: Global,
    design: &Design,
    fed: &FedRows,
    placement: &Placement,
    rules: &Rules,
) -> Result<Option<Shown>, SampleFault>
    requires fed { IsFed design.now fed.now }
    requires placement { placement.now ≡ placement_of design.now (cells_in fed.now.rows) }
{
    // What every value of the rules keeps is known once a field is read.
    let _grid = &rules.grid;
    if !have_room(design, rules) {
        return Ok(None);
    }
    let Some(rows) = routed_rows(alloc, design, fed, placement, rules)? else {
        return Ok(None);
    };
    let (channels, wirings) = (rows.channels.as_slice(), rows.wirings.as_slice());
    shown_routed(alloc, design, fed, channels, wirings, rules)
}

/// The layout of placed rows; None where they have none.
fn shown_placed(
    alloc: Global,
    design: &Design,
    rows: &Rows,
    placement: &Placement,
    rules: &Rules,
) -> Result<Option<Shown>, SampleFault>
    requires placed { ArePlaced design.now rows.now }
    requires placement { placement.now ≡ placement_of design.now rows.now }
{
    let fed = insert_feeds(alloc, design, rows, placement)?;
    shown_fed(alloc, design, &fed, placement, rules)
}

/// The layout of rows; None where they have none.
fn shown_rows(
    alloc: Global,
    design: &Design,
    rows: &Rows,
    rules: &Rules,
) -> Result<Option<Shown>, SampleFault>
    requires { ArePlaced design.now rows.now }
{
    let placement = place(alloc, design, rows)?;
    shown_placed(alloc, design, rows, &placement, rules)
}

/// The layout of a design in so many rows under rules; None where it has none.
fn shown_under(
    alloc: Global,
    design: &Design,
    count: u32,
    mirror: bool,
    rules: &Rules,
) -> Result<Option<Shown>, SampleFault>
    requires some { 0 < count }
    requires few { count ≤ 512 }
{
    let rows = rows_of(alloc, design, count, mirror)?;
    shown_rows(alloc, design, &rows, rules)
}

/// The layout of a design in rows under the sample rules; None where it has none.
pub(crate) fn shown_in(
    alloc: Global,
    design: &Design,
    rowed: Rowed,
) -> Result<Option<Shown>, SampleFault> {
    if rowed.rows == 0 || rowed.rows > 512 {
        return Ok(None);
    }
    let rules = sample_rules(alloc)?;
    shown_under(alloc, design, rowed.rows, rowed.mirrored, &rules)
}

/// The layout of calls in rows; None where they have none.
pub(crate) fn layout_for(alloc: Global, rowed: Rowed) -> Result<Option<Shown>, SampleFault> {
    let design = designed_with(alloc, rowed.calls)?;
    shown_in(alloc, &design, rowed)
}

/// What stands in a text behind these pieces; None where it does not begin with them.
pub(crate) fn behind<'t>(text: &'t [u8], pieces: &[&str]) -> Option<&'t [u8]> {
    let mut rest = text;
    for piece in pieces {
        rest = rest.strip_prefix(piece.as_bytes())?;
    }
    Some(rest)
}

/// Whether a text is made of these pieces.
pub(crate) fn is_made_of(text: &[u8], pieces: &[&str]) -> bool {
    match behind(text, pieces) {
        Some(rest) => rest.is_empty(),
        None => false,
    }
}
