//! The texts of routed designs.

ghost use Rattle.channel_stack.specs.Routed.{IsRouted};
ghost use Rattle.channel_stack.specs.Stack.{laid_of, stack_of};
ghost use Rattle.cif_writer.specs.FeedHeights.{feed_heights};
ghost use Rattle.cif_writer.specs.Labels.{first_pins};
ghost use Rattle.cif_writer.specs.Symbols.{symbol_drawings};
ghost use Rattle.design_model.specs.Room.{HasRoom};
ghost use Rattle.feed_cells.specs.Fed.{IsFed};
ghost use Rattle.pin_assign.specs.Tables.{tables_of};
ghost use Rattle.std.specs.Prelude.{◌≡◌, IfSome};
ghost use Rattle.tech_rules.specs.Rules.{ValidRules};

use channel_model::{Channel, Wiring};
use channel_stack::{Laid, lay};
use cif_writer::{FirstPins, RoutedDesign, Symbols, first_pins, symbol_drawings, write_layout};
use design_model::Design;
use feed_cells::FedRows;
use shelf_io::MemShelf;
use std::alloc::{AllocError, Global};
use tech_rules::Rules;

/// What a shelf holds as the text; None where it holds none.
fn text_on(alloc: Global, shelf: &MemShelf) -> Result<Option<Vec<u8>>, AllocError> {
    match shelf.get("out") {
        Some(bytes) => Ok(Some(bytes.to_vec(alloc)?)),
        None => Ok(None),
    }
}

/// The text of a routed design as it is written to a shelf in memory; None where that fails.
fn text_drawn(alloc: Global, routed: &RoutedDesign<Wiring>) -> Result<Option<Vec<u8>>, AllocError>
    requires valid { ValidRules routed.now.rules.now }
    requires high { HasRoom routed.now.rules.now routed.now.design.now }
    requires fed { IsFed routed.now.design.now routed.now.fed.now }
    requires wired { IsRouted routed.now.rules.now routed.now.design.now routed.now.fed.now routed.now.wirings.now }
    requires laid { routed.now.laid.now ≡ laid_of (stack_of routed.now.rules.now routed.now.design.now routed.now.fed.now routed.now.wirings.now) }
    requires symbols { routed.now.symbols.now.drawings ≡ symbol_drawings routed.now.rules.now routed.now.design.now routed.now.fed.now }
    requires feeds { routed.now.symbols.now.feed_heights ≡ feed_heights routed.now.fed.now }
    requires labels { IfSome routed.now.labels (λ firsts. firsts.now ≡ first_pins routed.now.design.now) }
{
    let mut shelf = MemShelf::new(alloc)?;
    match write_layout(&mut shelf, "out", routed) {
        Ok(()) => text_on(alloc, &shelf),
        Err(_) => Ok(None),
    }
}

/// The texts of a routed design without labels and with them.
#[derive(Drop)]
pub(crate) struct Texts {
    pub(crate) bare: Vec<u8>,
    pub(crate) labelled: Vec<u8>,
}

/// The text of a routed design of these parts; None where that fails.
fn text_of_parts<'p>(
    alloc: Global,
    design: &'p Design,
    fed: &'p FedRows,
    laid: &'p Laid,
    wirings: &'p [Wiring],
    rules: &'p Rules,
    symbols: &'p Symbols,
    labels: Option<&'p FirstPins>,
) -> Result<Option<Vec<u8>>, AllocError>
    requires valid { ValidRules rules.now }
    requires high { HasRoom rules.now design.now }
    requires fed { IsFed design.now fed.now }
    requires routed { IsRouted rules.now design.now fed.now wirings.now }
    requires laid { laid.now ≡ laid_of (stack_of rules.now design.now fed.now wirings.now) }
    requires symbols { symbols.now.drawings ≡ symbol_drawings rules.now design.now fed.now }
    requires feeds { symbols.now.feed_heights ≡ feed_heights fed.now }
    requires labels { IfSome labels (λ firsts. firsts.now ≡ first_pins design.now) }
{
    let routed = RoutedDesign {
        design,
        fed,
        wirings,
        laid,
        symbols,
        rules,
        labels,
    };
    text_drawn(alloc, &routed)
}

/// The texts of a routed design that is laid; None where that fails.
fn texts_laid(
    alloc: Global,
    design: &Design,
    fed: &FedRows,
    laid: &Laid,
    wirings: &[Wiring],
    rules: &Rules,
) -> Result<Option<Texts>, AllocError>
    requires valid { ValidRules rules.now }
    requires high { HasRoom rules.now design.now }
    requires fed { IsFed design.now fed.now }
    requires routed { IsRouted rules.now design.now fed.now wirings.now }
    requires laid { laid.now ≡ laid_of (stack_of rules.now design.now fed.now wirings.now) }
{
    let symbols = symbol_drawings(alloc, design, fed, rules)?;
    let firsts = first_pins(alloc, design)?;
    let bare = text_of_parts(alloc, design, fed, laid, wirings, rules, &symbols, None)?;
    let labels = Some(&firsts);
    let labelled = text_of_parts(alloc, design, fed, laid, wirings, rules, &symbols, labels)?;
    let Some(bare) = bare else {
        return Ok(None);
    };
    let Some(labelled) = labelled else {
        return Ok(None);
    };
    Ok(Some(Texts { bare, labelled }))
}

/// The texts of a routed design; None where that fails.
pub(crate) fn texts_written(
    alloc: Global,
    design: &Design,
    fed: &FedRows,
    channels: &[Channel],
    wirings: &[Wiring],
    rules: &Rules,
) -> Result<Option<Texts>, AllocError>
    requires valid { ValidRules rules.now }
    requires high { HasRoom rules.now design.now }
    requires fed { IsFed design.now fed.now }
    requires channels { channels.now ≡ tables_of design.now fed.now }
    requires routed { IsRouted rules.now design.now fed.now wirings.now }
{
    let laid = lay(alloc, design, fed, channels, wirings, rules)?;
    texts_laid(alloc, design, fed, &laid, wirings, rules)
}
