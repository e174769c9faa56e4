//! Designs and layouts of texts, and what is wrong with them.

ghost use Rattle.design_model.specs.Room.{HasRoom};
ghost use Rattle.layout_merge.specs.Near.{IsMergeable};
ghost use Rattle.std.specs.Prelude.{IfOk, IfSome};
ghost use Rattle.samples.specs.Sample.{sample};

use cif_reader::expand;
use cif_text::read_commands;
use design_model::Design;
use geom_core::Layout;
use layout_check::{Finding, check};
use samples::{BUFFER, designed, sample_rules};
use std::alloc::{AllocError, Global};

/// The symbol of BUF.
pub(crate) const SYMBOL: &str =
    "DS 1 1 1; 9 BUF; L XP; B 800 4000 400 2000; L NP; B 300 400 400 3800; DF;";

/// Two copies of it next to each other, `u1` and `u2`.
pub(crate) const CELLS: &str = "91 u1; C 1 T 0 800; 91 u2; C 1 T 800 800;";

/// The wire above them that joins their pins: two verticals, shapes 4 and 5, a horizontal, 6, and a pad of each layer with a cut where they
/// cross, 7 to 9 and 10 to 12.
pub(crate) const WIRE: &str =
    "L NP; B 300 1000 400 5300; B 300 1000 1200 5300; L NM; B 1200 300 800 5600; B 400 400 400 5600; L NP; B 400 400 400 5600; L NC; B 200 200 400 5600; L NM; B 400 400 1200 5600; L NP; B 400 400 1200 5600; L NC; B 200 200 1200 5600;";

/// Two buffers in one net.
pub(crate) const ONE_NET: &str = "u1 BUF n1; u2 BUF n1;";

/// The layout of a text of CIF, or None where it has none.
pub(crate) fn layout_of(alloc: Global, text: &[u8]) -> Result<Option<Layout>, AllocError>
    ensures { IfOk result (λ found. IfSome found IsMergeable) }
{
    if text.len() >= 1 << 24 {
        return Ok(None);
    }
    let Ok(commands) = read_commands(alloc, text) else {
        return Ok(None);
    };
    match expand(alloc, commands.as_slice()) {
        Ok(layout) => Ok(Some(layout)),
        Err(_) => Ok(None),
    }
}

/// The design of these modules and calls under the sample rules, or None where there is none.
pub(crate) fn sampled(
    alloc: Global,
    modules: &str,
    calls: &str,
) -> Result<Option<Design>, AllocError>
    ensures { IfOk result (λ found. IfSome found (HasRoom sample)) }
{
    match designed(alloc, modules, calls) {
        Ok(design) => Ok(Some(design)),
        Err(_) => Ok(None),
    }
}

/// What is wrong with the layout of a text of CIF as that of a design of these modules and calls, under the sample rules; None where the
/// texts are of no design or of no layout.
pub(crate) fn findings_of(
    alloc: Global,
    modules: &str,
    calls: &str,
    text: &[u8],
) -> Result<Option<Vec<Finding>>, AllocError> {
    let rules = sample_rules(alloc)?;
    let Some(design) = sampled(alloc, modules, calls)? else {
        return Ok(None);
    };
    let Some(layout) = layout_of(alloc, text)? else {
        return Ok(None);
    };
    Ok(Some(check(alloc, &layout, &design, &rules)?))
}

/// A name, the calls of two buffers or more, the pieces of a text of CIF before its end, and what is wrong with its layout.
pub(crate) type Case = (
    &'static str,
    &'static str,
    &'static [&'static str],
    &'static [Finding],
);

/// Whether just this is wrong with the layout of a text of CIF in pieces as that of buffers with these calls.
pub(crate) fn is_case(
    alloc: Global,
    calls: &str,
    pieces: &[&str],
    want: &[Finding],
) -> Result<bool, AllocError> {
    let mut text = String::new(alloc);
    for piece in pieces {
        text.push_str(piece)?;
    }
    text.push_str("E")?;
    match findings_of(alloc, BUFFER, calls, text.as_bytes())? {
        Some(findings) => Ok(findings.as_slice() == want),
        None => Ok(false),
    }
}
