//! What is told of the layout of a text.

ghost use Rattle.design_model.specs.Room.{HasRoom};
ghost use Rattle.layout_check.specs.Measured.{IsMeasured};
ghost use Rattle.std.specs.Prelude.{IfOk, IfSome};
ghost use Rattle.samples.specs.Sample.{sample};

use cif_reader::expand;
use cif_text::read_commands;
use design_model::Design;
use finding_notes::{JudgedLayout, note_findings};
use geom_core::Layout;
use layout_check::check;
use note_text::{Notes, put_notes};
use samples::{designed, sample_rules};
use shelf_io::MemSink;
use std::alloc::{AllocError, Global};

/// The symbol of BUF, in line 1.
pub(crate) const SYMBOL: &str =
    "DS 1 1 1; 9 BUF; L XP; B 800 4000 400 2000; L NP; B 300 400 400 3800; DF;\n";

/// Two copies of it next to each other, in lines 2 and 3.
pub(crate) const CELLS: &str = "91 u1; C 1 T 0 800;\n91 u2; C 1 T 800 800;\n";

/// The wire above them that joins their pins: two verticals, shapes 4 and 5, in line 4, a horizontal, 6, in line 5, and a pad of each layer with a cut where they cross, 7 to 9 in
/// line 6, and 10 to 12 in line 7.
pub(crate) const WIRE: &str =
    "L NP; B 300 1000 400 5300; B 300 1000 1200 5300;\nL NM; B 1200 300 800 5600;\nB 400 400 400 5600; L NP; B 400 400 400 5600; L NC; B 200 200 400 5600;\nL NM; B 400 400 1200 5600; L NP; B 400 400 1200 5600; L NC; B 200 200 1200 5600;\n";

/// Two buffers in one net.
pub(crate) const ONE_NET: &str = "u1 BUF n1; u2 BUF n1;";

/// Two buffers in two nets.
pub(crate) const TWO_NETS: &str = "u1 BUF n1; u2 BUF n2;";

/// The layout of a text of CIF, or None where it has none.
pub(crate) fn layout_of(alloc: Global, text: &[u8]) -> Result<Option<Layout>, AllocError>
    ensures { IfOk result (λ found. IfSome found IsMeasured) }
{
    if text.len() >= 1 << 24 {
        return Ok(None);
    }
    let Ok(commands) = read_commands(alloc, text) else {
        return Ok(None);
    };
    match expand(alloc, commands.as_slice()) {
        Ok(layout) => Ok(Some(layout)),
        Err(_) => Ok(None),
    }
}

/// The design of these modules and calls under the sample rules, or None where there is none.
pub(crate) fn sampled(
    alloc: Global,
    modules: &str,
    calls: &str,
) -> Result<Option<Design>, AllocError>
    ensures { IfOk result (λ found. IfSome found (HasRoom sample)) }
{
    match designed(alloc, modules, calls) {
        Ok(design) => Ok(Some(design)),
        Err(_) => Ok(None),
    }
}

// The lines of notes.
fn lines_of(alloc: Global, notes: &Notes) -> Result<String, AllocError> {
    let mut sink = MemSink::new(alloc)?;
    let mut text = String::new(alloc);
    if put_notes(&mut sink, notes).is_err() {
        return Err(AllocError);
    }
    if let Ok(lines) = str::from_utf8(sink.bytes()) {
        text.push_str(lines)?;
    }
    Ok(text)
}

/// The notes on the layout of a text of CIF as that of a design of these modules and calls, under the sample rules. The file is called `o.cif`, and the notes know its text or not.
/// None where the texts are of no design or of no layout.
pub(crate) fn told_of(
    alloc: Global,
    modules: &str,
    calls: &str,
    text: &[u8],
    is_known: bool,
) -> Result<Option<String>, AllocError> {
    let rules = sample_rules(alloc)?;
    let Some(design) = sampled(alloc, modules, calls)? else {
        return Ok(None);
    };
    let Some(layout) = layout_of(alloc, text)? else {
        return Ok(None);
    };
    let findings = check(alloc, &layout, &design, &rules)?;
    let judged = JudgedLayout {
        cif_name: "o.cif",
        text: if is_known { Some(text) } else { None },
        design: &design,
        rules: &rules,
        layout: &layout,
    };
    let mut notes = Notes::new(alloc);
    note_findings(alloc, &mut notes, &judged, findings.as_slice());
    Ok(Some(lines_of(alloc, &notes)?))
}

/// A name, the calls of buffers, the pieces of a text of CIF before its end, and the lines of its notes.
pub(crate) type Case = (
    &'static str,
    &'static str,
    &'static [&'static str],
    &'static str,
);

/// The notes on the layout of a text of CIF in pieces as that of buffers with these calls.
pub(crate) fn told_in(
    alloc: Global,
    calls: &str,
    pieces: &[&str],
) -> Result<Option<String>, AllocError> {
    let mut text = String::new(alloc);
    for piece in pieces {
        text.push_str(piece)?;
    }
    text.push_str("E")?;
    told_of(alloc, samples::BUFFER, calls, text.as_bytes(), true)
}

/// The notes on so many buffers in one net, in rows of a thousand without a wire.
pub(crate) fn many_told(alloc: Global, count: u32) -> Result<Option<String>, AllocError> {
    let mut calls = String::new(alloc);
    let mut text = String::new(alloc);
    text.push_str(SYMBOL)?;
    for n in 0..count {
        let (x, y) = (n % 1000 * 800, (n / 1000).saturating_mul(8000));
        calls.push_str(format!(in alloc; "c{n} BUF net;\n")?.as_str())?;
        text.push_str(format!(in alloc; "91 c{n};\nC 1 T {x} {y};\n")?.as_str())?;
    }
    text.push_str("E\n")?;
    told_of(
        alloc,
        samples::BUFFER,
        calls.as_str(),
        text.as_bytes(),
        true,
    )
}
