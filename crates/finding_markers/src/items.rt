//! The items of a report database.

ghost use Rattle.command_ends.specs.FindingLines.{finding_words};
ghost use Rattle.finding_markers.specs.Markers.{boxes_text, category, item_text, items_text, words_text};
ghost use Rattle.finding_markers.specs.Places.{places_of};
ghost use Rattle.shelf_io.specs.Wrote.{Writes};
ghost use Rattle.std.specs.Prelude.{◌≡◌};

use crate::pins::append_pins;
use crate::places::{append_place, append_two_places, cell_place, shape_place};
use crate::texts::{Part, text_of_part};
use crate::words::append_words;
use command_ends::finding_words;
use design_model::Design;
use geom_core::Layout;
use layout_check::Finding;
use marker_text::append_three;
use shelf_io::{Buffer, Failed, Sink};

// The category of a finding.
#[tactic(auto, unfolding(crate::specs::Markers::category))]
fn category(finding: Finding) -> &'static [u8]
    ensures { result.now ≡ category finding }
{
    match finding {
        Finding::Missing(_) => b"Missing",
        Finding::Doubled(_, _) => b"Doubled",
        Finding::Strange(_) => b"Strange",
        Finding::Drawing(_) => b"Drawing",
        Finding::Overlap(_, _) => b"Overlap",
        Finding::OutOfRow(_, _) => b"OutOfRow",
        Finding::Narrow(_) => b"Narrow",
        Finding::Close(_, _) => b"Close",
        Finding::BareCut(_) => b"BareCut",
        Finding::Opened(_, _) => b"Open",
        Finding::Short(_, _) => b"Short",
    }
}

// Puts the words of a finding behind what is buffered.
fn append_finding_words<K: Sink>(
    buffer: &mut Buffer,
    out: &mut K,
    design: &Design,
    layout: &Layout,
    finding: Finding,
) -> Result<(), Failed>
    ensures { Writes result (words_text (finding_words design.now layout.now finding)) buffer.old buffer.new (K.written out.old) (K.written out.new) (K.faults out.old) (K.faults out.new) (K.same_place out.old out.new) (K.else_same out.old out.new) }
{
    let (words, count) = finding_words(design, layout, finding);
    append_words(buffer, out, &words[..count])
}

// Puts the boxes of a finding behind what is buffered.
#[tactic(auto, unfolding(crate::specs::Places::places_of))]
fn append_places<K: Sink>(
    buffer: &mut Buffer,
    out: &mut K,
    design: &Design,
    layout: &Layout,
    finding: Finding,
) -> Result<(), Failed>
    ensures { Writes result (boxes_text (places_of design.now layout.now finding)) buffer.old buffer.new (K.written out.old) (K.written out.new) (K.faults out.old) (K.faults out.new) (K.same_place out.old out.new) (K.else_same out.old out.new) }
{
    match finding {
        Finding::Missing(_) => append_place(buffer, out, None),
        Finding::Doubled(c, later) => append_two_places(
            buffer,
            out,
            cell_place(layout, c),
            cell_place(layout, later),
        ),
        Finding::Strange(c) => append_place(buffer, out, cell_place(layout, c)),
        Finding::Drawing(c) => append_place(buffer, out, cell_place(layout, c)),
        Finding::Overlap(i, j) => append_two_places(
            buffer,
            out,
            shape_place(layout, i),
            shape_place(layout, j),
        ),
        Finding::OutOfRow(i, j) => append_two_places(
            buffer,
            out,
            shape_place(layout, i),
            shape_place(layout, j),
        ),
        Finding::Narrow(i) => append_place(buffer, out, shape_place(layout, i)),
        Finding::Close(i, j) => append_two_places(
            buffer,
            out,
            shape_place(layout, i),
            shape_place(layout, j),
        ),
        Finding::BareCut(i) => append_place(buffer, out, shape_place(layout, i)),
        Finding::Opened(p, q) => append_pins(buffer, out, design, layout, p, q),
        Finding::Short(p, q) => append_pins(buffer, out, design, layout, p, q),
    }
}

// Puts the item of a finding behind what is buffered.
fn append_item<K: Sink>(
    buffer: &mut Buffer,
    out: &mut K,
    design: &Design,
    layout: &Layout,
    finding: Finding,
) -> Result<(), Failed>
    ensures { Writes result (item_text design.now layout.now finding) buffer.old buffer.new (K.written out.old) (K.written out.new) (K.faults out.old) (K.faults out.new) (K.same_place out.old out.new) (K.else_same out.old out.new) }
{
    append_three(
        buffer,
        out,
        text_of_part(Part::Item),
        category(finding),
        text_of_part(Part::InCell),
    )?;
    append_finding_words(buffer, out, design, layout, finding)?;
    buffer.append(out, text_of_part(Part::TextEnd))?;
    append_places(buffer, out, design, layout, finding)?;
    buffer.append(out, text_of_part(Part::ItemEnd))
}

/// Puts an item for each finding behind what is buffered.
pub(crate) fn append_items<K: Sink>(
    buffer: &mut Buffer,
    out: &mut K,
    design: &Design,
    layout: &Layout,
    findings: &[Finding],
) -> Result<(), Failed>
    ensures { Writes result (items_text design.now layout.now findings.now) buffer.old buffer.new (K.written out.old) (K.written out.new) (K.faults out.old) (K.faults out.new) (K.same_place out.old out.new) (K.else_same out.old out.new) }
{
    let mut rest = findings;
    while let Some((finding, after)) = rest.split_first() {
        append_item(buffer, out, design, layout, *finding)?;
        rest = after;
    }
    Ok(())
}
