//! The notes on the findings of a layout.

use crate::cell_notes::{doubled, missing, strange};
use crate::drawing_notes::misdrawn;
use crate::enclosing::bare_cut;
use crate::heads::head_of;
use crate::judged::JudgedLayout;
use crate::lengths::shown;
use crate::net_notes::{opened, shorted};
use crate::shape_lines::{ShapeLines, shape_lines};
use crate::shape_nets::{ShapeNets, shape_nets};
use crate::shape_notes::{narrow, out_of_row, overlapping, too_close};
use crate::told::Told;
use crate::untold::Untold;
use layout_check::Finding;
use note_text::Notes;
use std::alloc::Global;

// How many findings are told.
const MOST_TOLD: usize = 100;

// The lines of the shapes, and their nets, as far as they are known.
#[derive(Drop)]
struct Known {
    lines: Option<ShapeLines>,
    nets: Option<ShapeNets>,
}

// Whether a finding is one on cells.
fn is_of_cells(finding: &Finding) -> bool {
    matches!(
        finding,
        Finding::Missing(_) | Finding::Doubled(_, _) | Finding::Strange(_) | Finding::Drawing(_)
    )
}

// Whether a finding is one on outlines.
fn is_of_rows(finding: &Finding) -> bool {
    matches!(finding, Finding::Overlap(_, _) | Finding::OutOfRow(_, _))
}

// Whether nets are to be told: cells are right, and one of these findings is on wires or cuts.
fn are_nets_told(findings: &[Finding]) -> bool {
    let with_cells = findings.iter().any(|finding| is_of_cells(finding));
    let with_wires = findings.iter().any(|finding| !is_of_rows(finding));
    !with_cells && with_wires
}

// The first of the findings, at most so many.
fn first_of(findings: &[Finding], most: usize) -> &[Finding] {
    if findings.len() > most {
        &findings[..most]
    } else {
        findings
    }
}

// What is known where these findings are told.
fn known_for(alloc: Global, judged: &JudgedLayout<'_>, findings: &[Finding]) -> Known {
    let nets = if are_nets_told(findings) {
        shape_nets(alloc, judged)
    } else {
        None
    };
    Known {
        lines: shape_lines(alloc, judged),
        nets,
    }
}

// What is told of a finding.
fn told_of(
    alloc: Global,
    judged: &JudgedLayout<'_>,
    nets: Option<&ShapeNets>,
    finding: Finding,
) -> Result<Told, Untold> {
    match finding {
        Finding::Missing(i) => missing(alloc, judged, i),
        Finding::Doubled(c, d) => doubled(alloc, judged, c, d),
        Finding::Strange(c) => strange(alloc, judged, c),
        Finding::Drawing(c) => misdrawn(alloc, judged, c),
        Finding::Overlap(i, j) => overlapping(alloc, judged, i, j),
        Finding::OutOfRow(i, j) => out_of_row(alloc, judged, i, j),
        Finding::Narrow(i) => narrow(alloc, judged, nets, i),
        Finding::Close(i, j) => too_close(alloc, judged, nets, i, j),
        Finding::BareCut(i) => bare_cut(alloc, judged, nets, i),
        Finding::Opened(p, q) => opened(alloc, judged, nets.ok_or(Untold)?, p, q),
        Finding::Short(p, q) => shorted(alloc, judged, nets.ok_or(Untold)?, p, q),
    }
}

// The line of a shape's command, where it is known.
fn line_of(lines: Option<&ShapeLines>, shape: Option<u32>) -> Option<u32> {
    lines?.line_of(shape?)
}

// The lines in the text, in brackets, as far as they are known.
fn lines_text(
    alloc: Global,
    judged: &JudgedLayout<'_>,
    lines: Option<&ShapeLines>,
    told: &Told,
) -> Result<String, Untold> {
    let name = shown(alloc, judged.cif_name.as_bytes())?;
    let text = match (line_of(lines, told.first), line_of(lines, told.second)) {
        (Some(first), Some(second)) if first != second => {
            format!(in alloc; " [{name}:{first}, {name}:{second}]")?
        }
        (Some(line), _) | (None, Some(line)) => format!(in alloc; " [{name}:{line}]")?,
        (None, None) => String::new(alloc),
    };
    Ok(text)
}

// The note on a finding.
fn note_of(
    alloc: Global,
    judged: &JudgedLayout<'_>,
    known: &Known,
    finding: Finding,
) -> Result<String, Untold> {
    let head = head_of(alloc, judged, finding)?;
    let told = told_of(alloc, judged, known.nets.as_ref(), finding)?;
    let lines = lines_text(alloc, judged, known.lines.as_ref(), &told)?;
    let text = told.text.as_str();
    Ok(format!(in alloc; "{head}: {text}{lines}")?)
}

// Notes each of these findings.
fn note_each(alloc: Global, notes: &mut Notes, judged: &JudgedLayout<'_>, findings: &[Finding]) {
    let known = known_for(alloc, judged, findings);
    for finding in findings {
        if let Ok(note) = note_of(alloc, judged, &known, *finding) {
            notes.note(note);
        }
    }
}

/// Notes the findings of a layout, the first hundred each in a line that begins with the finding as it is printed, and then how many more there are: where it is, what
/// it concerns, what was measured, what the rules want, and the lines of the text. What memory has no room for is left out.
pub fn note_findings(
    alloc: Global,
    notes: &mut Notes,
    judged: &JudgedLayout<'_>,
    findings: &[Finding],
) {
    if findings.is_empty() {
        return;
    }
    note_each(alloc, notes, judged, first_of(findings, MOST_TOLD));
    let more = findings.len().saturating_sub(MOST_TOLD);
    if more == 0 {
        return;
    }
    if let Ok(line) = format!(in alloc; "and {more} more") {
        notes.note(line);
    }
}
