//! The command to check a layout.

ghost use Rattle.command_inputs.specs.Reading.{files};
ghost use Rattle.command_words.specs.Command as asked;
ghost use Rattle.command_words.specs.Seen.{check_seen};
ghost use Rattle.commands.specs.Carried.{Carried};
ghost use Rattle.commands.specs.Changes.{AreMarked};
ghost use Rattle.commands.specs.Done.{AreFound, end_seen};
ghost use Rattle.commands.specs.Headline.{layout_so};
ghost use Rattle.commands.specs.Verdict.{labels_on};
ghost use Rattle.design_model.specs.Room.{HasRoom};
ghost use Rattle.layout_check.specs.Measured.{IsMeasured};
ghost use Rattle.layout_merge.specs.Near.{IsMergeable};
ghost use Rattle.std.specs.Prelude.{◌≡◌, [], Some, IfOk, option_map};

use crate::done::{Done, Judged};
use crate::heard::Heard;
use command_ends::{Refusal, Stop};
use command_inputs::{Inputs, load_inputs, load_layout};
use command_words::{Check, Source};
use finding_markers::write_markers;
use geom_core::{LayerName, Layout};
use layout_check::check;
use layout_merge::merge_layout;
use shelf_io::{Failed, Shelf};
use std::alloc::{AllocError, Global};
use tech_rules::Rules;

// The layout that is judged: one that is read by labels stands for the one of the same areas.
fn layout_so(
    alloc: Global,
    labels: bool,
    inputs: &Inputs,
    layout: Layout,
) -> Result<Layout, AllocError>
    requires layout { IsMergeable layout }
    requires room { HasRoom inputs.now.rules inputs.now.designs.drawn.design }
    ensures is { IfOk result (λ l. l ≡ layout_so labels inputs.now.rules inputs.now.designs.drawn.design layout) }
    ensures measured { IfOk result IsMeasured }
{
    if labels {
        merge_layout(alloc, layout, &inputs.designs.drawn.design, &inputs.rules)
    } else {
        Ok(layout)
    }
}

// Finds what is wrong with a layout that is read by labels or not.
fn judge_layout(
    alloc: Global,
    labels: bool,
    inputs: Inputs,
    layout: Layout,
) -> Result<Judged, AllocError>
    requires layout { IsMergeable layout }
    requires room { HasRoom inputs.rules inputs.designs.drawn.design }
    ensures inputs { IfOk result (λ j. j.inputs ≡ inputs) }
    ensures layout { IfOk result (λ j. j.layout ≡ layout_so labels inputs.rules inputs.designs.drawn.design layout) }
    ensures found { IfOk result (λ j. AreFound j.inputs j.layout j.findings.items) }
{
    let layout = layout_so(alloc, labels, &inputs, layout)?;
    let findings = check(alloc, &layout, &inputs.designs.drawn.design, &inputs.rules)?;
    Ok(Judged {
        inputs,
        layout,
        findings,
    })
}

// Writes the findings as a report database into a file. Takes no memory.
fn mark_in<S: Shelf>(shelf: &mut S, file: &str, judged: Judged) -> Result<Done, Stop>
    ensures { AreMarked judged.inputs judged.layout judged.findings.items (Some file.now) (end_seen result)
        (files (S.holds shelf.old) (S.read_faults shelf.old) (S.write_faults shelf.old)) (files (S.holds shelf.new) (S.read_faults shelf.new) (S.write_faults shelf.new)) }
{
    let design = &judged.inputs.designs.drawn.design;
    let findings = judged.findings.as_slice();
    match write_markers(shelf, file, design, &judged.layout, findings) {
        Ok(()) => Ok(Done::Judged(judged)),
        Err(Failed) => Err(Stop::WriteFault),
    }
}

// Writes them into the file that is named for that, if one is. Takes no memory.
fn mark<S: Shelf>(shelf: &mut S, file: Option<&str>, judged: Judged) -> Result<Done, Stop>
    ensures { AreMarked judged.inputs judged.layout judged.findings.items (option_map (λ name. name.now) file.entry) (end_seen result)
        (files (S.holds shelf.old) (S.read_faults shelf.old) (S.write_faults shelf.old)) (files (S.holds shelf.new) (S.read_faults shelf.new) (S.write_faults shelf.new)) }
{
    match file {
        Some(name) => mark_in(shelf, name, judged),
        None => Ok(Done::Judged(judged)),
    }
}

// The layer whose labels tell the cells, where they are to.
fn labels_on(labels: bool, rules: &Rules) -> Option<LayerName>
    ensures { result ≡ labels_on labels rules.now }
{
    if labels {
        Some(rules.outline.layer)
    } else {
        None
    }
}

/// Reads rules, a design and a layout, finds what is wrong with it, and writes that into the file for markers, if there is one. All other files stay as they are.
pub(crate) fn judge<S: Shelf>(
    alloc: Global,
    shelf: &mut S,
    names: &Check<'_>,
    heard: &mut Heard,
) -> Result<Done, Stop>
    ensures { Carried (Some (asked.check (check_seen names.now))) (end_seen result) []
        (files (S.holds shelf.old) (S.read_faults shelf.old) (S.write_faults shelf.old)) (files (S.holds shelf.new) (S.read_faults shelf.new) (S.write_faults shelf.new)) }
{
    let source = Source::File(names.design);
    let inputs = load_inputs(
        alloc,
        shelf,
        names.rules,
        &source,
        names.ports,
        &mut heard.texts,
    )?;
    let outline = labels_on(names.labels, &inputs.rules);
    let layout = load_layout(alloc, shelf, names.cif, outline, &mut heard.texts)?;
    match judge_layout(alloc, names.labels, inputs, layout) {
        Ok(judged) => mark(shelf, names.markers, judged),
        Err(AllocError) => Err(Stop::Refused(Refusal::Memory)),
    }
}
