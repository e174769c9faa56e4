//! The command to route a design.

ghost use Rattle.command_inputs.specs.Reading.{files};
ghost use Rattle.command_words.specs.Command as asked;
ghost use Rattle.command_words.specs.Seen.{seen};
ghost use Rattle.commands.specs.Carried.{Carried};
ghost use Rattle.commands.specs.Changes.{HasLaidOut};
ghost use Rattle.commands.specs.Done.{end_seen};
ghost use Rattle.commands.specs.Outcome.{AreKept};
ghost use Rattle.commands.specs.Verdict.{command_verdict};
ghost use Rattle.std.specs.Prelude.{◌≡◌, ◌<◌, [], Some, length};

use crate::done::Done;
use crate::heard::Heard;
use crate::writing::write_prepared;
use choose_core::{Chooser, Chooses, Style};
use command_ends::Stop;
use command_inputs::{Inputs, load_inputs};
use command_jobs::lay_out;
use command_words::{Route, Source};
use design_notes::note_design;
use greedy_router::Routed;
use note_text::Notes;
use progress::Watch;
use shelf_io::Shelf;
use std::alloc::Global;

// Notes what is unusual about a design, unless it is one that was made.
fn note_inputs(alloc: Global, notes: &mut Notes, source: &Source<'_>, inputs: &Inputs) {
    if let Source::File(_) = source {
        note_design(alloc, notes, &inputs.file, inputs.designs.placed());
    }
}

/// Routes a design from its source under the rules of a file into another file, by the choices of its style, and gives the layout in short. One that watches is told how far
/// that has come.
pub(crate) fn route<S: Shelf, W: Watch>(
    alloc: Global,
    shelf: &mut S,
    names: &Route<'_>,
    styles: &[Style],
    heard: &mut Heard,
    kept: &mut Vec<Routed>,
    watch: &mut W,
) -> Result<Done, Stop>
    requires style { names.now.style < length styles.now }
    requires none { kept.old.items ≡ [] }
    ensures carried { Carried (Some (asked.route (seen names.now))) (end_seen result) kept.new.items
        (files (S.holds shelf.old) (S.read_faults shelf.old) (S.write_faults shelf.old)) (files (S.holds shelf.new) (S.read_faults shelf.new) (S.write_faults shelf.new)) }
    ensures kept { (said : _) → command_verdict (asked.route (seen names.now)) (S.holds shelf.old) ≡ Some said → HasLaidOut (end_seen result)
        → AreKept styles.now (λ s. s.plan) (λ s. ⟦<Chooser as Chooses>⟧.answers s.chooser) (asked.route (seen names.now)) said kept.new.items }
    ensures goes { W.goes watch.old watch.new }
{
    let style = &styles[names.style];
    let ports = names.wanted.ports;
    let inputs = load_inputs(
        alloc,
        shelf,
        names.rules,
        &names.design,
        ports,
        &mut heard.texts,
    )?;
    note_inputs(alloc, &mut heard.notes, &names.design, &inputs);
    let Inputs {
        rules,
        file,
        designs,
    } = inputs;
    drop(file);
    match lay_out(alloc, designs, rules, names.wanted, style, watch) {
        Ok(prepared) => {
            let notes = &mut heard.notes;
            write_prepared(alloc, shelf, prepared, names.out, notes, kept, watch)
        }
        Err(refusal) => Err(Stop::Refused(refusal)),
    }
}
