//! The note on what stopped a command.

use crate::cif_notes::{told_of_command, told_of_text};
use crate::limit_notes::{file_of_limit, told_of_limit};
use crate::naming::{
    FileOf, decimals_of, is_import, layout_words, rules_words, subject_of, unread,
};
use crate::noting::{Subject, note_told};
use crate::reached::Reached;
use crate::usage_notes::note_usage;
use command_ends::{Refusal, Stop};
use input_notes::{
    NumbersBy, numbers_again, told_of_blif, told_of_design, told_of_import, told_of_port_clash,
    told_of_rules, told_of_yal,
};
use netlist_import::ImportKind;
use note_text::Notes;
use std::alloc::{AllocError, Global};
use text_places::Told;
use yal_reader::YalKind;

// The file in which it is shown why a command was refused, where that is none of the words.
fn file_of(reached: &Reached<'_>, refusal: &Refusal) -> FileOf {
    match refusal {
        Refusal::Yal(..) if is_import(reached) => FileOf::Cells,
        Refusal::Yal(..) | Refusal::Design(..) | Refusal::PortClash(_) => FileOf::Design,
        Refusal::Import(flaw) if flaw.kind == ImportKind::Parent => FileOf::Cells,
        Refusal::Blif(..) | Refusal::Import(_) => FileOf::Netlist,
        Refusal::Cif(..) | Refusal::Meaning(..) => FileOf::Layout,
        Refusal::Limit(what, _) => file_of_limit(*what),
        _ => FileOf::Rules,
    }
}

// What is wrong with a text that is no YAL, that of a design or of a netlist's cells.
fn told_of_modules(
    alloc: Global,
    reached: &Reached<'_>,
    kind: YalKind,
    at: u64,
) -> Result<Told, AllocError> {
    if is_import(reached) {
        let cells = reached.cells.unwrap_or(&[]);
        let numbers = NumbersBy::Decimals(decimals_of(reached));
        return told_of_yal(alloc, cells, kind, at, numbers);
    }
    let design = reached.design.unwrap_or(&[]);
    let numbers = NumbersBy::Rules(numbers_again(alloc, reached.read()));
    told_of_yal(alloc, design, kind, at, numbers)
}

// What is wrong by a refusal that is not one of the words.
fn told_of(alloc: Global, reached: &Reached<'_>, refusal: &Refusal) -> Result<Told, AllocError> {
    let rules = reached.rules.unwrap_or(&[]);
    let layout = reached.cif.unwrap_or(&[]);
    let netlist = reached.netlist.unwrap_or(&[]);
    match refusal {
        Refusal::Yal(kind, at) => told_of_modules(alloc, reached, *kind, *at),
        Refusal::Design(fault, _) => told_of_design(alloc, reached.read(), *fault),
        Refusal::PortClash(name) => told_of_port_clash(alloc, reached.read(), name),
        Refusal::Blif(kind, at) => told_of_blif(alloc, netlist, *kind, *at),
        Refusal::Import(flaw) => told_of_import(alloc, reached.netlist_read(), flaw),
        Refusal::Cif(kind, at) => told_of_text(alloc, layout, *kind, *at, layout_words(reached)),
        Refusal::Meaning(kind, at) => told_of_command(alloc, layout, *kind, *at),
        Refusal::Limit(what, number) => told_of_limit(alloc, reached, *what, *number),
        _ => told_of_rules(alloc, rules, refusal, rules_words(reached)),
    }
}

// Notes that memory ran out.
fn note_memory(alloc: Global, notes: &mut Notes, stop: &Stop) -> Result<(), AllocError> {
    let subject = Subject {
        name: "cellroute",
        text: None,
    };
    let what = format!(in alloc; "memory ran out; a smaller design, or more memory, is wanted")?;
    note_told(alloc, notes, &subject, &Told::whole(what), stop)
}

// Notes why a command was refused.
fn note_refusal(
    alloc: Global,
    notes: &mut Notes,
    reached: &Reached<'_>,
    stop: &Stop,
    refusal: &Refusal,
) -> Result<(), AllocError> {
    match refusal {
        Refusal::Usage => note_usage(alloc, notes, reached, stop),
        Refusal::Memory => note_memory(alloc, notes, stop),
        _ => {
            let told = told_of(alloc, reached, refusal)?;
            let file = file_of(reached, refusal);
            note_told(alloc, notes, &subject_of(reached, file), &told, stop)
        }
    }
}

// Notes what stopped a command, as far as there is memory.
fn note_all(
    alloc: Global,
    notes: &mut Notes,
    reached: &Reached<'_>,
    stop: &Stop,
) -> Result<(), AllocError> {
    match stop {
        Stop::Refused(refusal) => note_refusal(alloc, notes, reached, stop, refusal),
        Stop::ReadFault => {
            let told = Told::whole(format!(in alloc; "no such file, or not readable")?);
            note_told(
                alloc,
                notes,
                &subject_of(reached, unread(reached)),
                &told,
                stop,
            )
        }
        Stop::WriteFault => {
            let told = Told::whole(format!(in alloc; "not writable, or the disk is full")?);
            note_told(alloc, notes, &subject_of(reached, FileOf::Out), &told, stop)
        }
    }
}

/// Notes what stopped a command that has come so far: where it is, what is wrong with the names and numbers that cure it, and the line that is printed; then, of a text, its line with a
/// mark below the place, and of words the help of their command. What memory has no room for is left out.
pub fn note_stop(alloc: Global, notes: &mut Notes, reached: &Reached<'_>, stop: &Stop) {
    let _ = note_all(alloc, notes, reached, stop);
}
