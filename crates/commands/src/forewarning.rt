//! What people are told before anything is written.

ghost use Rattle.command_words.specs.Command as asked;
ghost use Rattle.command_words.specs.Command.{command_of, is_quiet};
ghost use Rattle.commands.specs.Noted.{NotedSo};
ghost use Rattle.std.specs.Prelude.{◌≡◌, ◌<◌, Some, length, map, true};

use crate::telling::is_quiet;
use choose_core::Style;
use command_words::{Check, Command, Draw, Import, Route, Source, Word, read_command};
use note_text::{Notes, put_notes};
use shelf_io::{Failed, Sink};
use std::alloc::{AllocError, Global};

// Notes that a name of a file to write is the name of a file that is read, of which what is written will take the place.
fn note_same(
    alloc: Global,
    notes: &mut Notes,
    (out, written): (&str, &str),
    (read, what): (&str, &str),
) -> Result<(), AllocError> {
    if out == read {
        notes.note(format!(in alloc;
            "warning: {out} is also the file of the {what}, which the {written} will take the place of"
        )?);
    }
    Ok(())
}

// Notes that a name of a file to write seems to be that of the standard output, where perhaps other lines stand too.
fn note_dash(alloc: Global, notes: &mut Notes, out: &str, printed: &str) -> Result<(), AllocError> {
    if out == "-" {
        notes.note(format!(in alloc;
            "warning: - is a file of that name here; the standard output is /dev/stdout{printed}"
        )?);
    }
    Ok(())
}

// Notes what surprises about the names of a command to route.
fn note_route(alloc: Global, notes: &mut Notes, names: &Route<'_>) -> Result<(), AllocError> {
    let out = (names.out, "layout");
    if let Source::File(design) = names.design {
        note_same(alloc, notes, out, (design, "design"))?;
    }
    note_same(alloc, notes, out, (names.rules, "rules"))?;
    note_dash(
        alloc,
        notes,
        names.out,
        ", and the summary stands there too",
    )
}

// Notes what surprises about the names of a command to check that writes markers.
fn note_check(alloc: Global, notes: &mut Notes, names: &Check<'_>) -> Result<(), AllocError> {
    let Some(file) = names.markers else {
        return Ok(());
    };
    let out = (file, "markers");
    note_same(alloc, notes, out, (names.design, "design"))?;
    note_same(alloc, notes, out, (names.rules, "rules"))?;
    note_same(alloc, notes, out, (names.cif, "layout"))?;
    note_dash(alloc, notes, file, ", and the findings stand there too")
}

// Notes what surprises about the names of a command to draw.
fn note_draw(alloc: Global, notes: &mut Notes, names: &Draw<'_>) -> Result<(), AllocError> {
    let out = (names.out, "picture");
    note_same(alloc, notes, out, (names.cif, "layout"))?;
    if let Some(rules) = names.rules {
        note_same(alloc, notes, out, (rules, "rules"))?;
    }
    note_dash(alloc, notes, names.out, "")
}

// Notes what surprises about the names of a command to import.
fn note_import(alloc: Global, notes: &mut Notes, names: &Import<'_>) -> Result<(), AllocError> {
    let out = (names.out, "design");
    note_same(alloc, notes, out, (names.netlist, "netlist"))?;
    note_same(alloc, notes, out, (names.cells, "cells"))?;
    note_dash(alloc, notes, names.out, "")
}

// Notes what surprises about the names of a command.
fn note_names(alloc: Global, notes: &mut Notes, command: &Command<'_>) -> Result<(), AllocError> {
    match command {
        Command::Route(names) => note_route(alloc, notes, names),
        Command::Check(names) => note_check(alloc, notes, names),
        Command::Draw(names) => note_draw(alloc, notes, names),
        Command::Import(names) => note_import(alloc, notes, names),
        Command::Help(_) => Ok(()),
    }
}

// Puts what surprises about the names of a command, and says whether more may follow.
fn put_names<N: Sink>(alloc: Global, command: &Command<'_>, notes: &mut N) -> bool
    ensures { NotedSo result (N.written notes.old) (N.written notes.new) (N.faults notes.old) (N.faults notes.new) }
{
    let mut told = Notes::new(alloc);
    let _ = note_names(alloc, &mut told, command);
    match put_notes(notes, &told) {
        Ok(()) => true,
        Err(Failed) => false,
    }
}

/// Puts what surprises about the names in the command of these words, unless it wishes for no notes, and says whether more notes may follow. What memory has no room for is left out.
pub(crate) fn forewarn<N: Sink>(
    alloc: Global,
    words: &[Word],
    styles: &[Style],
    notes: &mut N,
) -> bool
    requires { 0 < length styles.now }
    ensures noted { NotedSo result (N.written notes.old) (N.written notes.new) (N.faults notes.old) (N.faults notes.new) }
    ensures quiet { (command : asked.Command) → command_of (map (λ s. s.chooser.name) styles.now) words.now ≡ Some command → is_quiet command ≡ true → notes.new ≡ notes.old }
{
    match read_command(alloc, styles, words) {
        Ok(command) => {
            if is_quiet(&command) {
                return true;
            }
            put_names(alloc, &command, notes)
        }
        Err(_) => true,
    }
}
