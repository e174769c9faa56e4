//! What people are told of a command.

ghost use Rattle.command_words.specs.Command as asked;
ghost use Rattle.command_words.specs.Command.{command_of, is_quiet};
ghost use Rattle.command_words.specs.Seen.{command_seen};
ghost use Rattle.commands.specs.Noted.{Noted};
ghost use Rattle.std.specs.Prelude.{◌≡◌, ◌<◌, Some, false, length, map, true};

use crate::done::{Done, Judged};
use choose_core::Style;
use command_ends::Stop;
use command_inputs::Texts;
use command_words::{Command, Word, WordsFault, read_command};
use fault_notes::{Reached, note_stop, note_unread};
use finding_notes::{JudgedLayout, note_findings, note_layers};
use note_text::{Notes, put_notes};
use shelf_io::Sink;
use std::alloc::{AllocError, Global};

// The bytes of a text, if there is one.
fn bytes_of(text: &Option<Vec<u8>>) -> Option<&[u8]> {
    match text {
        Some(bytes) => Some(bytes.as_slice()),
        None => None,
    }
}

// Notes what was found of a layout that was judged, and what is unusual about it.
fn note_judged<'a>(alloc: Global, notes: &mut Notes, reached: &Reached<'a>, judged: &'a Judged) {
    // By labels the shapes do not come in the order of their lines.
    let (cif_name, text) = match reached.command {
        Some(Command::Check(names)) if names.labels => (names.cif, None),
        Some(Command::Check(names)) => (names.cif, reached.cif),
        _ => ("", reached.cif),
    };
    let layout = JudgedLayout {
        cif_name,
        text,
        design: &judged.inputs.designs.drawn.design,
        rules: &judged.inputs.rules,
        layout: &judged.layout,
    };
    note_findings(alloc, notes, &layout, judged.findings.as_slice());
    note_layers(alloc, notes, &layout);
}

// The file that a command writes, if it writes one.
fn written_by<'a>(command: &Command<'a>) -> Option<&'a str> {
    match command {
        Command::Route(names) => Some(names.out),
        Command::Check(names) => names.markers,
        Command::Draw(names) => Some(names.out),
        Command::Import(names) => Some(names.out),
        Command::Help(_) => None,
    }
}

// Notes that what was done could not be printed whole, and that the file that was written stands all the same.
fn note_unprinted(
    alloc: Global,
    notes: &mut Notes,
    reached: &Reached<'_>,
) -> Result<(), AllocError> {
    let written = match &reached.command {
        Some(command) => written_by(command),
        None => None,
    };
    let note = match written {
        Some(name) => {
            format!(in alloc;
                "the standard output could not be written; {name} is whole [write fault]"
            )?
        }
        None => format!(in alloc; "the standard output could not be written [write fault]")?,
    };
    notes.note(note);
    Ok(())
}

// Notes on what was done, by the status, which is 9 where it could not be printed whole.
fn note_done<'a>(
    alloc: Global,
    told: &mut Notes,
    reached: &Reached<'a>,
    done: &'a Done,
    status: u8,
) {
    note_unread(alloc, told, reached);
    if let Done::Judged(judged) = done {
        note_judged(alloc, told, reached, judged);
    }
    if status == 9 {
        let _ = note_unprinted(alloc, told, reached);
    }
}

// Puts what was noted, and the notes on how a command ended that has come so far, with a status; on what stopped it alone where it was stopped.
fn put_told<'a, N: Sink>(
    alloc: Global,
    reached: &Reached<'a>,
    ending: &'a Result<Done, Stop>,
    status: u8,
    noted: Notes,
    notes: &mut N,
)
    ensures { Noted (N.written notes.old) (N.written notes.new) (N.faults notes.old) (N.faults notes.new) }
{
    let mut told = noted;
    match ending {
        Ok(done) => note_done(alloc, &mut told, reached, done, status),
        Err(stop) => {
            told = Notes::new(alloc);
            note_stop(alloc, &mut told, reached, stop);
        }
    }
    let _ = put_notes(notes, &told);
}

/// Whether a command wishes for no notes. Takes no memory.
pub(crate) fn is_quiet(command: &Command<'_>) -> bool
    ensures { result ≡ is_quiet (command_seen command.now) }
{
    match command {
        Command::Route(names) => names.quiet,
        Command::Check(names) => names.quiet,
        Command::Draw(names) => names.quiet,
        Command::Import(names) => names.quiet,
        Command::Help(_) => false,
    }
}

/// Puts what was noted of the command of these words, which has read these texts, and the notes on how it ended, with which status, unless it wishes for none, or no more may follow. What memory has no room for is left out.
pub(crate) fn tell<'a, N: Sink>(
    alloc: Global,
    words: &'a [Word],
    styles: &'a [Style],
    texts: &'a Texts,
    noted: Notes,
    ending: &'a Result<Done, Stop>,
    status: u8,
    going: bool,
    notes: &mut N,
)
    requires { 0 < length styles.now }
    ensures silent { going ≡ false → notes.new ≡ notes.old }
    ensures noted { Noted (N.written notes.old) (N.written notes.new) (N.faults notes.old) (N.faults notes.new) }
    ensures quiet { (command : asked.Command) → command_of (map (λ s. s.chooser.name) styles.now) words.now ≡ Some command → is_quiet command ≡ true → notes.new ≡ notes.old }
{
    if !going {
        return;
    }
    let unknown = None;
    let rules = bytes_of(&texts.rules);
    let design = bytes_of(&texts.design);
    let cif = bytes_of(&texts.cif);
    let netlist = bytes_of(&texts.netlist);
    let cells = bytes_of(&texts.cells);
    let mut reached = Reached {
        words,
        styles,
        command: unknown,
        rules,
        design,
        cif,
        netlist,
        cells,
    };
    match read_command(alloc, styles, words) {
        Ok(command) => {
            if is_quiet(&command) {
                return;
            }
            let known = Some(command);
            reached.command = known;
            put_told(alloc, &reached, ending, status, noted, notes);
        }
        Err(WordsFault::Usage) => put_told(alloc, &reached, ending, status, noted, notes),
        Err(WordsFault::Memory) => {}
    }
}
