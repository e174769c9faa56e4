//! A note as its lines: where, what and the line that was printed; then the line of the text, and a mark below the place.

use command_ends::{Stop, print_line};
use note_text::{Notes, line_at, place_at, push_shown};
use shelf_io::MemSink;
use std::alloc::{AllocError, Global};
use text_places::{FileName, Spot, Told};

/// How many bytes of a line of a text are shown.
const WIDE: usize = 100;

/// A file that notes speak of: its name, and its text if it was read.
#[derive(Clone, Copy)]
pub(crate) struct Subject<'a> {
    pub(crate) name: &'a str,
    pub(crate) text: Option<&'a [u8]>,
}

/// The line that is printed of what stopped a command, without its line feed. It errs where there is no memory for all of it.
pub(crate) fn old_line(alloc: Global, stop: &Stop) -> Result<String, AllocError> {
    let mut sink = MemSink::new(alloc)?;
    print_line(&mut sink, stop);
    let Some(line) = sink.bytes().strip_suffix(b"\n") else {
        return Err(AllocError);
    };
    let mut text = String::new(alloc);
    push_shown(&mut text, line)?;
    Ok(text)
}

// A file's name and a spot in it.
fn where_told(alloc: Global, subject: &Subject<'_>, spot: Spot) -> Result<String, AllocError> {
    let name = FileName(subject.name);
    let text = subject.text.unwrap_or(&[]);
    match spot {
        Spot::Whole => format!(in alloc; "{name}"),
        Spot::Line(at) => {
            let line = place_at(text, at as u64).line;
            format!(in alloc; "{name}:{line}")
        }
        Spot::Byte(at) => {
            let place = place_at(text, at as u64);
            let line = place.line;
            let column = place.column;
            format!(in alloc; "{name}:{line}:{column}")
        }
    }
}

// A mark below so many characters.
fn mark_below(alloc: Global, column: usize) -> Result<String, AllocError> {
    let mut text = String::new(alloc);
    for _ in 0..column {
        text.push(' ')?;
    }
    text.push('^')?;
    Ok(text)
}

// Notes the line of a text in which a byte stands, or a piece of it, and a mark below the byte.
fn note_excerpt(
    alloc: Global,
    notes: &mut Notes,
    text: &[u8],
    at: usize,
) -> Result<(), AllocError> {
    let line = line_at(text, at as u64);
    let line = line.strip_suffix(b"\r").unwrap_or(line);
    if line.is_empty() {
        return Ok(());
    }
    let column = place_at(text, at as u64).column.saturating_sub(1) as usize;
    let first = if line.len() > WIDE {
        column.saturating_sub(WIDE / 2)
    } else {
        0
    };
    let rest = line.get(first..).unwrap_or(&[]);
    let piece = rest.get(..WIDE).unwrap_or(rest);
    let mut shown = String::new(alloc);
    push_shown(&mut shown, piece)?;
    let mark = mark_below(alloc, column.saturating_sub(first))?;
    notes.note(shown);
    notes.note(mark);
    Ok(())
}

/// Notes what is wrong with a file, behind which the line stands that was printed, and then the line of the text.
pub(crate) fn note_told(
    alloc: Global,
    notes: &mut Notes,
    subject: &Subject<'_>,
    told: &Told,
    stop: &Stop,
) -> Result<(), AllocError> {
    let old = old_line(alloc, stop)?;
    let place = where_told(alloc, subject, told.spot)?;
    let what = told.text.as_str();
    notes.note(format!(in alloc; "{place}: {what} [{old}]")?);
    let Some(text) = subject.text else {
        return Ok(());
    };
    match told.spot {
        Spot::Whole => Ok(()),
        Spot::Line(at) | Spot::Byte(at) => note_excerpt(alloc, notes, text, at),
    }
}
