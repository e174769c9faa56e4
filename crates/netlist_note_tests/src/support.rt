//! The notes on commands that have come so far.

ghost use Rattle.choose_core.specs.Answers.{IsAsked};
ghost use Rattle.std.specs.Prelude.{◌<◌, length};

use choose_core::{Candidate, Choice, Chooser, Style};
use command_ends::{Refusal, Stop};
use command_words::{Command, Draw, Import, Word, read_command};
use fault_notes::{Reached, note_stop};
use geom_core::{Name, Rect};
use note_text::{Notes, put_notes};
use shelf_io::MemSink;
use std::alloc::{AllocError, Global};
use stock_styles::Stock;

// The notes on what stopped a command that has come so far.
fn noted(alloc: Global, reached: &Reached<'_>, stop: &Stop) -> Result<String, AllocError> {
    let mut told = Notes::new(alloc);
    note_stop(alloc, &mut told, reached, stop);
    let mut notes = MemSink::new(alloc)?;
    if put_notes(&mut notes, &told).is_err() {
        return String::from_str(alloc, "not put");
    }
    String::from_str(alloc, str::from_utf8(notes.bytes()).unwrap_or("no UTF-8"))
}

/// The notes on what stopped the import of the netlist `m.blif` over the cells `c.yal` into `o.yal`, with numbers of so many decimals, where these texts are read.
pub(crate) fn import_notes<'t>(
    alloc: Global,
    decimals: u32,
    netlist: Option<&'t [u8]>,
    cells: Option<&'t [u8]>,
    stop: &Stop,
) -> Result<String, AllocError> {
    let import = Import {
        netlist: "m.blif",
        cells: "c.yal",
        out: "o.yal",
        decimals,
        quiet: false,
    };
    let reached = Reached {
        words: &[],
        styles: &[],
        command: Some(Command::Import(import)),
        rules: None,
        design: None,
        cif: None,
        netlist,
        cells,
    };
    noted(alloc, &reached, stop)
}

/// What a picture is drawn of: a part of the layout, or all of it, and the file of rules, if there is one; and what is read of the files of rules and of the layout.
#[derive(Clone, Copy)]
pub(crate) struct Drawn<'a> {
    pub part: Option<Rect>,
    pub rules: Option<&'a str>,
    pub rules_text: Option<&'a [u8]>,
    pub cif_text: Option<&'a [u8]>,
}

/// The notes on what stopped the drawing of the layout `l.cif` into `o.svg`.
pub(crate) fn draw_notes(
    alloc: Global,
    drawn: &Drawn<'_>,
    stop: &Stop,
) -> Result<String, AllocError> {
    let draw = Draw {
        cif: "l.cif",
        out: "o.svg",
        part: drawn.part,
        rules: drawn.rules,
        quiet: false,
    };
    let reached = Reached {
        words: &[],
        styles: &[],
        command: Some(Command::Draw(draw)),
        rules: drawn.rules_text,
        design: None,
        cif: drawn.cif_text,
        netlist: None,
        cells: None,
    };
    noted(alloc, &reached, stop)
}

/// The first line of a text.
pub(crate) fn first_line(text: &str) -> &str {
    match text.split_once('\n') {
        Some((line, _)) => line,
        None => text,
    }
}

// The words of a text with strokes between them; no words where it is empty.
fn words(alloc: Global, text: &str) -> Result<Vec<Word>, AllocError> {
    let mut words = Vec::new(alloc);
    if text.is_empty() {
        return Ok(words);
    }
    for word in text.split('|') {
        words.push(Word::new(String::from_str(alloc, word)?))?;
    }
    Ok(words)
}

/// The first line of the notes on these words, which are no command.
pub(crate) fn note_on(alloc: Global, text: &str) -> Result<String, AllocError> {
    let words = words(alloc, text)?;
    let reached = Reached {
        words: words.as_slice(),
        styles: &[],
        command: None,
        rules: None,
        design: None,
        cif: None,
        netlist: None,
        cells: None,
    };
    let notes = noted(alloc, &reached, &Stop::Refused(Refusal::Usage))?;
    String::from_str(alloc, first_line(notes.as_str()))
}

// A style in stock.
fn stock_style(alloc: Global, stock: Stock) -> Result<Style, AllocError> {
    let choice: Choice = Box::new(
        alloc,
        move |list: &[Candidate]| -> usize
            requires { IsAsked list.now }
            ensures { result < length list.entry.now }
        { stock.choose(list) },
    )?;
    let name = Name::new(stock.name().to_vec(alloc)?);
    Ok(Style {
        chooser: Chooser::new(name, choice),
        plan: stock.plan(alloc)?,
    })
}

/// Whether words give a command.
pub(crate) fn gives_command(alloc: Global, text: &str) -> Result<bool, AllocError> {
    let words = words(alloc, text)?;
    let styles = [stock_style(alloc, Stock::Near)?];
    Ok(read_command(alloc, &styles, words.as_slice()).is_ok())
}
