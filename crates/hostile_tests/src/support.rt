//! Files in memory, words and commands for the tests.

ghost use Rattle.choose_core.specs.Answers.{IsAsked};
ghost use Rattle.std.specs.Prelude.{◌<◌, length};

use choose_core::{Candidate, Choice, Chooser, Style};
use commands::{Word, run};
use geom_core::Name;
pub(crate) use samples::TWO_JOINED;
use samples::{BUFFER, RULES, design_text};
use shelf_io::{MemShelf, MemSink, Shelf, Sink};
use std::alloc::{AllocError, Global};
use stock_styles::Stock;

/// What `route` prints of the layout of two joined buffers, a line each.
pub(crate) const SUMMARY: &str = "\
cells 2\n\
nets 1\n\
rows 1\n\
feeds 0\n\
channel 0 tracks 0 extra 0 greedy\n\
channel 1 tracks 1 extra 0 greedy\n\
size 1600 6400\n\
cost 1\n";

/// The words `route d r o`, with strokes between them.
pub(crate) const ROUTE: &str = "route|d|r|o";

/// The words `check d r c`.
pub(crate) const CHECK: &str = "check|d|r|c";

// The words of a text with strokes between them.
fn words(alloc: Global, text: &str) -> Result<Vec<Word>, AllocError> {
    let mut words = Vec::new(alloc);
    for word in text.split('|') {
        words.push(Word::new(String::from_str(alloc, word)?))?;
    }
    Ok(words)
}

// The style `near`.
fn near(alloc: Global) -> Result<Style, AllocError> {
    let choice: Choice = Box::new(
        alloc,
        move |list: &[Candidate]| -> usize
            requires { IsAsked list.now }
            ensures { result < length list.entry.now }
        { Stock::Near.choose(list) },
    )?;
    let name = Name::new(Stock::Near.name().to_vec(alloc)?);
    Ok(Style {
        chooser: Chooser::new(name, choice),
        plan: Stock::Near.plan(alloc)?,
    })
}

/// The status of these words over a shelf, a sink for lines and one for notes, by the style `near`.
pub(crate) fn status_of<S: Shelf, K: Sink, N: Sink>(
    alloc: Global,
    text: &str,
    shelf: &mut S,
    out: &mut K,
    notes: &mut N,
) -> Result<u8, AllocError> {
    let words = words(alloc, text)?;
    let near = near(alloc)?;
    Ok(run(alloc, words.as_slice(), shelf, out, notes, &[near]).status)
}

/// Whether these words end with this status over this shelf, and print these lines.
pub(crate) fn is_ended<S: Shelf>(
    alloc: Global,
    text: &str,
    shelf: &mut S,
    status: u8,
    lines: &str,
) -> Result<bool, AllocError> {
    let mut out = MemSink::new(alloc)?;
    let mut notes = MemSink::new(alloc)?;
    let ended = status_of(alloc, text, shelf, &mut out, &mut notes)?;
    Ok(ended == status && out.bytes() == lines.as_bytes())
}

/// Whether these words end with 0 over this shelf, and print these lines first.
pub(crate) fn begins_so<S: Shelf>(
    alloc: Global,
    text: &str,
    shelf: &mut S,
    lines: &str,
) -> Result<bool, AllocError> {
    let mut out = MemSink::new(alloc)?;
    let mut notes = MemSink::new(alloc)?;
    let ended = status_of(alloc, text, shelf, &mut out, &mut notes)?;
    Ok(ended == 0 && out.bytes().starts_with(lines.as_bytes()))
}

/// The design of two joined buffers.
pub(crate) fn joined_design(alloc: Global) -> Result<String, AllocError> {
    design_text(alloc, BUFFER, "u1 BUF n1;\nu2 BUF n1;\n")
}

/// A shelf with the sample rules under `r`, the design of two joined buffers under `d`, their layout under `c`, an old text under `o`, and another file.
pub(crate) fn joined_shelf(alloc: Global) -> Result<MemShelf, AllocError> {
    let design = joined_design(alloc)?;
    let mut shelf = MemShelf::new(alloc)?;
    shelf.set("r", RULES.as_bytes())?;
    shelf.set("d", design.as_bytes())?;
    shelf.set("c", TWO_JOINED.as_bytes())?;
    shelf.set("o", b"old")?;
    shelf.set("other", b"stays")?;
    Ok(shelf)
}

/// Whether a file of a shelf holds these bytes.
pub(crate) fn holds(shelf: &MemShelf, name: &str, bytes: &[u8]) -> bool {
    shelf.get(name) == Some(bytes)
}

/// Whether all files of such a shelf are as they were, but perhaps this one.
pub(crate) fn are_kept(alloc: Global, shelf: &MemShelf, but: &str) -> Result<bool, AllocError> {
    let design = joined_design(alloc)?;
    let files = [
        ("r", RULES.as_bytes()),
        ("d", design.as_bytes()),
        ("c", TWO_JOINED.as_bytes()),
        ("o", b"old"),
        ("other", b"stays"),
    ];
    for (name, bytes) in files {
        if name != but && !holds(shelf, name, bytes) {
            return Ok(false);
        }
    }
    Ok(true)
}

/// The first bytes of a text.
pub(crate) fn front(text: &str, count: usize) -> &[u8] {
    text.as_bytes().get(..count).unwrap_or(text.as_bytes())
}

/// A text with the byte 200 in place of that of this number.
pub(crate) fn flipped(alloc: Global, text: &[u8], at: usize) -> Result<Vec<u8>, AllocError> {
    let mut bytes = text.to_vec(alloc)?;
    if let Some(byte) = bytes.as_mut_slice().get_mut(at) {
        *byte = 200;
    }
    Ok(bytes)
}
