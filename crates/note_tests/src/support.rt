//! Commands over files in memory, and the notes on them.

ghost use Rattle.choose_core.specs.Answers.{IsAsked};
ghost use Rattle.std.specs.Prelude.{◌<◌, length};

use choose_core::{Candidate, Choice, Chooser, Style};
use commands::{Word, run};
use geom_core::Name;
use shelf_io::{MemShelf, MemSink};
use std::alloc::{AllocError, Global};
use stock_styles::Stock;

/// A design of two calls of a gate.
pub(crate) const GATES: &str = "\
MODULE AND2;
TYPE STANDARD;
DIMENSIONS 0 0 24 0 24 40 0 40;
IOLIST;
a I 4 0 3 POLY;
b I 12 0 3 POLY;
y O 20 40 3 POLY;
vdd PWR;
vss GND;
ENDIOLIST;
ENDMODULE;
MODULE top;
TYPE PARENT;
DIMENSIONS 0 0 8 0 8 40 0 40;
IOLIST;
n1 PI;
ENDIOLIST;
NETWORK;
g1 AND2 n1 n2 n3 vdd vss;
g2 AND2 n2 n3 n4 vdd vss;
ENDNETWORK;
ENDMODULE;
";

/// The words that route the design of the file `my.yal`.
pub(crate) const ROUTE: &str = "route|my.yal|rules.toml|o.cif";

/// The words that check the layout of the file `o.cif`.
pub(crate) const CHECK: &str = "check|my.yal|rules.toml|o.cif";

/// The words of a text with strokes between them; no words where it is empty.
pub(crate) fn words(alloc: Global, text: &str) -> Result<Vec<Word>, AllocError> {
    let mut words = Vec::new(alloc);
    if text.is_empty() {
        return Ok(words);
    }
    for word in text.split('|') {
        words.push(Word::new(String::from_str(alloc, word)?))?;
    }
    Ok(words)
}

/// A text with a piece of it replaced where it stands first.
pub(crate) fn text_with(
    alloc: Global,
    text: &str,
    old: &str,
    new: &str,
) -> Result<String, AllocError> {
    let (before, after) = text.split_once(old).unwrap_or((text, ""));
    format!(in alloc; "{before}{new}{after}")
}

/// A text with pieces of it replaced one behind another, of changes `OLD => NEW` with ` & ` between them.
pub(crate) fn changed(alloc: Global, text: &str, changes: &str) -> Result<String, AllocError> {
    let mut text = String::from_str(alloc, text)?;
    for change in changes.split(" & ") {
        let (old, new) = change.split_once(" => ").unwrap_or((change, ""));
        text = text_with(alloc, text.as_str(), old, new)?;
    }
    Ok(text)
}

/// A shelf with these rules in `rules.toml`, and this design in `my.yal`.
pub(crate) fn shelf_with(alloc: Global, rules: &str, design: &str) -> Result<MemShelf, AllocError> {
    let mut shelf = MemShelf::new(alloc)?;
    shelf.set("rules.toml", rules.as_bytes())?;
    shelf.set("my.yal", design.as_bytes())?;
    Ok(shelf)
}

// A style in stock.
fn stock_style(alloc: Global, stock: Stock) -> Result<Style, AllocError> {
    let choice: Choice = Box::new(
        alloc,
        move |list: &[Candidate]| -> usize
            requires { IsAsked list.now }
            ensures { result < length list.entry.now }
        { stock.choose(list) },
    )?;
    let name = Name::new(stock.name().to_vec(alloc)?);
    Ok(Style {
        chooser: Chooser::new(name, choice),
        plan: stock.plan(alloc)?,
    })
}

/// The styles `near`, `lean` and `high`.
pub(crate) fn styled(alloc: Global) -> Result<[Style; 3], AllocError> {
    let near = stock_style(alloc, Stock::Near)?;
    let lean = stock_style(alloc, Stock::Lean)?;
    let high = stock_style(alloc, Stock::High)?;
    Ok([near, lean, high])
}

/// The notes on these words over this shelf and this sink, with the styles `near`, `lean` and `high`.
pub(crate) fn noted_over(
    alloc: Global,
    text: &str,
    shelf: &mut MemShelf,
    out: &mut MemSink,
) -> Result<String, AllocError> {
    let words = words(alloc, text)?;
    let styles = styled(alloc)?;
    let mut notes = MemSink::new(alloc)?;
    let _ = run(alloc, words.as_slice(), shelf, out, &mut notes, &styles);
    String::from_str(alloc, str::from_utf8(notes.bytes()).unwrap_or("no UTF-8"))
}

/// The notes on these words over this shelf, with the styles `near`, `lean` and `high`.
pub(crate) fn noted(alloc: Global, text: &str, shelf: &mut MemShelf) -> Result<String, AllocError> {
    let mut out = MemSink::new(alloc)?;
    noted_over(alloc, text, shelf, &mut out)
}

/// The first line of a text.
pub(crate) fn first_line(text: &str) -> &str {
    match text.split_once('\n') {
        Some((line, _)) => line,
        None => text,
    }
}
