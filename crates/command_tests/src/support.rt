//! Shelves, words and designs for the tests.

ghost use Rattle.choose_core.specs.Answers.{IsAsked};
ghost use Rattle.std.specs.Prelude.{◌<◌, length, ℕ};

use choose_core::{Candidate, Choice, Chooser, Manner, Plan, Style};
use commands::{Ended, Word, run};
use geom_core::Name;
pub(crate) use samples::TWO_JOINED;
use samples::{INVERTER, RULES, design_text};
use shelf_io::{MemShelf, MemSink};
use std::alloc::{AllocError, Global};
use stock_styles::Stock;

/// The layout of one inverter.
pub(crate) const ONE_INVERTER: &str =
    "(cellroute 1);\nDS 1 1 1;\n9 INV;\nL XP;\nB 800 4000 400 2000;\nL NP;\nB 300 400 400 200;\nDF;\n91 u1;\nC 1 T 0 800;\nE\n";

/// The words `route d r o`, with strokes between them.
pub(crate) const ROUTE: &str = "route|d|r|o";

/// The words `check d r c`.
pub(crate) const CHECK: &str = "check|d|r|c";

/// The words of a text with strokes between them; no words where it is empty.
pub(crate) fn words(alloc: Global, text: &str) -> Result<Vec<Word>, AllocError> {
    let mut words = Vec::new(alloc);
    if text.is_empty() {
        return Ok(words);
    }
    for word in text.split('|') {
        words.push(Word::new(String::from_str(alloc, word)?))?;
    }
    Ok(words)
}

/// A text with one piece of it replaced.
pub(crate) fn text_with(
    alloc: Global,
    text: &str,
    old: &str,
    new: &str,
) -> Result<String, AllocError> {
    let (before, after) = text.split_once(old).unwrap_or((text, ""));
    format!(in alloc; "{before}{new}{after}")
}

/// The sample rules with one piece of their text replaced.
pub(crate) fn rules_with(alloc: Global, old: &str, new: &str) -> Result<String, AllocError> {
    text_with(alloc, RULES, old, new)
}

/// A shelf with the rules under `r` and these bytes under `d`.
pub(crate) fn shelf_with_bytes(
    alloc: Global,
    rules: &str,
    design: &[u8],
) -> Result<MemShelf, AllocError> {
    let mut shelf = MemShelf::new(alloc)?;
    shelf.set("r", rules.as_bytes())?;
    shelf.set("d", design)?;
    Ok(shelf)
}

/// A shelf with the rules under `r` and the design under `d`.
pub(crate) fn shelf_with(alloc: Global, rules: &str, design: &str) -> Result<MemShelf, AllocError> {
    shelf_with_bytes(alloc, rules, design.as_bytes())
}

/// A shelf with these rules and the design of these modules and calls.
pub(crate) fn shelf_of(
    alloc: Global,
    rules: &str,
    modules: &str,
    calls: &str,
) -> Result<MemShelf, AllocError> {
    let design = design_text(alloc, modules, calls)?;
    shelf_with(alloc, rules, design.as_str())
}

/// A shelf with the sample rules and the design of one inverter.
pub(crate) fn inverter_shelf(alloc: Global) -> Result<MemShelf, AllocError> {
    shelf_of(alloc, RULES, INVERTER, "u1 INV n1;\n")
}

/// The style of a choice under a name, with one sweep as it was published, without free tracks to begin with.
pub(crate) fn named_style(alloc: Global, name: &str, choice: Choice) -> Result<Style, AllocError>
    requires callable { (list : _) → IsAsked list.now → Choice.pre choice list }
    requires within { (list : _) (answer : ℕ) → IsAsked list.now → Choice.post choice list answer → answer < length list.now }
{
    let name = name.as_bytes().to_vec(alloc)?;
    Ok(Style {
        chooser: Chooser::new(Name::new(name), choice),
        plan: Plan::of_one(alloc, Manner::Published, 0),
    })
}

/// A style in stock.
pub(crate) fn stock_style(alloc: Global, stock: Stock) -> Result<Style, AllocError> {
    let choice: Choice = Box::new(
        alloc,
        move |list: &[Candidate]| -> usize
            requires { IsAsked list.now }
            ensures { result < length list.entry.now }
        { stock.choose(list) },
    )?;
    let name = Name::new(stock.name().to_vec(alloc)?);
    Ok(Style {
        chooser: Chooser::new(name, choice),
        plan: stock.plan(alloc)?,
    })
}

/// How these words end over this shelf and this sink, with the styles `near`, `lean` and `high`.
pub(crate) fn ended(
    alloc: Global,
    text: &str,
    shelf: &mut MemShelf,
    out: &mut MemSink,
) -> Result<Ended, AllocError> {
    let words = words(alloc, text)?;
    let near = stock_style(alloc, Stock::Near)?;
    let lean = stock_style(alloc, Stock::Lean)?;
    let high = stock_style(alloc, Stock::High)?;
    let mut notes = MemSink::new(alloc)?;
    Ok(run(
        alloc,
        words.as_slice(),
        shelf,
        out,
        &mut notes,
        &[near, lean, high],
    ))
}

/// Whether these words end with this status over this shelf, and the sink holds this line then.
pub(crate) fn is_ended_in(
    alloc: Global,
    text: &str,
    shelf: &mut MemShelf,
    out: &mut MemSink,
    status: u8,
    line: &str,
) -> Result<bool, AllocError> {
    let ended = ended(alloc, text, shelf, out)?.status;
    Ok(ended == status && out.bytes() == line.as_bytes())
}

/// Whether these words end with this status over this shelf, and print this line.
pub(crate) fn is_ended(
    alloc: Global,
    text: &str,
    shelf: &mut MemShelf,
    status: u8,
    line: &str,
) -> Result<bool, AllocError> {
    let mut out = MemSink::new(alloc)?;
    is_ended_in(alloc, text, shelf, &mut out, status, line)
}

/// Whether these words end with 0 over this shelf, and print these lines first.
pub(crate) fn begins_so(
    alloc: Global,
    words: &str,
    shelf: &mut MemShelf,
    front: &str,
) -> Result<bool, AllocError> {
    let mut out = MemSink::new(alloc)?;
    let status = ended(alloc, words, shelf, &mut out)?.status;
    Ok(status == 0 && out.bytes().starts_with(front.as_bytes()))
}

/// Whether these words end with status 0 over this shelf.
pub(crate) fn is_done(alloc: Global, text: &str, shelf: &mut MemShelf) -> Result<bool, AllocError> {
    let mut out = MemSink::new(alloc)?;
    Ok(ended(alloc, text, shelf, &mut out)?.status == 0)
}

/// Whether `route d r o` ends with status 0 over this shelf.
pub(crate) fn is_routed(alloc: Global, shelf: &mut MemShelf) -> Result<bool, AllocError> {
    is_done(alloc, ROUTE, shelf)
}

/// Whether these words end with this status over this shelf, print this line and write no `o`.
pub(crate) fn is_refused_in(
    alloc: Global,
    text: &str,
    shelf: &mut MemShelf,
    status: u8,
    line: &str,
) -> Result<bool, AllocError> {
    Ok(is_ended(alloc, text, shelf, status, line)? && shelf.get("o").is_none())
}

/// Whether `route d r o` over these rules and this design is refused so.
pub(crate) fn is_refused(
    alloc: Global,
    rules: &str,
    design: &str,
    status: u8,
    line: &str,
) -> Result<bool, AllocError> {
    let mut shelf = shelf_with(alloc, rules, design)?;
    is_refused_in(alloc, ROUTE, &mut shelf, status, line)
}

/// The design of one cell of this width, in units.
pub(crate) fn wide(alloc: Global, width: u32) -> Result<String, AllocError> {
    let module = format!(in alloc;
        "MODULE W;\nTYPE STANDARD;\nDIMENSIONS 0 0 {width} 0 {width} 40 0 40;\nIOLIST;\na I 4 0 3 POLY;\nENDIOLIST;\nENDMODULE;\n"
    )?;
    design_text(alloc, module.as_str(), "u1 W n1;\n")
}
