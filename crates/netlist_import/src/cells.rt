//! The cells of a netlist, with their terminals.

ghost use Rattle.list_facts.specs.Names.{mention};
ghost use Rattle.list_facts.specs.Texts.{texts};
ghost use Rattle.netlist_import.specs.Cells.{cell_named, is_cell, is_driving, is_driving_line, is_ground, is_ground_line, is_supply, is_supply_line, power_word, terminal_names};
ghost use Rattle.std.specs.List.{list_any};
ghost use Rattle.std.specs.Option.{option_map};
ghost use Rattle.std.specs.Prelude.{◌≡◌, IfOk};
ghost use Rattle.std.specs.Str.{bytes_eq};
ghost use Rattle.yal_reader.specs.Kept.{is_standard};
ghost use Rattle.yal_reader.specs.Lists.{is_among};

use geom_core::Name;
use std::alloc::{AllocError, Global};
use yal_reader::{Flow, Kind, Line, Module};

/// Whether modules of this kind are cells.
fn is_standard(kind: Kind) -> bool
    ensures { result ≡ is_standard kind }
{
    match kind {
        Kind::Standard => true,
        _ => false,
    }
}

/// Whether a module is the cell of this name.
fn is_cell(name: &[u8], cell: &Module) -> bool
    ensures { result ≡ is_cell name.now cell.now }
{
    is_standard(cell.kind) && name == cell.name.items()
}

/// The cell of this name. Takes no memory.
pub(crate) fn cell_named<'a>(modules: &'a [Module], name: &[u8]) -> Option<&'a Module>
    ensures { option_map (λ m. m.now) result ≡ cell_named modules.entry.now name.now }
{
    modules.iter().find(|module| is_cell(name, module))
}

/// Whether a word is one of these borrowed ones.
fn is_borrowed(words: &[&[u8]], word: &[u8]) -> bool
    ensures { result ≡ list_any (λ x. bytes_eq word.now x.now) words.now }
{
    words.iter().any(|x| word == *x)
}

/// Whether a word is one of these. Takes no memory.
pub(crate) fn is_among(words: &[&[u8]], word: &[u8]) -> bool
    ensures { result ≡ is_among (texts words.now) word.now }
{
    is_borrowed(words, word)
}

/// Whether a word is one of these names. Takes no memory.
pub(crate) fn is_name(names: &[Name], word: &[u8]) -> bool
    ensures { result ≡ is_among names.now word.now }
{
    names.iter().any(|x| word == x.items())
}

/// Puts a name behind others, unless it is one of them. The one error is want of memory.
fn mention(alloc: Global, mut names: Vec<Name>, name: &Name) -> Result<Vec<Name>, AllocError>
    ensures { IfOk result (λ more. more.items ≡ mention names.items name.now) }
{
    if is_name(names.as_slice(), name.items()) {
        return Ok(names);
    }
    names.push(name.copied(alloc)?)?;
    Ok(names)
}

/// The terminals of lines, in the order of their first mention. The one error is want of memory.
pub(crate) fn terminals_of(alloc: Global, lines: &[Line]) -> Result<Vec<Name>, AllocError>
    ensures { IfOk result (λ names. names.items ≡ terminal_names lines.now) }
{
    let mut names = Vec::new(alloc);
    for line in lines {
        names = mention(alloc, names, &line.name)?;
    }
    Ok(names)
}

fn is_supply(flow: Flow) -> bool
    ensures { result ≡ is_supply flow }
{
    match flow {
        Flow::PWR => true,
        _ => false,
    }
}

fn is_ground(flow: Flow) -> bool
    ensures { result ≡ is_ground flow }
{
    match flow {
        Flow::GND => true,
        _ => false,
    }
}

fn is_driving(flow: Flow) -> bool
    ensures { result ≡ is_driving flow }
{
    match flow {
        Flow::O => true,
        Flow::B => true,
        Flow::PO => true,
        Flow::PB => true,
        _ => false,
    }
}

fn is_supply_line(name: &[u8], line: &Line) -> bool
    ensures { result ≡ is_supply_line name.now line.now }
{
    name == line.name.items() && is_supply(line.flow)
}

fn is_ground_line(name: &[u8], line: &Line) -> bool
    ensures { result ≡ is_ground_line name.now line.now }
{
    name == line.name.items() && is_ground(line.flow)
}

fn is_driving_line(name: &[u8], line: &Line) -> bool
    ensures { result ≡ is_driving_line name.now line.now }
{
    name == line.name.items() && is_driving(line.flow)
}

/// Whether a terminal drives its net. Takes no memory.
pub(crate) fn does_drive(lines: &[Line], name: &[u8]) -> bool
    ensures { result ≡ list_any (is_driving_line name.now) lines.now }
{
    lines.iter().any(|line| is_driving_line(name, line))
}

/// Whether a terminal has a line of power.
fn has_supply(lines: &[Line], name: &[u8]) -> bool
    ensures { result ≡ list_any (is_supply_line name.now) lines.now }
{
    lines.iter().any(|line| is_supply_line(name, line))
}

/// Whether a terminal has a line of ground.
fn has_ground(lines: &[Line], name: &[u8]) -> bool
    ensures { result ≡ list_any (is_ground_line name.now) lines.now }
{
    lines.iter().any(|line| is_ground_line(name, line))
}

/// The word of a terminal that is a power terminal, and none of others. Takes no memory.
#[tactic(auto, unfolding(crate::specs::Cells::power_word))]
pub(crate) fn power_word(lines: &[Line], name: &[u8]) -> Option<&'static [u8]>
    ensures { option_map (λ w. w.now) result ≡ power_word lines.now name.now }
{
    if has_supply(lines, name) {
        return Some(b"VDD");
    }
    if has_ground(lines, name) {
        return Some(b"GND");
    }
    None
}
