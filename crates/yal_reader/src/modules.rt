//! Modules from their heading to their last section, and the whole file.

ghost use Rattle.list_facts.specs.Texts.{texts};
ghost use Rattle.std.specs.Prelude.{◌≡◌, ◌<◌, ◌++◌, ◌∷◌, [], ℕ, Option, length, IfOk};
ghost use Rattle.yal_reader.specs.Kept.{HasAtMost, HasSpots, IsKept};
ghost use Rattle.read_base.specs.Answers.{Answers, AnswersAs};
ghost use Rattle.yal_reader.specs.Sections.{items_of};
ghost use Rattle.yal_reader.specs.Seen.{seen};
ghost use Rattle.yal_reader.specs.Tokens.{tokens};
ghost use Rattle.yal_reader.specs.YalReads.{a_module, file_of, heading, module_of, modules, told_of, yal_reads};

use crate::fault::{Stop, YalFault, YalKind};
use crate::file::{Kind, Module, YalFile};
use crate::notation::Numbers;
use crate::parts::Parts;
use crate::plain::{check_ascii, without_comments};
use crate::sections::sections_at;
use crate::tokens::{bad, end_at, is_at_end, statement_at, word_at};
use crate::word::Word;
use crate::words::{keyword_at, kind_at, name_of};
use geom_core::{Items, Name};
use indexmap::IndexSet;
use list_facts::is_new;
use std::alloc::Global;

/// A module's name and type, and the text behind them; the name joins those taken.
#[tactic(auto, unfolding(crate::specs::YalReads::heading))]
fn heading_at<'a>(
    names: &mut IndexSet<&'a [u8]>,
    bytes: &'a [u8],
) -> Result<((Word<'a>, Kind), &'a [u8]), Stop>
    ensures gives { Answers (λ x. ((seen x.0.0, x.0.1), tokens x.1.now)) result (heading (texts names.old.keys) (tokens bytes.entry.now)) }
    ensures grown { IfOk result (λ x. texts names.new.keys ≡ texts names.old.keys ++ x.0.0.text.now ∷ []) }
    ensures shorter { IfOk result (λ x. length x.1.now < length bytes.entry.now) }
{
    let rest = keyword_at(b"MODULE", bytes)?;
    let (name, rest) = word_at(rest)?;
    if !is_new(names, name.text)? {
        return Err(Stop::At(bad(YalKind::Twice, name)));
    }
    let rest = end_at(rest)?;
    let rest = keyword_at(b"TYPE", statement_at(rest))?;
    let (kind, rest) = kind_at(rest)?;
    let rest = end_at(rest)?;
    Ok(((name, kind), rest))
}

/// The items of a section, or none where it does not stand. Takes no memory.
fn items_or_none<T: Drop>(alloc: Global, items: Option<Items<T>>) -> Items<T>
    ensures { result ≡ items_of items }
{
    match items {
        Some(items) => items,
        None => Items::new(Vec::new(alloc)),
    }
}

/// The module of this name and kind with these parts. Takes no memory.
fn module_with(alloc: Global, name: Name, kind: Kind, parts: Parts) -> Module
    ensures { result ≡ module_of name kind parts }
{
    let Parts {
        corners,
        lines,
        calls,
    } = parts;
    Module {
        name,
        kind,
        corners: items_or_none(alloc, corners),
        lines: items_or_none(alloc, lines),
        calls: items_or_none(alloc, calls),
    }
}

/// The module that comes next, and the text behind it; its name joins those taken.
#[tactic(auto, unfolding(crate::specs::YalReads::a_module))]
fn module_at<'a>(
    alloc: Global,
    numbers: Numbers,
    names: &mut IndexSet<&'a [u8]>,
    bytes: &'a [u8],
) -> Result<(Module, &'a [u8]), Stop>
    ensures gives { (n : ℕ) → length bytes.entry.now < n → Answers (λ x. (x.0, tokens x.1.now)) result (a_module numbers n (texts names.old.keys) (tokens bytes.entry.now)) }
    ensures grown { IfOk result (λ x. texts names.new.keys ≡ texts names.old.keys ++ x.0.name ∷ []) }
    ensures shorter { IfOk result (λ x. length x.1.now < length bytes.entry.now) }
{
    let ((name, kind), rest) = heading_at(names, bytes)?;
    let (parts, rest) = sections_at(alloc, numbers, kind, rest)?;
    let name = name_of(alloc, name)?;
    Ok((module_with(alloc, name, kind, parts), rest))
}

/// The modules to the end of the text.
fn modules_at(alloc: Global, numbers: Numbers, bytes: &[u8]) -> Result<Vec<Module>, Stop>
    ensures { (n : ℕ) → length bytes.now < n → Answers (λ found. found.items) result (modules numbers n [] (tokens bytes.now)) }
{
    let mut found = Vec::new(alloc);
    let mut names = IndexSet::new(alloc);
    let mut rest = bytes;
    loop {
        let start = statement_at(rest);
        if is_at_end(start) {
            return Ok(found);
        }
        let (module, after) = module_at(alloc, numbers, &mut names, start)?;
        found.push(module)?;
        rest = after;
    }
}

/// The file that a text is, or where it stops being one.
#[tactic(auto, unfolding(crate::specs::YalReads::file_of))]
fn file_at(alloc: Global, bytes: &[u8], numbers: Numbers) -> Result<YalFile, Stop>
    ensures { Answers (λ file. file) result (file_of bytes.now numbers) }
{
    check_ascii(bytes)?;
    let text = without_comments(alloc, bytes)?;
    let modules = modules_at(alloc, numbers, text.as_slice())?;
    Ok(YalFile {
        modules: Items::new(modules),
    })
}

/// Reads a YAL text whose numbers are written so: a file exactly where the bytes are one, else the kind and the place of the first fault, or want of memory.
/// A file has no more modules than the text has bytes, and no module more lines or calls. Source: MCNC YAL.
#[tactic(auto, unfolding(crate::specs::YalReads::yal_reads))]
pub fn read_yal(alloc: Global, bytes: &[u8], numbers: Numbers) -> Result<YalFile, YalFault>
    ensures reads { AnswersAs (λ file. file) told_of result (yal_reads bytes.now numbers) }
    ensures kept { IfOk result (λ file. IsKept file) }
    ensures spots { IfOk result (λ file. HasSpots file) }
    ensures short { IfOk result (λ file. HasAtMost (length bytes.now) file) }
{
    match file_at(alloc, bytes, numbers) {
        Ok(file) => Ok(file),
        Err(Stop::At(flaw)) => Err(YalFault::Bad {
            kind: flaw.kind,
            at: bytes.len().saturating_sub(flaw.left) as u64,
        }),
        Err(Stop::Memory) => Err(YalFault::Memory),
    }
}
