//! The lines of a model from its heading to its end, and the whole file.

ghost use Rattle.blif_reader.specs.BlifReads.{blif_reads, closed, file_of, file_with, heading, lines, model, nothing, told_of};
ghost use Rattle.blif_reader.specs.Kept.{IsKept};
ghost use Rattle.blif_reader.specs.Lines.{gate_line, line_after, strange};
ghost use Rattle.blif_reader.specs.Parts.{no_parts};
ghost use Rattle.blif_reader.specs.Seen.{seen};
ghost use Rattle.blif_reader.specs.Tokens.{tokens};
ghost use Rattle.blif_reader.specs.Words.{words};
ghost use Rattle.read_base.specs.Answers.{Answers, AnswersAs};
ghost use Rattle.std.specs.Prelude.{◌≡◌, ◌<◌, ◌≤◌, ◌++◌, ℕ, length, IfOk};

use crate::fault::{BlifFault, BlifKind, Flaw, Stop};
use crate::file::{BlifFile, BlifWord};
use crate::found::Found;
use crate::gates::gate_at;
use crate::plain::{check_bytes, without_comments};
use crate::tables::{begins_with_point, table_at};
use crate::tokens::{bad, end_at, line_at, word_at};
use crate::word::Word;
use crate::words::{is_word, the_word_at, worded, words_behind};
use geom_core::Items;
use std::alloc::{AllocError, Global};

/// What is wrong with a word that begins no line that is read.
fn strange(text: &[u8]) -> BlifKind
    ensures { result ≡ strange text.now }
{
    if is_word(text, b".model") {
        return BlifKind::Model;
    }
    if is_word(text, b".cname") {
        return BlifKind::Cname;
    }
    if begins_with_point(text) {
        return BlifKind::Directive;
    }
    BlifKind::Word
}

/// What was found so far with the words of a line as inputs, and the text behind it.
fn with_inputs(
    alloc: Global,
    size: usize,
    found: Found,
    bytes: &[u8],
) -> Result<(Found, &[u8]), AllocError>
    ensures found { IfOk result (λ x. x.0 ≡ record found { inputs = found.inputs ++ (words size (tokens bytes.now)).0 }) }
    ensures rest { IfOk result (λ x. tokens x.1.now ≡ (words size (tokens bytes.now)).1) }
    ensures shorter { IfOk result (λ x. length x.1.now ≤ length bytes.now) }
{
    let Found {
        inputs,
        outputs,
        gates,
        joins,
        constants,
    } = found;
    let (inputs, rest) = words_behind(alloc, size, inputs, bytes)?;
    let found = Found {
        inputs,
        outputs,
        gates,
        joins,
        constants,
    };
    Ok((found, rest))
}

/// The same with the words as outputs.
fn with_outputs(
    alloc: Global,
    size: usize,
    found: Found,
    bytes: &[u8],
) -> Result<(Found, &[u8]), AllocError>
    ensures found { IfOk result (λ x. x.0 ≡ record found { outputs = found.outputs ++ (words size (tokens bytes.now)).0 }) }
    ensures rest { IfOk result (λ x. tokens x.1.now ≡ (words size (tokens bytes.now)).1) }
    ensures shorter { IfOk result (λ x. length x.1.now ≤ length bytes.now) }
{
    let Found {
        inputs,
        outputs,
        gates,
        joins,
        constants,
    } = found;
    let (outputs, rest) = words_behind(alloc, size, outputs, bytes)?;
    let found = Found {
        inputs,
        outputs,
        gates,
        joins,
        constants,
    };
    Ok((found, rest))
}

/// What was found so far with the gate behind its keyword, and the text behind it.
#[tactic(auto, unfolding(crate::specs::Lines::gate_line))]
fn with_gate(alloc: Global, size: usize, found: Found, bytes: &[u8]) -> Result<(Found, &[u8]), Stop>
    ensures gives { Answers (λ x. (x.0, tokens x.1.now)) result (gate_line size found (tokens bytes.now)) }
    ensures shorter { IfOk result (λ x. length x.1.now < length bytes.now) }
{
    let mut found = found;
    let (gate, rest) = gate_at(alloc, size, bytes)?;
    found.gates.push(gate)?;
    Ok((found, rest))
}

/// What was found so far with the line that this word begins, and the text behind it.
#[tactic(auto, unfolding(crate::specs::Lines::line_after))]
fn line_after_at<'a>(
    alloc: Global,
    size: usize,
    found: Found,
    word: Word<'a>,
    bytes: &'a [u8],
) -> Result<(Found, &'a [u8]), Stop>
    ensures gives { Answers (λ x. (x.0, tokens x.1.now)) result (line_after size found (seen word.entry) (tokens bytes.entry.now)) }
    ensures shorter { IfOk result (λ x. length x.1.now ≤ length bytes.entry.now) }
{
    if is_word(word.text, b".inputs") {
        return Ok(with_inputs(alloc, size, found, bytes)?);
    }
    if is_word(word.text, b".outputs") {
        return Ok(with_outputs(alloc, size, found, bytes)?);
    }
    if is_word(word.text, b".gate") {
        return with_gate(alloc, size, found, bytes);
    }
    if is_word(word.text, b".names") {
        return table_at(alloc, size, word, found, bytes);
    }
    Err(Stop::At(bad(strange(word.text), word)))
}

/// That nothing stands behind the model. Takes no memory.
fn nothing_at(bytes: &[u8]) -> Result<(), Flaw>
    ensures { AnswersAs (λ x. x) Some result (nothing (tokens bytes.now)) }
{
    let Ok((word, _)) = word_at(bytes) else {
        return Ok(());
    };
    if is_word(word.text, b".model") {
        return Err(bad(BlifKind::Model, word));
    }
    Err(bad(BlifKind::Word, word))
}

/// The end of the model behind its keyword. Takes no memory.
#[tactic(auto, unfolding(crate::specs::BlifReads::closed))]
fn closed_at(bytes: &[u8]) -> Result<(), Flaw>
    ensures { AnswersAs (λ x. x) Some result (closed (tokens bytes.now)) }
{
    let rest = end_at(bytes)?;
    nothing_at(line_at(rest))
}

/// What the lines up to `.end` give, in a text of so many bytes.
fn lines_at(alloc: Global, size: usize, bytes: &[u8]) -> Result<Found, Stop>
    ensures { (n : ℕ) → length bytes.now < n → Answers (λ found. found) result (lines size n no_parts (tokens bytes.now)) }
{
    let mut found = Found {
        inputs: Vec::new(alloc),
        outputs: Vec::new(alloc),
        gates: Vec::new(alloc),
        joins: Vec::new(alloc),
        constants: Vec::new(alloc),
    };
    let mut rest = bytes;
    loop {
        let (first, after) = word_at(line_at(rest))?;
        if is_word(first.text, b".end") {
            closed_at(after)?;
            return Ok(found);
        }
        let (more, after) = line_after_at(alloc, size, found, first, after)?;
        found = more;
        rest = after;
    }
}

/// The line of the model's name, and the text behind it. Takes no memory.
#[tactic(auto, unfolding(crate::specs::BlifReads::heading))]
fn heading_at(bytes: &[u8]) -> Result<(Word<'_>, &[u8]), Flaw>
    ensures gives { AnswersAs (λ x. (seen x.0, tokens x.1.now)) Some result (heading (tokens bytes.now)) }
    ensures shorter { IfOk result (λ x. length x.1.now < length bytes.now) }
{
    let rest = the_word_at(b".model", bytes)?;
    let (name, rest) = word_at(rest)?;
    let rest = end_at(rest)?;
    Ok((name, rest))
}

/// The file of this model. Takes no memory.
fn file_with(model: BlifWord, found: Found) -> BlifFile
    ensures { result ≡ file_with model found }
{
    let Found {
        inputs,
        outputs,
        gates,
        joins,
        constants,
    } = found;
    BlifFile {
        model,
        inputs: Items::new(inputs),
        outputs: Items::new(outputs),
        gates: Items::new(gates),
        joins: Items::new(joins),
        constants: Items::new(constants),
    }
}

/// The model of a text of so many bytes.
#[tactic(auto, unfolding(crate::specs::BlifReads::model))]
fn model_at(alloc: Global, size: usize, bytes: &[u8]) -> Result<BlifFile, Stop>
    ensures { (n : ℕ) → length bytes.now < n → Answers (λ file. file) result (model size n (tokens bytes.now)) }
{
    let (name, rest) = heading_at(line_at(bytes))?;
    let found = lines_at(alloc, size, rest)?;
    Ok(file_with(worded(alloc, size, name)?, found))
}

/// The file that a text is, or where it stops being one.
#[tactic(auto, unfolding(crate::specs::BlifReads::file_of))]
fn file_at(alloc: Global, bytes: &[u8]) -> Result<BlifFile, Stop>
    ensures { Answers (λ file. file) result (file_of bytes.now) }
{
    let text = without_comments(alloc, bytes)?;
    check_bytes(text.as_slice())?;
    model_at(alloc, bytes.len(), text.as_slice())
}

/// Reads a BLIF text: a file exactly where the bytes are one, else the kind and the place of the first fault, or want of memory. Source: Berkeley Logic Interchange
/// Format, of which gates and the tables of constants and of joined words are read. Each word of a file can be written in YAL.
#[tactic(auto, unfolding(crate::specs::BlifReads::blif_reads))]
pub fn read_blif(alloc: Global, bytes: &[u8]) -> Result<BlifFile, BlifFault>
    ensures reads { AnswersAs (λ file. file) told_of result (blif_reads bytes.now) }
    ensures kept { IfOk result (λ file. IsKept file) }
{
    match file_at(alloc, bytes) {
        Ok(file) => Ok(file),
        Err(Stop::At(flaw)) => Err(BlifFault::Bad {
            kind: flaw.kind,
            at: bytes.len().saturating_sub(flaw.left) as u64,
        }),
        Err(Stop::Memory) => Err(BlifFault::Memory),
    }
}
