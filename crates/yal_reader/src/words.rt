//! Keywords, types of modules and flows of terminals, and words or numbers up to a semicolon.

ghost use Rattle.std.specs.Prelude.{◌≡◌, ◌<◌, true, length, IfOk};
ghost use Rattle.yal_reader.specs.Numbers.{number_run};
ghost use Rattle.read_base.specs.Answers.{Answers, AnswersAs};
ghost use Rattle.yal_reader.specs.Seen.{seen};
ghost use Rattle.yal_reader.specs.Tokens.{tokens};
ghost use Rattle.yal_reader.specs.Words.{a_flow, a_kind, after_stop, flow_of, kind_of, past_words, spells, the_word, words};

use crate::coordinates::number_of;
use crate::fault::{Flaw, Stop, YalKind};
use crate::file::{Flow, Kind};
use crate::notation::Numbers;
use crate::tokens::{bad, end_at, statement_at, word_at};
use crate::word::Word;
use geom_core::Name;
use std::alloc::{AllocError, Global};

/// Whether a word is this keyword; keywords ignore the case of letters.
pub(crate) fn is_word(found: &[u8], keyword: &[u8]) -> bool
    ensures { result ≡ spells keyword.now found.now }
{
    found.eq_ignore_ascii_case(keyword)
}

/// A name of this word's bytes, in memory of its own. The one error is want of memory.
pub(crate) fn name_of(alloc: Global, word: Word<'_>) -> Result<Name, AllocError>
    ensures { IfOk result (λ name. name ≡ word.entry.text.now) }
{
    Ok(Name::new(word.text.to_vec(alloc)?))
}

/// The text behind this keyword, which stands here. Takes no memory.
#[tactic(auto, unfolding(crate::specs::Words::the_word))]
pub(crate) fn keyword_at<'a>(keyword: &[u8], bytes: &'a [u8]) -> Result<&'a [u8], Flaw>
    ensures gives { AnswersAs (λ rest. tokens rest.now) Some result (the_word keyword.now (tokens bytes.entry.now)) }
    ensures shorter { IfOk result (λ rest. length rest.now < length bytes.entry.now) }
{
    let (word, rest) = word_at(bytes)?;
    if !is_word(word.text, keyword) {
        return Err(bad(YalKind::Word, word));
    }
    Ok(rest)
}

/// The type of modules that this word names.
fn kind_named(text: &[u8]) -> Option<Kind>
    ensures { result ≡ kind_of text.now }
{
    if is_word(text, b"STANDARD") {
        return Some(Kind::Standard);
    }
    if is_word(text, b"PAD") {
        return Some(Kind::Pad);
    }
    if is_word(text, b"GENERAL") {
        return Some(Kind::General);
    }
    if is_word(text, b"PARENT") {
        return Some(Kind::Parent);
    }
    None
}

/// The type of modules that comes next, and the text behind it. Takes no memory.
#[tactic(auto, unfolding(crate::specs::Words::a_kind))]
pub(crate) fn kind_at(bytes: &[u8]) -> Result<(Kind, &[u8]), Flaw>
    ensures gives { AnswersAs (λ x. (x.0, tokens x.1.now)) Some result (a_kind (tokens bytes.now)) }
    ensures shorter { IfOk result (λ x. length x.1.now < length bytes.now) }
{
    let (word, rest) = word_at(bytes)?;
    let Some(kind) = kind_named(word.text) else {
        return Err(bad(YalKind::Word, word));
    };
    Ok((kind, rest))
}

/// The flow that this word names.
fn flow_named(text: &[u8]) -> Option<Flow>
    ensures { result ≡ flow_of text.now }
{
    if is_word(text, b"I") {
        return Some(Flow::I);
    }
    if is_word(text, b"O") {
        return Some(Flow::O);
    }
    if is_word(text, b"B") {
        return Some(Flow::B);
    }
    if is_word(text, b"PI") {
        return Some(Flow::PI);
    }
    if is_word(text, b"PO") {
        return Some(Flow::PO);
    }
    if is_word(text, b"PB") {
        return Some(Flow::PB);
    }
    if is_word(text, b"F") {
        return Some(Flow::F);
    }
    if is_word(text, b"PWR") {
        return Some(Flow::PWR);
    }
    if is_word(text, b"GND") {
        return Some(Flow::GND);
    }
    None
}

/// The flow that comes next, and the text behind it. Takes no memory.
#[tactic(auto, unfolding(crate::specs::Words::a_flow))]
pub(crate) fn flow_at(bytes: &[u8]) -> Result<(Flow, &[u8]), Flaw>
    ensures gives { AnswersAs (λ x. (x.0, tokens x.1.now)) Some result (a_flow (tokens bytes.now)) }
    ensures shorter { IfOk result (λ x. length x.1.now < length bytes.now) }
{
    let (word, rest) = word_at(bytes)?;
    let Some(flow) = flow_named(word.text) else {
        return Err(bad(YalKind::Word, word));
    };
    Ok((flow, rest))
}

/// The words up to the next semicolon, and the text behind it.
pub(crate) fn words_at(alloc: Global, bytes: &[u8]) -> Result<(Vec<Name>, &[u8]), Stop>
    ensures gives { Answers (λ x. (x.0.items, tokens x.1.now)) result (words (tokens bytes.now)) }
    ensures shorter { IfOk result (λ x. length x.1.now < length bytes.now) }
{
    let mut found = Vec::new(alloc);
    let mut rest = bytes;
    while let Ok((word, after)) = word_at(rest) {
        found.push(name_of(alloc, word)?)?;
        rest = after;
    }
    let rest = end_at(rest)?;
    Ok((found, rest))
}

/// The numbers up to the next semicolon, and the text behind it.
pub(crate) fn numbers_at(
    alloc: Global,
    numbers: Numbers,
    bytes: &[u8],
) -> Result<(Vec<i64>, &[u8]), Stop>
    ensures gives { Answers (λ x. (x.0.items, tokens x.1.now)) result (number_run numbers (tokens bytes.now)) }
    ensures shorter { IfOk result (λ x. length x.1.now < length bytes.now) }
{
    let mut found = Vec::new(alloc);
    let mut rest = bytes;
    while let Ok((word, after)) = word_at(rest) {
        let Some(n) = number_of(numbers, word.text) else {
            return Err(Stop::At(bad(YalKind::Number, word)));
        };
        found.push(n)?;
        rest = after;
    }
    let rest = end_at(rest)?;
    Ok((found, rest))
}

/// The text behind the next semicolon; the words before it are passed over. Takes no memory.
pub(crate) fn past_words_at(bytes: &[u8]) -> Result<&[u8], Flaw>
    ensures gives { AnswersAs (λ rest. tokens rest.now) Some result (past_words (tokens bytes.now)) }
    ensures shorter { IfOk result (λ rest. length rest.now < length bytes.now) }
{
    let mut rest = bytes;
    while let Ok((_, after)) = word_at(rest) {
        rest = after;
    }
    end_at(rest)
}

/// The text behind this keyword as the first word of a statement, where a statement starts here. Takes no memory.
pub(crate) fn after_stop_at<'a>(keyword: &[u8], bytes: &'a [u8]) -> Result<&'a [u8], Flaw>
    ensures gives { AnswersAs (λ rest. tokens rest.now) Some result (after_stop keyword.now true (tokens bytes.entry.now)) }
    ensures shorter { IfOk result (λ rest. length rest.now < length bytes.entry.now) }
{
    let mut rest = bytes;
    loop {
        let (word, after) = word_at(statement_at(rest))?;
        if is_word(word.text, keyword) {
            return Ok(after);
        }
        rest = past_words_at(after)?;
    }
}
