//! Words and pins up to the end of a line, and words that are called for.

ghost use Rattle.blif_reader.specs.Seen.{seen};
ghost use Rattle.blif_reader.specs.Tokens.{tokens};
ghost use Rattle.blif_reader.specs.Words.{a_pin, is_next, is_no_equals, pin_with, pins, the_word, worded, words};
ghost use Rattle.read_base.specs.Answers.{Answers, AnswersAs};
ghost use Rattle.std.specs.List.{prefix_len};
ghost use Rattle.std.specs.Prelude.{◌≡◌, ◌<◌, ◌≤◌, ◌++◌, length, IfOk};
ghost use Rattle.std.specs.Str.{bytes_eq};

use crate::fault::{BlifKind, Flaw, Stop};
use crate::file::{BlifWord, Pin};
use crate::tokens::{bad, end_at, word_at};
use crate::word::Word;
use geom_core::Name;
use std::alloc::{AllocError, Global};

/// Whether a word is this one.
pub(crate) fn is_word(found: &[u8], text: &[u8]) -> bool
    ensures { result ≡ bytes_eq found.now text.now }
{
    found == text
}

/// Whether this word comes next. Takes no memory.
pub(crate) fn is_next(text: &[u8], bytes: &[u8]) -> bool
    ensures { result ≡ is_next text.now (tokens bytes.now) }
{
    match word_at(bytes) {
        Ok((word, _)) => is_word(word.text, text),
        Err(_) => false,
    }
}

/// The text behind this word, which stands here. Takes no memory.
#[tactic(auto, unfolding(crate::specs::Words::the_word))]
pub(crate) fn the_word_at<'a>(text: &[u8], bytes: &'a [u8]) -> Result<&'a [u8], Flaw>
    ensures gives { AnswersAs (λ rest. tokens rest.now) Some result (the_word text.now (tokens bytes.entry.now)) }
    ensures shorter { IfOk result (λ rest. length rest.now < length bytes.entry.now) }
{
    let (word, rest) = word_at(bytes)?;
    if !is_word(word.text, text) {
        return Err(bad(BlifKind::Word, word));
    }
    Ok(rest)
}

/// A name of these bytes, in memory of its own. The one error is want of memory.
pub(crate) fn name_of(alloc: Global, text: &[u8]) -> Result<Name, AllocError>
    ensures { IfOk result (λ name. name ≡ text.now) }
{
    Ok(Name::new(text.to_vec(alloc)?))
}

/// Where a word stands in a text of so many bytes. Takes no memory.
pub(crate) fn place_of(size: usize, word: Word<'_>) -> u64
    ensures { result ≡ (worded size (seen word.entry)).at }
{
    size.saturating_sub(word.left) as u64
}

/// A word with its place in a text of so many bytes, in memory of its own. The one error is want of memory.
pub(crate) fn worded(alloc: Global, size: usize, word: Word<'_>) -> Result<BlifWord, AllocError>
    ensures { IfOk result (λ w. w ≡ worded size (seen word.entry)) }
{
    Ok(BlifWord {
        text: name_of(alloc, word.text)?,
        at: place_of(size, word),
    })
}

/// The words of a line behind others, and the text behind the line. The one error is want of memory.
pub(crate) fn words_behind(
    alloc: Global,
    size: usize,
    before: Vec<BlifWord>,
    bytes: &[u8],
) -> Result<(Vec<BlifWord>, &[u8]), AllocError>
    ensures items { IfOk result (λ x. x.0.items ≡ before.items ++ (words size (tokens bytes.now)).0) }
    ensures rest { IfOk result (λ x. tokens x.1.now ≡ (words size (tokens bytes.now)).1) }
    ensures shorter { IfOk result (λ x. length x.1.now ≤ length bytes.now) }
{
    let mut found = before;
    let mut rest = bytes;
    while let Ok((word, after)) = word_at(rest) {
        found.push(worded(alloc, size, word)?)?;
        rest = after;
    }
    match end_at(rest) {
        Ok(rest) => Ok((found, rest)),
        Err(_) => unreachable!(),
    }
}

/// How many bytes stand before the first `=`.
fn terminal_len(text: &[u8]) -> usize
    ensures { result ≡ prefix_len is_no_equals text.now }
{
    text.iter().take_while(|byte| **byte != b'=').count()
}

/// The pin of a terminal and of what stands behind it, with the place of its word in a text of so many bytes.
fn pin_with(
    alloc: Global,
    size: usize,
    word: Word<'_>,
    terminal: &[u8],
    behind: &[u8],
) -> Result<Pin, Stop>
    ensures { Answers (λ pin. pin) result (pin_with size (seen word.entry) terminal.now behind.now) }
{
    if terminal.is_empty() {
        return Err(Stop::At(bad(BlifKind::Pin, word)));
    }
    if behind.len() < 2 {
        return Err(Stop::At(bad(BlifKind::Pin, word)));
    }
    let terminal = name_of(alloc, terminal)?;
    let net = name_of(alloc, behind.split_at(1).1)?;
    Ok(Pin {
        terminal,
        net,
        at: place_of(size, word),
    })
}

/// The pin that a word is, with its place in a text of so many bytes.
#[tactic(auto, unfolding(crate::specs::Words::a_pin))]
fn pin_of(alloc: Global, size: usize, word: Word<'_>) -> Result<Pin, Stop>
    ensures { Answers (λ pin. pin) result (a_pin size (seen word.entry)) }
{
    let (terminal, behind) = word.text.split_at(terminal_len(word.text));
    pin_with(alloc, size, word, terminal, behind)
}

/// The pins of a line, and the text behind the line.
pub(crate) fn pins_at(alloc: Global, size: usize, bytes: &[u8]) -> Result<(Vec<Pin>, &[u8]), Stop>
    ensures gives { Answers (λ x. (x.0.items, tokens x.1.now)) result (pins size (tokens bytes.now)) }
    ensures shorter { IfOk result (λ x. length x.1.now ≤ length bytes.now) }
{
    let mut found = Vec::new(alloc);
    let mut rest = bytes;
    while let Ok((word, after)) = word_at(rest) {
        found.push(pin_of(alloc, size, word)?)?;
        rest = after;
    }
    let rest = end_at(rest)?;
    Ok((found, rest))
}
