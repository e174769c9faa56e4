//! The tables that say no more than that a net is constant, or that two words are one net.

ghost use Rattle.blif_reader.specs.Lines.{constant_end, ends_here, equal_row, is_row, one_row, second_word, table_after, table_of};
ghost use Rattle.blif_reader.specs.Seen.{seen};
ghost use Rattle.blif_reader.specs.Text.{begins};
ghost use Rattle.blif_reader.specs.Tokens.{tokens};
ghost use Rattle.blif_reader.specs.Words.{worded};
ghost use Rattle.read_base.specs.Answers.{Answers, AnswersAs};
ghost use Rattle.std.specs.Prelude.{◌≡◌, ◌<◌, ◌≤◌, ◌++◌, ◌∷◌, [], length, IfOk};

use crate::fault::{BlifKind, Flaw, Stop};
use crate::file::Join;
use crate::found::Found;
use crate::tokens::{bad, end_at, line_at, word_at};
use crate::word::Word;
use crate::words::{the_word_at, worded};
use std::alloc::{AllocError, Global};

/// Whether a row of a table comes next. Takes no memory.
fn is_row(bytes: &[u8]) -> bool
    ensures { result ≡ is_row (tokens bytes.now) }
{
    match word_at(bytes) {
        Ok((word, _)) => !begins_with_point(word.text),
        Err(_) => false,
    }
}

/// Whether a point stands first. Takes no memory.
pub(crate) fn begins_with_point(text: &[u8]) -> bool
    ensures { result ≡ begins 46 text.now }
{
    !text.is_empty() && text[0] == b'.'
}

/// The text behind the row `1`. Takes no memory.
#[tactic(auto, unfolding(crate::specs::Lines::one_row))]
fn one_row_at(bytes: &[u8]) -> Result<&[u8], Flaw>
    ensures gives { AnswersAs (λ rest. tokens rest.now) Some result (one_row (tokens bytes.now)) }
    ensures shorter { IfOk result (λ rest. length rest.now < length bytes.now) }
{
    let rest = the_word_at(b"1", bytes)?;
    end_at(rest)
}

/// The text behind the row `1 1`. Takes no memory.
#[tactic(auto, unfolding(crate::specs::Lines::equal_row))]
fn equal_row_at(bytes: &[u8]) -> Result<&[u8], Flaw>
    ensures gives { AnswersAs (λ rest. tokens rest.now) Some result (equal_row (tokens bytes.now)) }
    ensures shorter { IfOk result (λ rest. length rest.now < length bytes.now) }
{
    let rest = the_word_at(b"1", bytes)?;
    one_row_at(rest)
}

/// The text behind the end of a constant's line and its row, if there is one. Takes no memory.
#[tactic(auto, unfolding(crate::specs::Lines::constant_end))]
fn constant_end_at(bytes: &[u8]) -> Result<&[u8], Flaw>
    ensures gives { AnswersAs (λ rest. tokens rest.now) Some result (constant_end (tokens bytes.now)) }
    ensures shorter { IfOk result (λ rest. length rest.now ≤ length bytes.now) }
{
    let rest = end_at(bytes)?;
    let line = line_at(rest);
    if !is_row(line) {
        return Ok(rest);
    }
    one_row_at(line)
}

/// The second of two words that are one net, and the text behind its row. Takes no memory.
#[tactic(auto, unfolding(crate::specs::Lines::second_word))]
fn second_word_at(bytes: &[u8]) -> Result<(Word<'_>, &[u8]), Flaw>
    ensures gives { AnswersAs (λ x. (seen x.0, tokens x.1.now)) Some result (second_word (tokens bytes.now)) }
    ensures shorter { IfOk result (λ x. length x.1.now < length bytes.now) }
{
    let (second, rest) = word_at(bytes)?;
    let rest = end_at(rest)?;
    let rest = equal_row_at(line_at(rest))?;
    Ok((second, rest))
}

/// Whether no word comes next. Takes no memory.
fn ends_here(bytes: &[u8]) -> bool
    ensures { result ≡ ends_here (tokens bytes.now) }
{
    word_at(bytes).is_err()
}

/// What was found so far, and one more word of a constant net.
fn with_constant(
    alloc: Global,
    size: usize,
    found: Found,
    word: Word<'_>,
) -> Result<Found, AllocError>
    ensures { IfOk result (λ more. more ≡ record found { constants = found.constants ++ worded size (seen word.entry) ∷ [] }) }
{
    let mut found = found;
    found.constants.push(worded(alloc, size, word)?)?;
    Ok(found)
}

/// What was found so far, and two more words that are one net.
fn with_join(
    alloc: Global,
    size: usize,
    found: Found,
    first: Word<'_>,
    second: Word<'_>,
) -> Result<Found, AllocError>
    ensures { IfOk result (λ more. more ≡ record found { joins = found.joins ++ record { first = worded size (seen first.entry); second = worded size (seen second.entry) } ∷ [] }) }
{
    let mut found = found;
    let first = worded(alloc, size, first)?;
    let second = worded(alloc, size, second)?;
    found.joins.push(Join { first, second })?;
    Ok(found)
}

/// What was found so far with the table of this first word, and the text behind it.
#[tactic(auto, unfolding(crate::specs::Lines::table_of))]
fn table_of_at<'a>(
    alloc: Global,
    size: usize,
    word: Word<'a>,
    found: Found,
    first: Word<'a>,
    bytes: &'a [u8],
) -> Result<(Found, &'a [u8]), Stop>
    ensures gives { Answers (λ x. (x.0, tokens x.1.now)) result (table_of size (seen word.entry) found (seen first.entry) (tokens bytes.entry.now)) }
    ensures shorter { IfOk result (λ x. length x.1.now ≤ length bytes.entry.now) }
{
    if ends_here(bytes) {
        let Ok(rest) = constant_end_at(bytes) else {
            return Err(Stop::At(bad(BlifKind::Table, word)));
        };
        return Ok((with_constant(alloc, size, found, first)?, rest));
    }
    let Ok((second, rest)) = second_word_at(bytes) else {
        return Err(Stop::At(bad(BlifKind::Table, word)));
    };
    Ok((with_join(alloc, size, found, first, second)?, rest))
}

/// What was found so far with the table behind this `.names`, and the text behind it.
#[tactic(auto, unfolding(crate::specs::Lines::table_after))]
pub(crate) fn table_at<'a>(
    alloc: Global,
    size: usize,
    word: Word<'a>,
    found: Found,
    bytes: &'a [u8],
) -> Result<(Found, &'a [u8]), Stop>
    ensures gives { Answers (λ x. (x.0, tokens x.1.now)) result (table_after size (seen word.entry) found (tokens bytes.entry.now)) }
    ensures shorter { IfOk result (λ x. length x.1.now < length bytes.entry.now) }
{
    let Ok((first, rest)) = word_at(bytes) else {
        return Err(Stop::At(bad(BlifKind::Table, word)));
    };
    table_of_at(alloc, size, word, found, first, rest)
}
