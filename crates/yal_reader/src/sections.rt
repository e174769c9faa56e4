//! The sections of a module: DIMENSIONS, IOLIST, NETWORK, and those that are passed over.

ghost use Rattle.std.specs.Prelude.{◌≡◌, ◌<◌, ◌≤◌, ℕ, Bool, None, length, IfOk};
ghost use Rattle.yal_reader.specs.Kept.{is_standard as is_standard_kind};
ghost use Rattle.read_base.specs.Answers.{Answers, AnswersAs};
ghost use Rattle.yal_reader.specs.Sections.{calls_after, corners_after, dimensions, lines_after, no_parts, passed_after, passed_until, passes_words as passes_words_of, section_after, sections};
ghost use Rattle.yal_reader.specs.Seen.{seen};
ghost use Rattle.yal_reader.specs.Tokens.{tokens};

use crate::fault::{Flaw, Stop, YalKind};
use crate::file::Kind;
use crate::lists::{io_list_at, network_at};
use crate::notation::Numbers;
use crate::parts::Parts;
use crate::tokens::{bad, end_at, statement_at, word_at};
use crate::word::Word;
use crate::words::{after_stop_at, is_word, numbers_at, past_words_at};
use geom_core::Items;
use std::alloc::Global;

/// Whether a module is STANDARD.
fn is_standard(kind: Kind) -> bool
    ensures { result ≡ is_standard_kind kind }
{
    match kind {
        Kind::Standard => true,
        _ => false,
    }
}

/// DIMENSIONS behind its keyword: its numbers in a STANDARD module, and the text behind it.
#[tactic(auto, unfolding(crate::specs::Sections::dimensions))]
fn dimensions_at(
    alloc: Global,
    numbers: Numbers,
    kind: Kind,
    bytes: &[u8],
) -> Result<(Vec<i64>, &[u8]), Stop>
    ensures gives { Answers (λ x. (x.0.items, tokens x.1.now)) result (dimensions numbers kind (tokens bytes.now)) }
    ensures shorter { IfOk result (λ x. length x.1.now < length bytes.now) }
{
    if is_standard(kind) {
        return numbers_at(alloc, numbers, bytes);
    }
    let rest = past_words_at(bytes)?;
    Ok((Vec::new(alloc), rest))
}

/// The parts with the corners of this DIMENSIONS, which may not have stood before.
#[tactic(auto, unfolding(crate::specs::Sections::corners_after))]
fn with_corners<'a>(
    alloc: Global,
    numbers: Numbers,
    kind: Kind,
    parts: Parts,
    word: Word<'a>,
    bytes: &'a [u8],
) -> Result<(Parts, &'a [u8]), Stop>
    ensures gives { Answers (λ x. (x.0, tokens x.1.now)) result (corners_after numbers kind parts (seen word.entry) (tokens bytes.entry.now)) }
    ensures shorter { IfOk result (λ x. length x.1.now < length bytes.entry.now) }
{
    if parts.corners.is_some() {
        return Err(Stop::At(bad(YalKind::Twice, word)));
    }
    let (corners, rest) = dimensions_at(alloc, numbers, kind, bytes)?;
    let corners = Some(Items::new(corners));
    let Parts {
        corners: _,
        lines,
        calls,
    } = parts;
    Ok((
        Parts {
            corners,
            lines,
            calls,
        },
        rest,
    ))
}

/// The parts with the lines of this IOLIST, which may not have stood before.
#[tactic(auto, unfolding(crate::specs::Sections::lines_after))]
fn with_lines<'a>(
    alloc: Global,
    numbers: Numbers,
    kind: Kind,
    parts: Parts,
    word: Word<'a>,
    bytes: &'a [u8],
) -> Result<(Parts, &'a [u8]), Stop>
    ensures gives { (n : ℕ) → length bytes.entry.now < n → Answers (λ x. (x.0, tokens x.1.now)) result (lines_after numbers n kind parts (seen word.entry) (tokens bytes.entry.now)) }
    ensures shorter { IfOk result (λ x. length x.1.now < length bytes.entry.now) }
{
    if parts.lines.is_some() {
        return Err(Stop::At(bad(YalKind::Twice, word)));
    }
    let (lines, rest) = io_list_at(alloc, numbers, kind, bytes)?;
    let lines = Some(Items::new(lines));
    let Parts {
        corners,
        lines: _,
        calls,
    } = parts;
    Ok((
        Parts {
            corners,
            lines,
            calls,
        },
        rest,
    ))
}

/// The parts with the calls of this NETWORK, which may not have stood before.
#[tactic(auto, unfolding(crate::specs::Sections::calls_after))]
fn with_calls<'a>(
    alloc: Global,
    kind: Kind,
    parts: Parts,
    word: Word<'a>,
    bytes: &'a [u8],
) -> Result<(Parts, &'a [u8]), Stop>
    ensures gives { (n : ℕ) → length bytes.entry.now < n → Answers (λ x. (x.0, tokens x.1.now)) result (calls_after n kind parts (seen word.entry) (tokens bytes.entry.now)) }
    ensures shorter { IfOk result (λ x. length x.1.now < length bytes.entry.now) }
{
    if parts.calls.is_some() {
        return Err(Stop::At(bad(YalKind::Twice, word)));
    }
    let (calls, rest) = network_at(alloc, kind, bytes)?;
    let calls = Some(Items::new(calls));
    let Parts {
        corners,
        lines,
        calls: _,
    } = parts;
    Ok((
        Parts {
            corners,
            lines,
            calls,
        },
        rest,
    ))
}

/// The text behind this keyword as the first word of a later statement, and its semicolon. Takes no memory.
#[tactic(auto, unfolding(crate::specs::Sections::passed_until))]
fn past_until<'a>(keyword: &[u8], bytes: &'a [u8]) -> Result<&'a [u8], Flaw>
    ensures gives { AnswersAs (λ rest. tokens rest.now) Some result (passed_until keyword.now (tokens bytes.entry.now)) }
    ensures shorter { IfOk result (λ rest. length rest.now < length bytes.entry.now) }
{
    let rest = past_words_at(bytes)?;
    let rest = after_stop_at(keyword, rest)?;
    end_at(rest)
}

/// Whether this keyword begins a section of one statement that is passed over.
fn passes_words(word: &[u8]) -> bool
    ensures { result ≡ passes_words_of word.now }
{
    if is_word(word, b"PROFILE") {
        return true;
    }
    if is_word(word, b"CURRENT") {
        return true;
    }
    is_word(word, b"VOLTAGE")
}

/// The text behind the section that this word begins and that is passed over. Takes no memory.
#[tactic(auto, unfolding(crate::specs::Sections::passed_after))]
fn past_section<'a>(word: Word<'a>, bytes: &'a [u8]) -> Result<&'a [u8], Flaw>
    ensures gives { AnswersAs (λ rest. tokens rest.now) Some result (passed_after (seen word.entry) (tokens bytes.entry.now)) }
    ensures shorter { IfOk result (λ rest. length rest.now < length bytes.entry.now) }
{
    if passes_words(word.text) {
        return past_words_at(bytes);
    }
    if is_word(word.text, b"PLACEMENT") {
        return past_until(b"ENDPLACEMENT", bytes);
    }
    if is_word(word.text, b"CRITICALNETS") {
        return past_until(b"ENDCRITICALNETS", bytes);
    }
    Err(bad(YalKind::Word, word))
}

/// The parts with what the section gives that this word begins, and the text behind it.
#[tactic(auto, unfolding(crate::specs::Sections::section_after))]
fn section_at<'a>(
    alloc: Global,
    numbers: Numbers,
    kind: Kind,
    parts: Parts,
    word: Word<'a>,
    bytes: &'a [u8],
) -> Result<(Parts, &'a [u8]), Stop>
    ensures gives { (n : ℕ) → length bytes.entry.now < n → Answers (λ x. (x.0, tokens x.1.now)) result (section_after numbers n kind parts (seen word.entry) (tokens bytes.entry.now)) }
    ensures shorter { IfOk result (λ x. length x.1.now < length bytes.entry.now) }
{
    if is_word(word.text, b"DIMENSIONS") {
        return with_corners(alloc, numbers, kind, parts, word, bytes);
    }
    if is_word(word.text, b"IOLIST") {
        return with_lines(alloc, numbers, kind, parts, word, bytes);
    }
    if is_word(word.text, b"NETWORK") {
        return with_calls(alloc, kind, parts, word, bytes);
    }
    let rest = past_section(word, bytes)?;
    Ok((parts, rest))
}

/// The parts of a module, and the text behind ENDMODULE and its semicolon.
pub(crate) fn sections_at(
    alloc: Global,
    numbers: Numbers,
    kind: Kind,
    bytes: &[u8],
) -> Result<(Parts, &[u8]), Stop>
    ensures gives { (n : ℕ) → length bytes.now < n → Answers (λ x. (x.0, tokens x.1.now)) result (sections numbers n kind no_parts (tokens bytes.now)) }
    ensures shorter { IfOk result (λ x. length x.1.now < length bytes.now) }
{
    let mut parts = Parts {
        corners: None,
        lines: None,
        calls: None,
    };
    let mut rest = bytes;
    loop {
        let (first, after) = word_at(statement_at(rest))?;
        if is_word(first.text, b"ENDMODULE") {
            let after = end_at(after)?;
            return Ok((parts, after));
        }
        let (more, after) = section_at(alloc, numbers, kind, parts, first, after)?;
        parts = more;
        rest = after;
    }
}
