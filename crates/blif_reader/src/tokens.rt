//! The next word or line feed of a text, behind its blanks.

ghost use Rattle.std.specs.List.{prefix_len};
ghost use Rattle.std.specs.Prelude.{◌≡◌, ◌<◌, ◌≤◌, false, length, IfOk};
ghost use Rattle.read_base.specs.Answers.{AnswersAs};
ghost use Rattle.blif_reader.specs.Seen.{begins_blank, seen};
ghost use Rattle.blif_reader.specs.Tokens.{is_blank as is_blank_byte, is_word_byte as is_in_word, tokens};
ghost use Rattle.blif_reader.specs.Words.{a_feed, a_word, an_end, flaw_here, from_line, is_empty};

use crate::fault::{BlifKind, Flaw};
use crate::word::Word;

/// Whether a byte parts words.
fn is_blank(byte: u8) -> bool
    ensures { result ≡ is_blank_byte byte }
{
    byte == b'\t' || byte == b' '
}

/// Whether a byte belongs to a word.
fn is_word_byte(byte: u8) -> bool
    ensures { result ≡ is_in_word byte }
{
    !is_blank(byte) && byte != b'\n'
}

/// How many blanks stand first.
fn blank_len(bytes: &[u8]) -> usize
    ensures { result ≡ prefix_len is_blank_byte bytes.now }
{
    bytes.iter().take_while(|byte| is_blank(**byte)).count()
}

/// How long the word is that stands first.
fn word_len(bytes: &[u8]) -> usize
    ensures { result ≡ prefix_len is_in_word bytes.now }
{
    bytes.iter().take_while(|byte| is_word_byte(**byte)).count()
}

/// The text from its first byte on that is no blank.
fn skip_blanks(bytes: &[u8]) -> &[u8]
    ensures same { tokens result.now ≡ tokens bytes.now }
    ensures bare { begins_blank result.now ≡ false }
    ensures shorter { length result.now ≤ length bytes.now }
{
    bytes.split_at(blank_len(bytes)).1
}

/// That this word is at fault.
pub(crate) fn bad(kind: BlifKind, word: Word<'_>) -> Flaw
    ensures { result ≡ record { kind = kind; left = word.entry.left } }
{
    Flaw {
        kind,
        left: word.left,
    }
}

/// That no reading goes on here.
fn flaw_at(bytes: &[u8]) -> Flaw
    requires { begins_blank bytes.now ≡ false }
    ensures { result ≡ flaw_here (tokens bytes.now) }
{
    if bytes.is_empty() {
        return Flaw {
            kind: BlifKind::Ends,
            left: 0,
        };
    }
    Flaw {
        kind: BlifKind::Word,
        left: bytes.len(),
    }
}

/// The word that comes next, and the text behind it; or that none does. Takes no memory.
pub(crate) fn word_at(bytes: &[u8]) -> Result<(Word<'_>, &[u8]), Flaw>
    ensures gives { AnswersAs (λ x. (seen x.0, tokens x.1.now)) Some result (a_word (tokens bytes.now)) }
    ensures shorter { IfOk result (λ x. length x.1.now < length bytes.now) }
{
    let rest = skip_blanks(bytes);
    let len = word_len(rest);
    if len == 0 {
        return Err(flaw_at(rest));
    }
    let (text, after) = rest.split_at(len);
    Ok((
        Word {
            text,
            left: rest.len(),
        },
        after,
    ))
}

/// The text behind the line feed that comes next; or that none does. Takes no memory.
pub(crate) fn feed_at(bytes: &[u8]) -> Result<&[u8], Flaw>
    ensures gives { AnswersAs (λ rest. tokens rest.now) Some result (a_feed (tokens bytes.now)) }
    ensures shorter { IfOk result (λ rest. length rest.now < length bytes.now) }
{
    let rest = skip_blanks(bytes);
    if rest.is_empty() {
        return Err(flaw_at(rest));
    }
    if rest[0] != b'\n' {
        return Err(flaw_at(rest));
    }
    Ok(rest.split_at(1).1)
}

/// Whether nothing but blanks is left.
pub(crate) fn is_at_end(bytes: &[u8]) -> bool
    ensures { result ≡ is_empty (tokens bytes.now) }
{
    skip_blanks(bytes).is_empty()
}

/// The text from its next line on that has words. Takes no memory.
pub(crate) fn line_at(bytes: &[u8]) -> &[u8]
    ensures gives { tokens result.now ≡ from_line (tokens bytes.now) }
    ensures shorter { length result.now ≤ length bytes.now }
{
    let mut rest = bytes;
    while let Ok(after) = feed_at(rest) {
        rest = after;
    }
    rest
}

/// The text behind the line that ends here, by a line feed or with the text; or that it does not. Takes no memory.
pub(crate) fn end_at(bytes: &[u8]) -> Result<&[u8], Flaw>
    ensures gives { AnswersAs (λ rest. tokens rest.now) Some result (an_end (tokens bytes.now)) }
    ensures shorter { IfOk result (λ rest. length rest.now ≤ length bytes.now) }
{
    if is_at_end(bytes) {
        return Ok(skip_blanks(bytes));
    }
    feed_at(bytes)
}
