//! The ASCII test of a text, and its comments turned into blanks.

ghost use Rattle.std.specs.Prelude.{◌≡◌, ◌≤◌, ◌++◌, ◌∷◌, [], ℕ, Bool, None, Some, Ok, Err, length, IfOk, IfErr, OnOk};
ghost use Rattle.read_base.specs.Answers.{Answers, AnswersAs, Fails, flaw_of};
ghost use Rattle.yal_reader.specs.Text.{ascii, begins_with, uncommented, with_text};
ghost use Rattle.read_base.specs.declared.stop.Stop.TheVariants as stops;

use crate::fault::{Flaw, Stop, YalKind};
use std::alloc::Global;

/// Whether these two bytes stand first.
fn begins(first: u8, second: u8, bytes: &[u8]) -> bool
    ensures { result ≡ begins_with first second bytes.now }
{
    bytes.len() >= 2 && bytes[0] == first && bytes[1] == second
}

/// Tests that each byte is ASCII; the first that is not is at fault. Takes no memory.
pub(crate) fn check_ascii(bytes: &[u8]) -> Result<(), Flaw>
    ensures { AnswersAs (λ x. x) Some result (ascii bytes.now) }
{
    let mut rest = bytes;
    while let Some((byte, after)) = rest.split_first() {
        if *byte >= 128 {
            return Err(Flaw {
                kind: YalKind::NotAscii,
                left: rest.len(),
            });
        }
        rest = after;
    }
    Ok(())
}

/// Puts two blanks at the end of a text. The one error is want of memory.
fn push_blanks(text: &mut Vec<u8>) -> Result<(), Stop>
    ensures items { OnOk result (text.new.items ≡ (text.old.items ++ 32 ∷ []) ++ 32 ∷ []) }
    ensures fails { IfErr result (λ stop. stop ≡ stops.Memory) }
{
    text.push(b' ')?;
    text.push(b' ')?;
    Ok(())
}

/// Puts a blank for each byte up to the end of a comment, which began where `left` bytes were left, and gives the text behind it.
fn pass_comment<'a>(text: &mut Vec<u8>, left: usize, bytes: &'a [u8]) -> Result<&'a [u8], Stop>
    ensures passes { IfOk result (λ rest. with_text text.old.items (uncommented (Some left) bytes.entry.now) ≡ with_text text.new.items (uncommented None rest.now)) }
    ensures fails { IfErr result (λ stop. Fails flaw_of stop (uncommented (Some left) bytes.entry.now)) }
    ensures shorter { IfOk result (λ rest. length rest.now ≤ length bytes.entry.now) }
{
    let mut rest = bytes;
    while let Some((_, after)) = rest.split_first() {
        if begins(b'*', b'/', rest) {
            push_blanks(text)?;
            return Ok(rest.split_at(2).1);
        }
        text.push(b' ')?;
        rest = after;
    }
    Err(Stop::At(Flaw {
        kind: YalKind::OpenComment,
        left,
    }))
}

/// The text with each byte of its comments as a blank; or the comment that has no end. Places stay as they are.
pub(crate) fn without_comments(alloc: Global, bytes: &[u8]) -> Result<Vec<u8>, Stop>
    ensures { Answers (λ text. text.items) result (uncommented None bytes.now) }
{
    let mut text = Vec::new(alloc);
    let mut rest = bytes;
    while let Some((byte, after)) = rest.split_first() {
        if begins(b'/', b'*', rest) {
            push_blanks(&mut text)?;
            rest = pass_comment(&mut text, rest.len(), rest.split_at(2).1)?;
            continue;
        }
        text.push(*byte)?;
        rest = after;
    }
    Ok(text)
}
