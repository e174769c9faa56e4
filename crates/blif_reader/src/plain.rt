//! Comments and continued lines turned into blanks, and the test of the bytes outside comments.

ghost use Rattle.blif_reader.specs.Text.{after_line, begins, cleaned, ends_line, fitting, is_break, line_byte, may_stand, opens_comment, shown, within_after};
ghost use Rattle.read_base.specs.Answers.{AnswersAs};
ghost use Rattle.std.specs.Prelude.{◌≡◌, IfOk};

use crate::fault::{BlifKind, Flaw};
use std::alloc::{AllocError, Global};

/// Where a text stands: in a line, in a comment, or at the end of a line that is continued.
#[derive(Clone, Copy, Debug, PartialEq, Eq)]
pub(crate) enum Within {
    Line,
    Comment,
    Break,
}

/// Whether this byte stands first.
fn begins(byte: u8, bytes: &[u8]) -> bool
    ensures { result ≡ begins byte bytes.now }
{
    !bytes.is_empty() && bytes[0] == byte
}

/// Whether a line ends here.
fn ends_line(bytes: &[u8]) -> bool
    ensures { result ≡ ends_line bytes.now }
{
    let Some((byte, after)) = bytes.split_first() else {
        return false;
    };
    *byte == b'\n' || (*byte == b'\r' && begins(b'\n', after))
}

/// Whether this byte is a backslash at the end of a line.
fn is_break(byte: u8, after: &[u8]) -> bool
    ensures { result ≡ is_break byte after.now }
{
    byte == b'\\' && ends_line(after)
}

/// A byte of a line as it is read.
fn line_byte(byte: u8, after: &[u8]) -> u8
    ensures { result ≡ line_byte byte after.now }
{
    if byte == b'#' {
        return b' ';
    }
    if is_break(byte, after) {
        return b' ';
    }
    if byte == b'\r' && begins(b'\n', after) {
        return b' ';
    }
    byte
}

/// A byte as it is read.
fn shown(within: Within, byte: u8, after: &[u8]) -> u8
    ensures { result ≡ shown within byte after.now }
{
    match within {
        Within::Line => line_byte(byte, after),
        Within::Comment => { if byte == b'\n' { b'\n' } else { b' ' } }
        Within::Break => b' ',
    }
}

/// Where the text stands behind a byte of a line.
fn after_line(byte: u8, after: &[u8]) -> Within
    ensures { result ≡ after_line byte after.now }
{
    if byte == b'#' {
        return Within::Comment;
    }
    if is_break(byte, after) {
        return Within::Break;
    }
    Within::Line
}

/// Where the text stands behind a byte.
fn within_after(within: Within, byte: u8, after: &[u8]) -> Within
    ensures { result ≡ within_after within byte after.now }
{
    match within {
        Within::Line => after_line(byte, after),
        Within::Comment => {
            if byte == b'\n' {
                Within::Line
            } else {
                Within::Comment
            }
        }
        Within::Break => {
            if byte == b'\n' {
                Within::Line
            } else {
                Within::Break
            }
        }
    }
}

/// The text with blanks for its comments and for the ends of lines that are continued. Places stay as they are. The one error is want of memory.
pub(crate) fn without_comments(alloc: Global, bytes: &[u8]) -> Result<Vec<u8>, AllocError>
    ensures { IfOk result (λ text. text.items ≡ cleaned Within.Line bytes.now) }
{
    let mut text = Vec::new(alloc);
    let mut within = Within::Line;
    let mut rest = bytes;
    while let Some((byte, after)) = rest.split_first() {
        text.push(shown(within, *byte, after))?;
        within = within_after(within, *byte, after);
        rest = after;
    }
    Ok(text)
}

/// Whether a byte may stand outside comments.
fn may_stand(byte: u8) -> bool
    ensures { result ≡ may_stand byte }
{
    byte == b'\t' || byte == b'\n' || byte == b' ' || (byte >= 33 && byte <= 126 && byte != b';')
}

/// Whether a `/` stands before a `*`.
fn opens_comment(byte: u8, after: &[u8]) -> bool
    ensures { result ≡ opens_comment byte after.now }
{
    byte == b'/' && begins(b'*', after)
}

/// Tests that each byte may stand; the first that may not is at fault. Takes no memory.
pub(crate) fn check_bytes(bytes: &[u8]) -> Result<(), Flaw>
    ensures { AnswersAs (λ x. x) Some result (fitting bytes.now) }
{
    let mut rest = bytes;
    while let Some((byte, after)) = rest.split_first() {
        if !may_stand(*byte) || opens_comment(*byte, after) {
            return Err(Flaw {
                kind: BlifKind::Byte,
                left: rest.len(),
            });
        }
        rest = after;
    }
    Ok(())
}
