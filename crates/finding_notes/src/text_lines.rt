//! The lines on which the commands of a text of CIF begin.

use std::alloc::{AllocError, Global};

// Where a scan of a text stands.
#[derive(Clone, Copy)]
enum Within {
    // Before a command.
    Between,
    // In a comment, so many parentheses deep.
    Comment(u32),
    // In another command, which ends with a semicolon.
    Command,
    // At or past the end command.
    Past,
}

// Whether a byte is passed over before a command: a blank or a semicolon.
fn is_passed(byte: u8) -> bool {
    !(byte.is_ascii_digit() || byte.is_ascii_uppercase() || matches!(byte, b'-' | b'(' | b')'))
}

// Where a scan stands behind a byte before a command.
fn behind_between(byte: u8) -> Within {
    if is_passed(byte) {
        return Within::Between;
    }
    match byte {
        b'(' => Within::Comment(1),
        b'E' => Within::Past,
        _ => Within::Command,
    }
}

// Where a scan stands behind a byte of a comment.
fn behind_comment(depth: u32, byte: u8) -> Within {
    match byte {
        b'(' => Within::Comment(depth.saturating_add(1)),
        b')' if depth <= 1 => Within::Between,
        b')' => Within::Comment(depth.saturating_sub(1)),
        _ => Within::Comment(depth),
    }
}

// Where a scan stands behind a byte.
fn behind(within: Within, byte: u8) -> Within {
    match within {
        Within::Between => behind_between(byte),
        Within::Comment(depth) => behind_comment(depth, byte),
        Within::Command if byte == b';' => Within::Between,
        Within::Command => Within::Command,
        Within::Past => Within::Past,
    }
}

// Whether a command begins with the byte between these two.
fn begins(before: Within, after: Within) -> bool {
    matches!(before, Within::Between) && !matches!(after, Within::Between)
}

/// For each command of a text the number of the line on which it begins, from 1. The text is meant to have a reading. The one error is want of memory.
pub(crate) fn command_lines(alloc: Global, text: &[u8]) -> Result<Vec<u32>, AllocError> {
    let mut lines = Vec::new(alloc);
    let mut line: u32 = 1;
    let mut within = Within::Between;
    for byte in text {
        let after = behind(within, *byte);
        if begins(within, after) {
            lines.push(line)?;
        }
        if *byte == b'\n' {
            line = line.saturating_add(1);
        }
        within = after;
    }
    Ok(lines)
}
