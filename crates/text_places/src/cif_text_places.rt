//! The commands of a text in CIF with their places, as far as any text has them.

use crate::yal_tokens::from_byte;

/// A command of a text, and the number of its first byte.
#[derive(Clone, Copy)]
pub struct CommandText<'a> {
    pub at: usize,
    pub text: &'a [u8],
}

// Whether a byte may stand between commands.
fn is_between(byte: u8) -> bool {
    !(byte.is_ascii_digit() || byte.is_ascii_uppercase() || matches!(byte, b'-' | b'(' | b')'))
}

// How many bytes a comment has, of which these are the bytes from its first one on.
fn comment_len(rest: &[u8]) -> usize {
    let mut open: usize = 0;
    for (i, byte) in rest.iter().enumerate() {
        if *byte == b'(' {
            open = open.saturating_add(1);
        }
        if *byte == b')' {
            open = open.saturating_sub(1);
            if open == 0 {
                return i.saturating_add(1);
            }
        }
    }
    rest.len()
}

// How many bytes stand before the first semicolon.
fn body_len(rest: &[u8]) -> usize {
    rest.iter().take_while(|byte| **byte != b';').count()
}

// How many bytes the command has that stands first, with its semicolon.
fn command_len(rest: &[u8]) -> usize {
    if rest.starts_with(b"E") {
        return 1;
    }
    let comment = if rest.starts_with(b"(") {
        comment_len(rest)
    } else {
        0
    };
    let more = body_len(from_byte(rest, comment)).saturating_add(1);
    comment.saturating_add(more)
}

/// The command that comes next from a byte on.
pub fn next_command(text: &[u8], from: usize) -> Option<CommandText<'_>> {
    let rest = from_byte(text, from);
    let blanks = rest.iter().take_while(|byte| is_between(**byte)).count();
    let at = from.saturating_add(blanks);
    let rest = from_byte(text, at);
    if rest.is_empty() {
        return None;
    }
    Some(CommandText {
        at,
        text: rest.get(..command_len(rest)).unwrap_or(rest),
    })
}

/// The command of this number, from 0 on.
pub fn command_at(text: &[u8], number: u32) -> Option<CommandText<'_>> {
    let mut from = 0;
    for _ in 0..number {
        let command = next_command(text, from)?;
        from = command.at.saturating_add(command.text.len());
    }
    next_command(text, from)
}
