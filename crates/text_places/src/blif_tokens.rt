//! The words and the ends of lines of a netlist's text in BLIF with their places, as far as any text has them.

use crate::yal_tokens::{Token, from_byte};

impl<'a> Token<'a> {
    /// Whether it is the end of a line.
    pub fn is_feed(self) -> bool {
        self.text == b"\n".as_slice()
    }

    /// Whether it is this directive, written so.
    pub fn is_directive(self, directive: &str) -> bool {
        self.text == directive.as_bytes()
    }
}

// Whether a line ends here.
fn ends_line(rest: &[u8]) -> bool {
    rest.starts_with(b"\n") || rest.starts_with(b"\r\n")
}

// Whether a line ends here that goes on in the next one.
fn is_continued(rest: &[u8]) -> bool {
    rest.starts_with(b"\\") && ends_line(from_byte(rest, 1))
}

// Whether a word ends before these bytes.
fn ends_word(rest: &[u8]) -> bool {
    matches!(rest.first(), Some(b' ' | b'\t' | b'#')) || ends_line(rest) || is_continued(rest)
}

// The number of the first byte from one on that is no blank, stands in no comment and continues no line.
fn past_blanks(text: &[u8], from: usize) -> usize {
    let rest = from_byte(text, from);
    let mut comment = false;
    let mut continued = false;
    for (i, byte) in rest.iter().enumerate() {
        if *byte == b'\n' && !continued {
            return from.saturating_add(i);
        }
        if comment || continued {
            continued = continued && *byte != b'\n';
            continue;
        }
        let here = from_byte(rest, i);
        comment = *byte == b'#';
        continued = is_continued(here);
        if !ends_word(here) {
            return from.saturating_add(i);
        }
    }
    text.len()
}

// How many bytes the word has that stands first.
fn word_len(rest: &[u8]) -> usize {
    for (i, _) in rest.iter().enumerate() {
        if ends_word(from_byte(rest, i)) {
            return i;
        }
    }
    rest.len()
}

/// The word or the end of a line that comes next in a netlist's text from a byte on.
pub fn next_blif_token(text: &[u8], from: usize) -> Option<Token<'_>> {
    let at = past_blanks(text, from);
    let rest = from_byte(text, at);
    let first = rest.first()?;
    let len = if *first == b'\n' { 1 } else { word_len(rest) };
    Some(Token {
        at,
        text: rest.get(..len)?,
    })
}

/// What is known before a byte of a netlist's text: the first word of its line before it, how many words of the line stand before it, the last word before it,
/// and the first word of the last line before that has words.
#[derive(Clone, Copy)]
pub struct BlifWalk<'a> {
    pub first: Option<Token<'a>>,
    pub words: usize,
    pub last: Option<Token<'a>>,
    pub before: Option<Token<'a>>,
}

impl<'a> BlifWalk<'a> {
    // Behind one more word or end of a line.
    fn behind(self, token: Token<'a>) -> BlifWalk<'a> {
        if token.is_feed() {
            return BlifWalk {
                first: None,
                words: 0,
                before: self.first.or(self.before),
                ..self
            };
        }
        BlifWalk {
            first: self.first.or(Some(token)),
            words: self.words.saturating_add(1),
            last: Some(token),
            ..self
        }
    }
}

/// What is known before a byte of a netlist's text.
pub fn blif_walk(text: &[u8], at: u64) -> BlifWalk<'_> {
    let mut walk = BlifWalk {
        first: None,
        words: 0,
        last: None,
        before: None,
    };
    let mut from = 0;
    for _ in 0..text.len() {
        let Some(token) = next_blif_token(text, from) else {
            return walk;
        };
        if token.at as u64 >= at {
            return walk;
        }
        walk = walk.behind(token);
        from = token.end();
    }
    walk
}

/// The first word of a netlist's text.
pub fn first_blif_word(text: &[u8]) -> Option<Token<'_>> {
    let mut from = 0;
    for _ in 0..text.len() {
        let token = next_blif_token(text, from)?;
        if !token.is_feed() {
            return Some(token);
        }
        from = token.end();
    }
    None
}

/// The place of the first word of a netlist's text that is this directive.
pub fn place_of_directive(text: &[u8], directive: &str) -> Option<usize> {
    let mut from = 0;
    for _ in 0..text.len() {
        let token = next_blif_token(text, from)?;
        if token.is_directive(directive) {
            return Some(token.at);
        }
        from = token.end();
    }
    None
}
