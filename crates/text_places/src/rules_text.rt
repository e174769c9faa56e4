//! The lines of a rules file that state tables and keys, as far as any text has them.

use crate::near::difference;
use crate::yal_tokens::from_byte;
use std::alloc::{AllocError, Global};
use tech_rules::Key;

/// A line that states a key, or a table, which then has no word: the number of the first byte that is no blank, the table, the key's word in it, and the
/// value as it stands there.
#[derive(Clone, Copy)]
pub struct Stated<'a> {
    pub at: usize,
    pub section: &'a [u8],
    pub word: &'a [u8],
    pub value: &'a [u8],
}

impl<'a> Stated<'a> {
    /// Whether it is the line of a key.
    pub fn is(self, key: Key) -> bool {
        if self.section.is_empty() && self.word == key.name().as_bytes() {
            return true;
        }
        self.word == key.word().as_bytes() && self.is_below(key)
    }

    // Whether it stands in the table of a key.
    fn is_below(self, key: Key) -> bool {
        self.section == section_of(key).as_bytes()
    }
}

/// The table of a key, or an empty word where it has none.
pub fn section_of(key: Key) -> &'static str {
    key.section().unwrap_or("")
}

/// The lines of a rules file from a byte on, and the table that they stand in.
#[derive(Drop)]
pub struct Lines<'a> {
    text: &'a [u8],
    from: usize,
    section: &'a [u8],
}

// The bytes before the first of these bytes.
fn before(text: &[u8], byte: u8) -> &[u8] {
    let count = text.iter().take_while(|other| **other != byte).count();
    text.get(..count).unwrap_or(text)
}

// A value without the comment behind it.
fn value_in(text: &[u8]) -> &[u8] {
    let text = text.trim_ascii();
    if text.starts_with(b"\"") {
        let inner = before(text.get(1..).unwrap_or(&[]), b'"').len();
        return text.get(..inner.saturating_add(2)).unwrap_or(text);
    }
    before(text, b'#').trim_ascii_end()
}

impl<'a> Lines<'a> {
    /// All lines of a text.
    pub fn new(text: &'a [u8]) -> Lines<'a> {
        Lines {
            text,
            from: 0,
            section: &[],
        }
    }

    /// How many bytes the text has.
    pub fn len(&self) -> usize {
        self.text.len()
    }

    // What a line states, if anything.
    fn stated(&mut self, line: &'a [u8], at: usize) -> Option<Stated<'a>> {
        let bare = line.trim_ascii_start();
        let at = at.saturating_add(line.len().saturating_sub(bare.len()));
        if let Some(inner) = bare.strip_prefix(b"[") {
            self.section = before(inner, b']').trim_ascii();
            return Some(Stated {
                at,
                section: self.section,
                word: &[],
                value: &[],
            });
        }
        let word = before(bare, b'=');
        if bare.starts_with(b"#") || word.len() == bare.len() {
            return None;
        }
        let value = bare.get(word.len().saturating_add(1)..).unwrap_or(&[]);
        Some(Stated {
            at,
            section: self.section,
            word: word.trim_ascii(),
            value: value_in(value),
        })
    }

    /// The next line that states something.
    pub fn next_stated(&mut self) -> Option<Stated<'a>> {
        for _ in 0..self.text.len() {
            let at = self.from;
            if at >= self.text.len() {
                return None;
            }
            let line = before(from_byte(self.text, at), b'\n');
            self.from = at.saturating_add(line.len()).saturating_add(1);
            let stated = self.stated(line, at);
            if stated.is_some() {
                return stated;
            }
        }
        None
    }
}

/// The line of a key.
pub fn line_of_key<'a>(text: &'a [u8], key: Key) -> Option<Stated<'a>> {
    let mut lines = Lines::new(text);
    for _ in 0..text.len() {
        let stated = lines.next_stated()?;
        if stated.is(key) {
            return Some(stated);
        }
    }
    None
}

/// Where the line of a key stands.
pub fn place_of_key(text: &[u8], key: Key) -> Option<usize> {
    match line_of_key(text, key) {
        Some(stated) => Some(stated.at),
        None => None,
    }
}

/// The first line of a key in another table, or before all tables.
pub fn misplaced<'a>(text: &'a [u8], key: Key) -> Option<Stated<'a>> {
    let mut lines = Lines::new(text);
    for _ in 0..text.len() {
        let stated = lines.next_stated()?;
        let alone = key.section().is_none() || stated.section.is_empty();
        if alone && stated.word == key.word().as_bytes() {
            return Some(stated);
        }
    }
    None
}

/// The first line of a key in the same table whose word is near that of this one.
pub fn near_key<'a>(
    alloc: Global,
    text: &'a [u8],
    key: Key,
) -> Result<Option<Stated<'a>>, AllocError> {
    let mut lines = Lines::new(text);
    for _ in 0..text.len() {
        let Some(stated) = lines.next_stated() else {
            return Ok(None);
        };
        if stated.is_below(key)
            && !stated.word.is_empty()
            && difference(alloc, key.word().as_bytes(), stated.word)?.is_some()
        {
            return Ok(Some(stated));
        }
    }
    Ok(None)
}

/// Where the table of this name stands.
pub fn place_of_table(text: &[u8], section: &str) -> Option<usize> {
    let mut lines = Lines::new(text);
    for _ in 0..text.len() {
        let stated = lines.next_stated()?;
        if stated.word.is_empty() && stated.section == section.as_bytes() {
            return Some(stated.at);
        }
    }
    None
}

/// The first table whose name is near this one.
pub fn near_table<'a>(
    alloc: Global,
    text: &'a [u8],
    section: &str,
) -> Result<Option<Stated<'a>>, AllocError> {
    let mut lines = Lines::new(text);
    for _ in 0..text.len() {
        let Some(stated) = lines.next_stated() else {
            return Ok(None);
        };
        if stated.word.is_empty()
            && difference(alloc, section.as_bytes(), stated.section)?.is_some()
        {
            return Ok(Some(stated));
        }
    }
    Ok(None)
}
