//! Warnings of keys of a rules file that nobody reads.

use crate::naming::{FileOf, subject_of};
use crate::reached::Reached;
use note_text::{Notes, place_at};
use std::alloc::{AllocError, Global};
use text_places::{FileName, Lines, Shown, Stated, meant, next_unread, words_of};

/// So many keys are told.
const MOST_TOLD: u32 = 20;

// The warning of a key that nobody reads, with the nearest that somebody does.
fn unread_warning(
    alloc: Global,
    name: &str,
    text: &[u8],
    stated: Stated<'_>,
) -> Result<String, AllocError> {
    let file = FileName(name);
    let line = place_at(text, stated.at as u64).line;
    let words = words_of(alloc, stated.section)?;
    let near = meant(alloc, stated.word, words.as_slice())?;
    let word = Shown(stated.word);
    if stated.section.is_empty() {
        return format!(in alloc; "warning: {file}:{line}: nobody reads the key {word}{near}");
    }
    let section = Shown(stated.section);
    format!(in alloc; "warning: {file}:{line}: nobody reads the key {section}.{word}{near}")
}

/// Notes the keys of the rules file that a command has read which nobody reads, the first twenty of them. What memory has no room for is left out.
pub fn note_unread(alloc: Global, notes: &mut Notes, reached: &Reached<'_>) {
    let subject = subject_of(reached, FileOf::Rules);
    let text = subject.text.unwrap_or(&[]);
    let mut lines = Lines::new(text);
    for _ in 0..MOST_TOLD {
        let Some(stated) = next_unread(&mut lines) else {
            return;
        };
        if let Ok(warning) = unread_warning(alloc, subject.name, text, stated) {
            notes.note(warning);
        }
    }
}
