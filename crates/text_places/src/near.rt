//! The word that was perhaps meant.

use crate::shown::Shown;
use std::alloc::{AllocError, Global};
use strsim::generic_levenshtein;

/// The longest word that is compared with others.
const MOST_COMPARED: usize = 64;

/// How many letters of a word may be wrong.
fn most_wrong(word: &[u8]) -> usize {
    match word.len() {
        0 | 1 => 0,
        2 | 3 => 1,
        _ => 2,
    }
}

/// How many letters of a word differ from another one, where it is perhaps meant: none where only the case of letters does, and else one or two.
pub fn difference(alloc: Global, word: &[u8], other: &[u8]) -> Result<Option<usize>, AllocError> {
    if word.len() > MOST_COMPARED || other.len() > MOST_COMPARED {
        return Ok(None);
    }
    if word.eq_ignore_ascii_case(other) {
        return Ok(Some(0));
    }
    let wrong = generic_levenshtein(alloc, word, other)?;
    if wrong <= most_wrong(word).min(most_wrong(other)) {
        return Ok(Some(wrong));
    }
    Ok(None)
}

/// The first of these words that differs least from a word which perhaps means it.
pub fn nearest<'a>(
    alloc: Global,
    word: &[u8],
    words: &[&'a [u8]],
) -> Result<Option<&'a [u8]>, AllocError> {
    let mut least = MOST_COMPARED;
    let mut found = None;
    for other in words {
        if let Some(wrong) = difference(alloc, word, *other)? {
            if wrong < least {
                least = wrong;
                found = Some(*other);
            }
        }
    }
    Ok(found)
}

/// A question behind a note whether another word was meant, if one of these is near.
pub fn meant(alloc: Global, word: &[u8], words: &[&[u8]]) -> Result<String, AllocError> {
    match nearest(alloc, word, words)? {
        Some(other) => {
            let other = Shown(other);
            format!(in alloc; "; did you mean {other}?")
        }
        None => Ok(String::new(alloc)),
    }
}

/// The same for words that are texts.
pub fn word_meant(alloc: Global, word: &[u8], words: &[&str]) -> Result<String, AllocError> {
    let mut all = Vec::new(alloc);
    for other in words {
        all.push(other.as_bytes())?;
    }
    meant(alloc, word, all.as_slice())
}
