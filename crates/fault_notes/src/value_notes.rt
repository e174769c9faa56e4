//! Notes on values of options, and on numbers in the place of names, that are none.

use crate::box_notes::bad_box;
use choose_core::Style;
use command_words::MOST_TRIES;
use limits::{MOST_DECIMALS, MOST_INSTANCES, MOST_ROWS};
use std::alloc::{AllocError, Global};
use text_places::{Shown, meant};

// The number below 2^64 that a word of one to twenty digits writes.
fn number_in(word: &str) -> Option<u64> {
    let bytes = word.as_bytes();
    if bytes.is_empty() || bytes.len() > 20 {
        return None;
    }
    let mut number: u64 = 0;
    for byte in bytes {
        if !byte.is_ascii_digit() {
            return None;
        }
        let digit = u64::from(byte.saturating_sub(b'0'));
        number = number.checked_mul(10)?.checked_add(digit)?;
    }
    Some(number)
}

// What is wrong with a word that is to be a seed.
fn bad_seed(alloc: Global, name: &str, word: &str) -> Result<Option<String>, AllocError> {
    if number_in(word).is_some() {
        return Ok(None);
    }
    let shown = Shown(word.as_bytes());
    let most = u64::MAX;
    Ok(Some(format!(in alloc; "{name} is {shown}; a number from 0 to {most} is wanted")?))
}

// What is wrong with a word that is to be a number from 1 on.
fn bad_count(
    alloc: Global,
    name: &str,
    word: &str,
    most: u64,
) -> Result<Option<String>, AllocError> {
    if let Some(number) = number_in(word) {
        if 1 <= number && number <= most {
            return Ok(None);
        }
    }
    let shown = Shown(word.as_bytes());
    Ok(Some(format!(in alloc; "{name} is {shown}; a number from 1 to {most} is wanted")?))
}

// The names of styles behind one another.
fn styles_shown(alloc: Global, styles: &[Style]) -> Result<String, AllocError> {
    let mut text = String::new(alloc);
    for style in styles {
        if !text.is_empty() {
            text.push_str(", ")?;
        }
        let name = Shown(style.chooser.name().items());
        let name = format!(in alloc; "{name}")?;
        text.push_str(name.as_str())?;
    }
    Ok(text)
}

// A question whether another style was meant, if there is one whose name is near.
fn style_meant(alloc: Global, styles: &[Style], word: &str) -> Result<String, AllocError> {
    let mut names = Vec::new(alloc);
    for style in styles {
        names.push(style.chooser.name().items())?;
    }
    meant(alloc, word.as_bytes(), names.as_slice())
}

// What is wrong with a word that is to be the name of a style.
fn bad_style(alloc: Global, styles: &[Style], word: &str) -> Result<Option<String>, AllocError> {
    for style in styles {
        if style.chooser.name().items() == word.as_bytes() {
            return Ok(None);
        }
    }
    let shown = Shown(word.as_bytes());
    let names = styles_shown(alloc, styles)?;
    let near = style_meant(alloc, styles, word)?;
    Ok(Some(format!(in alloc; "--style is {shown}; the styles are {names}{near}")?))
}

// What is wrong with a word that is to be a number of decimals.
fn bad_decimals(alloc: Global, word: &str) -> Result<Option<String>, AllocError> {
    if let Some(number) = number_in(word) {
        if number <= u64::from(MOST_DECIMALS) {
            return Ok(None);
        }
    }
    let shown = Shown(word.as_bytes());
    Ok(Some(format!(in alloc;
        "--decimals is {shown}; a number from 0 to {MOST_DECIMALS} is wanted"
    )?))
}

/// What is wrong with the value of an option, or with a word in the place of a number, if anything.
pub(crate) fn bad_value(
    alloc: Global,
    styles: &[Style],
    name: &str,
    word: &str,
) -> Result<Option<String>, AllocError> {
    match name {
        "--seed" | "SEED" => bad_seed(alloc, name, word),
        "--rows" => bad_count(alloc, name, word, u64::from(MOST_ROWS)),
        "--tries" => bad_count(alloc, name, word, u64::from(MOST_TRIES)),
        "N" => bad_count(alloc, name, word, MOST_INSTANCES as u64),
        "--style" => bad_style(alloc, styles, word),
        "--box" => bad_box(alloc, word),
        "--decimals" => bad_decimals(alloc, word),
        _ => Ok(None),
    }
}
