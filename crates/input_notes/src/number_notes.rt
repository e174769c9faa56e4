//! Notes on a word of a YAL text that stands where a number is wanted.

use crate::yal_notes::token_shown;
use limits::{MOST_COORDINATE, MOST_DECIMALS};
use std::alloc::{AllocError, Global};
use text_places::{Found, Part, Shown, Token, are_on_two_lines, from_byte};
use yal_reader::Numbers;

/// What says how the numbers of a text are written: the rules, if they were read, or an option with so many decimals.
#[derive(Clone, Copy)]
pub enum NumbersBy {
    Rules(Option<Numbers>),
    Decimals(u32),
}

// A word without its sign.
fn without_sign(word: &[u8]) -> &[u8] {
    word.strip_prefix(b"-").unwrap_or(word)
}

// Whether a word has digits alone, perhaps behind a sign.
fn is_whole(word: &[u8]) -> bool {
    let digits = without_sign(word);
    !digits.is_empty() && digits.iter().all(|byte| byte.is_ascii_digit())
}

// Whether a word has digits and one point between them, perhaps behind a sign.
fn is_pointed(word: &[u8]) -> bool {
    let text = without_sign(word);
    let mut points = 0u8;
    for byte in text {
        if *byte == b'.' {
            points = points.saturating_add(1);
        } else if !byte.is_ascii_digit() {
            return false;
        }
    }
    points == 1 && !text.starts_with(b".") && !text.ends_with(b".")
}

// Which number of a statement is wanted behind so many words.
fn number_wanted(found: &Found<'_>) -> &'static str {
    if found.before.part != Part::IoList {
        return "a number of DIMENSIONS";
    }
    if found.before.words == 2 { "X" } else { "Y" }
}

// Whether a word may well begin the next statement.
fn is_next(text: &[u8], last: Option<Token<'_>>, token: Token<'_>) -> bool {
    match last {
        Some(last) => {
            let first = token.text.first().copied().unwrap_or(b'0');
            first.is_ascii_alphabetic() && are_on_two_lines(text, last, token)
        }
        None => false,
    }
}

// How many digits behind the point of a word count: those up to the last that is not 0.
fn places_of(word: &[u8]) -> usize {
    let whole = word.iter().take_while(|byte| **byte != b'.').count();
    let fraction = from_byte(word, whole.saturating_add(1));
    let mut places = 0;
    for (i, byte) in fraction.iter().enumerate() {
        if *byte != b'0' {
            places = i.saturating_add(1);
        }
    }
    places
}

// A number that is too great.
fn too_far(alloc: Global, word: Shown<'_>) -> Result<String, AllocError> {
    format!(in alloc;
        "{word} is too far; numbers are from -{MOST_COORDINATE} to {MOST_COORDINATE} units"
    )
}

// A number with a point.
fn pointed(alloc: Global, word: Shown<'_>, numbers: NumbersBy) -> Result<String, AllocError> {
    let places = places_of(word.0) as u64;
    match numbers {
        NumbersBy::Rules(Some(Numbers::Decimal(decimals))) => {
            if places > u64::from(decimals) {
                return format!(in alloc;
                    "{word} has more decimals than the rules allow, decimals = {decimals}"
                );
            }
            too_far(alloc, word)
        }
        NumbersBy::Rules(_) => {
            format!(in alloc;
                "{word} has a point, and under version = 1 of the rules numbers are whole; with version = 2 and decimals = 1 to 4 they may have one"
            )
        }
        NumbersBy::Decimals(decimals) => {
            if places > u64::from(decimals) {
                return format!(in alloc;
                    "{word} has more decimals than --decimals {decimals}; up to {MOST_DECIMALS} may be asked for"
                );
            }
            too_far(alloc, word)
        }
    }
}

/// What is wrong with a word that is no number where one is wanted.
pub(crate) fn bad_number(
    alloc: Global,
    text: &[u8],
    found: &Found<'_>,
    numbers: NumbersBy,
) -> Result<String, AllocError> {
    let word = token_shown(found.token);
    let wanted = number_wanted(found);
    let Some(token) = found.token else {
        return format!(in alloc; "{wanted} is wanted here");
    };
    let last = token_shown(found.before.last);
    if is_next(text, found.before.last, token) {
        return format!(in alloc;
            "{word} is no number, and {wanted} is wanted here; a ; is perhaps missing behind {last}"
        );
    }
    if is_pointed(token.text) {
        return pointed(alloc, word, numbers);
    }
    if is_whole(token.text) {
        return too_far(alloc, word);
    }
    format!(in alloc;
        "{word} is no number, and {wanted} is wanted here: digits, perhaps behind a -"
    )
}
