//! Notes on a box that is none.

use std::alloc::{AllocError, Global};
use text_places::Shown;

/// The greatest size of a length, in microns and in hundredths of a micron.
const MOST_MICRONS: i64 = 10_000_000;

const MOST_HUNDREDTHS: i64 = 1_000_000_000;

// Whether digits stand here alone, one or more.
fn are_digits(text: &[u8]) -> bool {
    !text.is_empty() && text.iter().all(|byte| byte.is_ascii_digit())
}

// The number that digits write, or the greatest one where it is greater.
fn number_of(digits: &[u8]) -> i64 {
    let mut number: i64 = 0;
    for byte in digits {
        let digit = i64::from(byte.saturating_sub(b'0'));
        number = number.saturating_mul(10).saturating_add(digit);
    }
    number
}

// The hundredths of a micron that a length without its sign writes.
fn size_of(text: &str) -> Option<i64> {
    let (whole, fraction) = match text.split_once('.') {
        Some((whole, fraction)) => (whole.as_bytes(), fraction.as_bytes()),
        None => (text.as_bytes(), b"00".as_slice()),
    };
    if !are_digits(whole) || !are_digits(fraction) || fraction.len() > 2 {
        return None;
    }
    let step = if fraction.len() == 1 { 10 } else { 1 };
    let behind = number_of(fraction).saturating_mul(step);
    Some(number_of(whole).saturating_mul(100).saturating_add(behind))
}

// The hundredths of a micron that a length writes.
fn length_of(text: &str) -> Option<i64> {
    match text.strip_prefix("-") {
        Some(size) => Some(0i64.saturating_sub(size_of(size)?)),
        None => size_of(text),
    }
}

// What is wrong with one of the lengths of a box.
fn bad_length(alloc: Global, text: &str) -> Result<Option<String>, AllocError> {
    let shown = Shown(text.as_bytes());
    let Some(length) = length_of(text) else {
        return Ok(Some(format!(in alloc;
            "--box has {shown}, which is no length in microns: digits, perhaps behind a -, and behind them perhaps a point and one or two digits"
        )?));
    };
    if length > MOST_HUNDREDTHS || length < -MOST_HUNDREDTHS {
        return Ok(Some(format!(in alloc;
            "--box has {shown}, which is too far; lengths are from -{MOST_MICRONS} to {MOST_MICRONS} microns"
        )?));
    }
    Ok(None)
}

/// What is wrong with a word that is to be a box, if anything.
pub(crate) fn bad_box(alloc: Global, word: &str) -> Result<Option<String>, AllocError> {
    let mut lengths = [0i64; 4];
    let mut count: usize = 0;
    for text in word.split(',') {
        if text.is_empty() {
            count = 0;
            break;
        }
        if let Some(wrong) = bad_length(alloc, text)? {
            return Ok(Some(wrong));
        }
        if let (Some(place), Some(length)) = (lengths.get_mut(count), length_of(text)) {
            *place = length;
        }
        count = count.saturating_add(1);
    }
    let shown = Shown(word.as_bytes());
    if count != 4 {
        return Ok(Some(format!(in alloc;
            "--box is {shown}; four lengths in microns with commas between them are wanted, X0,Y0,X1,Y1"
        )?));
    }
    let [x0, y0, x1, y1] = lengths;
    if x0 >= x1 || y0 >= y1 {
        return Ok(Some(format!(in alloc;
            "--box is {shown}; X0 has to be below X1, and Y0 below Y1"
        )?));
    }
    Ok(None)
}
