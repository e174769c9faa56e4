//! Lengths and names as people write them.

use note_text::push_shown;
use std::alloc::{AllocError, Global};

/// Bytes as people are shown them.
pub(crate) fn shown(alloc: Global, bytes: &[u8]) -> Result<String, AllocError> {
    let mut text = String::new(alloc);
    push_shown(&mut text, bytes)?;
    Ok(text)
}

/// A length of centimicrons in microns, with as few decimals as are exact, and one at least.
pub(crate) fn microns(alloc: Global, length: u64) -> Result<String, AllocError> {
    let whole = length / 100;
    let hundredths = length % 100;
    if hundredths % 10 == 0 {
        let tenths = hundredths / 10;
        return format!(in alloc; "{whole}.{tenths}");
    }
    format!(in alloc; "{whole}.{hundredths:02}")
}

/// How many hundredths a part is of a whole, with one decimal, rounded down; of nothing it is none.
pub(crate) fn percent(alloc: Global, part: u64, whole: u64) -> Result<String, AllocError> {
    let thousandths = part.checked_div(whole / 1000).unwrap_or(0);
    let percent = thousandths / 10;
    let tenths = thousandths % 10;
    format!(in alloc; "{percent}.{tenths}")
}
