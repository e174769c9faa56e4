//! Lines of a rules file that state keys which nobody reads.

use crate::rules_text::{Lines, Stated, section_of};
use std::alloc::{AllocError, Global};
use tech_rules::Key;

/// The keys of rules, in their order.
const KEYS: [Key; 24] = [
    Key::Version,
    Key::Yal,
    Key::Decimals,
    Key::GridColumn,
    Key::GridTrack,
    Key::GridCenti,
    Key::GridPin,
    Key::HorizontalLayer,
    Key::HorizontalWidth,
    Key::HorizontalSpace,
    Key::VerticalLayer,
    Key::VerticalWidth,
    Key::VerticalSpace,
    Key::CutLayer,
    Key::CutSize,
    Key::CutEnclose,
    Key::CutSpace,
    Key::OutlineLayer,
    Key::AnnealTemperature,
    Key::AnnealStages,
    Key::AnnealMoves,
    Key::AnnealRowCost,
    Key::AnnealLengthCost,
    Key::AnnealStart,
];

// Whether a line states a key that is read, or a table.
fn is_read(stated: Stated<'_>) -> bool {
    stated.word.is_empty() || KEYS.iter().any(|key| stated.is(*key))
}

/// The next line that states a key which nobody reads.
pub fn next_unread<'a>(lines: &mut Lines<'a>) -> Option<Stated<'a>> {
    for _ in 0..lines.len() {
        let stated = lines.next_stated()?;
        if !is_read(stated) {
            return Some(stated);
        }
    }
    None
}

/// The words of the keys of a table, by its name, behind one another. The one error is want of memory.
pub fn words_of(alloc: Global, section: &[u8]) -> Result<Vec<&'static [u8]>, AllocError> {
    let mut words = Vec::new(alloc);
    for key in KEYS {
        if section_of(key).as_bytes() == section {
            words.push(key.word().as_bytes())?;
        }
    }
    Ok(words)
}
