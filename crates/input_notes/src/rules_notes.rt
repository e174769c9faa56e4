//! Notes on a rules file that states no rules.

use crate::tight_notes::told_of_tight;
use command_ends::Refusal;
use limits::{
    MOST_DECIMALS, MOST_LENGTH, MOST_MOVES, MOST_STAGES, MOST_TEMPERATURE, MOST_WEIGHT, MOST_WORD,
};
use std::alloc::{AllocError, Global};
use tech_rules::Key;
use text_places::{
    Shown, Told, line_of_key, misplaced, near_key, near_table, place_of_table, section_of,
};

// What is wanted as the value of a key.
fn wanted(alloc: Global, key: Key) -> Result<String, AllocError> {
    let (low, high) = match key {
        Key::Version => return format!(in alloc; "1 or 2 is wanted"),
        Key::Yal => {
            return format!(in alloc;
                "1 to {MOST_WORD} letters, digits or _ in quotes are wanted, as \"POLY\""
            );
        }
        Key::HorizontalLayer | Key::VerticalLayer | Key::CutLayer | Key::OutlineLayer => {
            return format!(in alloc;
                "1 to 4 digits or upper-case letters in quotes are wanted, as \"NM\""
            );
        }
        Key::AnnealStart => return format!(in alloc; "\"width\" or \"count\" is wanted"),
        Key::Decimals => (0, MOST_DECIMALS),
        Key::GridColumn | Key::GridTrack => (2, MOST_LENGTH),
        Key::GridCenti => (4, MOST_LENGTH),
        Key::CutEnclose => (0, MOST_LENGTH),
        Key::AnnealTemperature => (1, MOST_TEMPERATURE),
        Key::AnnealStages => (0, MOST_STAGES),
        Key::AnnealMoves => (0, MOST_MOVES),
        Key::AnnealRowCost | Key::AnnealLengthCost => (0, MOST_WEIGHT),
        _ => (1, MOST_LENGTH),
    };
    format!(in alloc; "a whole number from {low} to {high} is wanted")
}

// Whether a text looks like a design in YAL.
fn is_like_design(text: &[u8]) -> bool {
    let text = text.trim_ascii_start();
    text.starts_with(b"MODULE") || text.starts_with(b"/*")
}

// A text that is no TOML.
fn no_toml(alloc: Global, text: &[u8], words: &str) -> Result<Told, AllocError> {
    if is_like_design(text) {
        return Ok(Told::whole(format!(in alloc;
            "this looks like a design, and rules are wanted; the words are {words}"
        )?));
    }
    let Ok(letters) = str::from_utf8(text) else {
        return Ok(Told::whole(format!(in alloc; "the text is not in UTF-8, and so no TOML")?));
    };
    match toml::table_from_str(alloc, letters) {
        Ok(_) => Ok(Told::whole(format!(in alloc; "the text is no TOML")?)),
        Err(error) => {
            let why = error.message();
            let what = format!(in alloc; "the text is no TOML: {why}")?;
            let place = match error.span() {
                Some(span) => Some(span.start),
                None => None,
            };
            Ok(Told::perhaps_at(place, what))
        }
    }
}

// A key that is missing in a table that is there, or that stands before all tables.
fn missing_here(alloc: Global, text: &[u8], key: Key) -> Result<Told, AllocError> {
    let name = key.name();
    let word = key.word();
    if let Some(near) = near_key(alloc, text, key)? {
        let other = Shown(near.word);
        let what = format!(in alloc; "{name} is missing; did you mean {word} by {other}?")?;
        return Ok(Told::in_line(Some(near.at), what));
    }
    let wanted = wanted(alloc, key)?;
    if key.section().is_some() {
        let section = section_of(key);
        let what = format!(in alloc;
            "{name} is missing: a line {word} = .. in the table [{section}]; {wanted}"
        )?;
        return Ok(Told::in_line(place_of_table(text, section), what));
    }
    let what = match key {
        Key::Decimals => {
            format!(in alloc;
                "{name} is missing, which version = 2 wants: a line {word} = .. before the first table; {wanted}"
            )?
        }
        _ => format!(in alloc;
            "{name} is missing: a line {word} = .. before the first table; {wanted}"
        )?,
    };
    Ok(Told::whole(what))
}

// A key that is missing.
fn missing(alloc: Global, text: &[u8], key: Key) -> Result<Told, AllocError> {
    let name = key.name();
    if let Some(other) = misplaced(text, key) {
        let section = Shown(other.section);
        let what = match key.section() {
            Some(wanted) => {
                format!(in alloc;
                    "{name} is missing; this line stands before all tables, and has to stand in the table [{wanted}]"
                )?
            }
            None => {
                format!(in alloc;
                    "{name} is missing; this line stands in the table [{section}], and has to stand before the first table"
                )?
            }
        };
        return Ok(Told::in_line(Some(other.at), what));
    }
    let section = section_of(key);
    if section.is_empty() || place_of_table(text, section).is_some() {
        return missing_here(alloc, text, key);
    }
    if let Some(near) = near_table(alloc, text, section)? {
        let other = Shown(near.section);
        let what = format!(in alloc;
            "{name} is missing, as is the table [{section}]; did you mean it by [{other}]?"
        )?;
        return Ok(Told::in_line(Some(near.at), what));
    }
    let what = format!(in alloc; "{name} is missing, as is its table [{section}]")?;
    Ok(Told::whole(what))
}

// A value that is not in its range.
fn out_of_range(alloc: Global, text: &[u8], key: Key) -> Result<Told, AllocError> {
    let name = key.name();
    let wanted = wanted(alloc, key)?;
    match line_of_key(text, key) {
        Some(stated) => {
            let value = Shown(stated.value);
            let what = format!(in alloc; "{name} is {value}; {wanted}")?;
            Ok(Told::in_line(Some(stated.at), what))
        }
        None => {
            let what = format!(in alloc; "{name} is out of its range; {wanted}")?;
            Ok(Told::whole(what))
        }
    }
}

/// What is wrong with a rules file, where the command's words are these.
pub fn told_of_rules(
    alloc: Global,
    text: &[u8],
    refusal: &Refusal,
    words: &str,
) -> Result<Told, AllocError> {
    match refusal {
        Refusal::Toml => no_toml(alloc, text, words),
        Refusal::Missing(key) => missing(alloc, text, *key),
        Refusal::Range(key) => out_of_range(alloc, text, *key),
        Refusal::Tight(rule) => told_of_tight(alloc, text, *rule),
        _ => Ok(Told::whole(format!(in alloc; "the rules are refused")?)),
    }
}
