//! Notes on a layout's file that gives no layout.

use cif_reader::ExpandKind;
use cif_text::CifKind;
use limits::{DEEPEST, FARTHEST, MOST_NUMBER, MOST_SHAPES};
use note_text::place_at;
use std::alloc::{AllocError, Global};
use text_places::{Shown, Told, command_at, from_byte, next_command};

// The form of the command that begins with this byte.
fn form_of(first: u8) -> &'static str {
    match first {
        b'B' => "a box is B LENGTH WIDTH X Y;, its length and width above 0",
        b'W' => "a wire is W WIDTH X Y X Y ..;, its width above 0",
        b'P' => "a polygon is P X Y X Y X Y ..;, with three points or more",
        b'L' => "a layer is L NAME;, with 1 to 4 digits or upper-case letters",
        b'D' => "a definition begins DS N A B; and ends DF;, and none stands inside another",
        b'C' => "a call is C N;, with steps T X Y, M X, M Y or R A B before the ;",
        b'(' => "behind the ) of a comment a ; is wanted",
        b'0'..=b'9' => "a name is 9 NAME; or 91 NAME;, and may not be empty",
        _ => "commands begin with B, W, P, L, DS, DF, C, E, a digit or (",
    }
}

// A command that has none of the forms.
fn bad_command(alloc: Global, text: &[u8], at: usize, words: &str) -> Result<String, AllocError> {
    if text.starts_with(b"MODULE") {
        return format!(in alloc;
            "this looks like a design, and a layout in CIF is wanted; the words are {words}"
        );
    }
    let command = match next_command(text, at) {
        Some(command) => command.text,
        None => &[],
    };
    let form = form_of(command.first().copied().unwrap_or(b' '));
    let command = Shown(command);
    format!(in alloc; "{command} is no command of CIF; {form}")
}

// A text without its end.
fn no_end(alloc: Global, text: &[u8], at: usize) -> Result<String, AllocError> {
    if at < text.len() {
        return format!(in alloc; "E stands inside a definition; DF; is missing before it");
    }
    format!(in alloc; "the text ends before its end command E, or before the ; of a command")
}

// A command that is not read.
fn left_out(alloc: Global, letter: u8) -> Result<String, AllocError> {
    if letter == b'R' {
        return format!(in alloc;
            "R draws a round flash, which is not read; boxes (B), wires (W) and polygons (P) are"
        );
    }
    format!(in alloc; "DD deletes definitions, which is not read")
}

/// What is wrong with a text that is no CIF, for this reason at this byte, where the command's words are these.
pub(crate) fn told_of_text(
    alloc: Global,
    text: &[u8],
    kind: CifKind,
    at: u64,
    words: &str,
) -> Result<Told, AllocError> {
    let at = at as usize;
    let what = match kind {
        CifKind::NotAscii => {
            let byte = text.get(at).copied().unwrap_or(0);
            format!(in alloc; "byte {byte} is no ASCII character; a layout has ASCII alone")?
        }
        CifKind::Unclosed => {
            format!(in alloc; "a comment begins here and has no end: ) is missing")?
        }
        CifKind::BadCommand => bad_command(alloc, text, at, words)?,
        CifKind::Number => {
            format!(in alloc; "a number, or the whole offset of a call, is beyond {MOST_NUMBER}")?
        }
        CifKind::NoEnd => no_end(alloc, text, at)?,
        CifKind::LeftOut(letter) => left_out(alloc, letter)?,
        CifKind::Turned => {
            format!(in alloc;
                "a direction or a side of a path lies aslant; along x or along y is wanted"
            )?
        }
    };
    Ok(Told::at(at, what))
}

// The number of the symbol whose definition a command begins.
fn defined_in(command: &[u8]) -> Option<u64> {
    let behind = command.strip_prefix(b"D")?;
    let blanks = behind.iter().take_while(|byte| **byte != b'S').count();
    let behind = from_byte(behind, blanks.saturating_add(1));
    let separators = behind
        .iter()
        .take_while(|byte| !byte.is_ascii_digit())
        .count();
    let mut number: u64 = 0;
    for byte in from_byte(behind, separators) {
        if !byte.is_ascii_digit() {
            return Some(number);
        }
        let digit = u64::from(byte.saturating_sub(b'0'));
        number = number.saturating_mul(10).saturating_add(digit);
    }
    None
}

// The line, from 1, in which the first definition of a symbol begins; 0 where there is none.
fn line_of_definition(text: &[u8], n: u64) -> u64 {
    let mut from = 0;
    for _ in 0..text.len() {
        let Some(command) = next_command(text, from) else {
            return 0;
        };
        if defined_in(command.text) == Some(n) {
            return place_at(text, command.at as u64).line;
        }
        from = command.at.saturating_add(command.text.len());
    }
    0
}

// What is wrong with a command.
fn meaning(alloc: Global, text: &[u8], kind: ExpandKind) -> Result<String, AllocError> {
    match kind {
        ExpandKind::Undefined(n) => {
            format!(in alloc;
                "symbol {n} is called, and no definition DS {n} .. DF; has ended before"
            )
        }
        ExpandKind::Twice(n) => {
            let line = line_of_definition(text, n);
            format!(in alloc;
                "symbol {n} is defined a second time; line {line} has its first definition"
            )
        }
        ExpandKind::Inexact => {
            format!(in alloc;
                "a number is no whole number of half centimicrons under the scale of its definition, DS N A B"
            )
        }
        ExpandKind::TooFar(n) => {
            format!(in alloc; "a coordinate is {n} half centimicrons; {FARTHEST} at most may be")
        }
        ExpandKind::LongPath => format!(in alloc; "a polygon has more than 2000 points"),
        ExpandKind::TooMany => {
            format!(in alloc; "there are more than {MOST_SHAPES} shapes, those of calls among them")
        }
        ExpandKind::NoLayer => {
            format!(in alloc; "a shape has no layer; a command L NAME; is wanted before it")
        }
        ExpandKind::NoSymbolName => {
            format!(in alloc;
                "a call with a name (91) is of a symbol without one; 9 NAME; is wanted in its definition"
            )
        }
        ExpandKind::TooDeep => format!(in alloc; "calls nest deeper than {DEEPEST}"),
    }
}

/// What is wrong with the command of this number.
pub(crate) fn told_of_command(
    alloc: Global,
    text: &[u8],
    kind: ExpandKind,
    number: u32,
) -> Result<Told, AllocError> {
    let why = meaning(alloc, text, kind)?;
    match command_at(text, number) {
        Some(command) => Ok(Told::at(command.at, why)),
        None => Ok(Told::whole(why)),
    }
}
