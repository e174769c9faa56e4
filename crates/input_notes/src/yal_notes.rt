//! Notes on a text that is no YAL.

use crate::number_notes::{NumbersBy, bad_number};
use crate::word_notes::bad_word;
use std::alloc::{AllocError, Global};
use text_places::{Found, Part, Shown, Sought, Token, Told, Walk, find, line_of};
use yal_reader::YalKind;

// A byte that is not ASCII.
fn foreign(alloc: Global, text: &[u8], at: usize) -> Result<String, AllocError> {
    let byte = text.get(at).copied().unwrap_or(0);
    format!(in alloc;
        "byte {byte} is no ASCII character; a design has ASCII alone, in its comments too"
    )
}

/// The name of the module that is open.
pub(crate) fn module_shown<'a>(walk: &Walk<'a>) -> Shown<'a> {
    match walk.module {
        Some(name) => Shown(name.text),
        None => Shown(b"?"),
    }
}

/// A word that is there, or none.
pub(crate) fn token_shown(token: Option<Token<'_>>) -> Shown<'_> {
    match token {
        Some(token) => Shown(token.text),
        None => Shown(b""),
    }
}

// The words that are missing at the end of a text.
fn missing_ends(alloc: Global, walk: &Walk<'_>) -> Result<String, AllocError> {
    let stop = walk.part.stop();
    if walk.words > 0 {
        let last = token_shown(walk.last);
        return format!(in alloc; "a ; is missing behind {last}");
    }
    if walk.part == Part::Bare {
        return format!(in alloc; "{stop}; is missing");
    }
    format!(in alloc; "{stop}; is missing, and ENDMODULE; behind it")
}

// A text that ends inside a module.
fn ends(alloc: Global, walk: &Walk<'_>) -> Result<String, AllocError> {
    let missing = missing_ends(alloc, walk)?;
    let name = module_shown(walk);
    match walk.module {
        Some(_) => format!(in alloc; "the text ends inside module {name}: {missing}"),
        None => format!(in alloc; "the text ends inside a statement: {missing}"),
    }
}

// A name or a section that stands a second time.
fn twice(alloc: Global, text: &[u8], found: &Found<'_>) -> Result<String, AllocError> {
    let before = &found.before;
    let word = token_shown(found.token);
    let bytes = word.0;
    let module = module_shown(before);
    if before.part == Part::Network {
        let line = line_of(text, Sought::Calling(bytes));
        return format!(in alloc;
            "an instance named {word} stands at line {line} already; each needs a name of its own"
        );
    }
    if before.words == 0 {
        let number = before.modules.saturating_sub(1);
        let line = line_of(text, Sought::Section(number, bytes));
        return format!(in alloc;
            "module {module} has {word} at line {line} already; it may stand once in a module"
        );
    }
    let line = line_of(text, Sought::Named(bytes));
    format!(in alloc;
        "a module named {word} stands at line {line} already; each needs a name of its own"
    )
}

/// What is wrong with a text that is no YAL, for this reason at this byte, where its numbers are written so.
pub fn told_of_yal(
    alloc: Global,
    text: &[u8],
    kind: YalKind,
    at: u64,
    numbers: NumbersBy,
) -> Result<Told, AllocError> {
    let found = find(text, Sought::Byte(at));
    let what = match kind {
        YalKind::NotAscii => foreign(alloc, text, at as usize)?,
        YalKind::OpenComment => {
            format!(in alloc; "a comment begins here and has no end: */ is missing")?
        }
        YalKind::Word => bad_word(alloc, text, &found)?,
        YalKind::Ends => ends(alloc, &found.before)?,
        YalKind::Number => bad_number(alloc, text, &found, numbers)?,
        YalKind::Twice => twice(alloc, text, &found)?,
    };
    Ok(Told::at(at as usize, what))
}
