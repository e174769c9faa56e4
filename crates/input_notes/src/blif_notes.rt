//! Notes on a text that is no netlist in BLIF.

use blif_reader::BlifKind;
use note_text::place_at;
use std::alloc::{AllocError, Global};
use text_places::{
    BlifWalk, Shown, Token, Told, blif_walk, next_blif_token, place_of_directive, word_meant,
};

/// The directives that are read.
const DIRECTIVES: &[&str] = &[
    ".model", ".inputs", ".outputs", ".gate", ".cname", ".names", ".end",
];

// A word that comes next from a byte on, or none.
fn word_at(text: &[u8], at: usize) -> Shown<'_> {
    match next_blif_token(text, at) {
        Some(token) => Shown(token.text),
        None => Shown(b""),
    }
}

// What a text looks like that is in another language, and what is wanted.
fn other_language(text: &[u8]) -> Option<&'static str> {
    let text = text.trim_ascii_start();
    if text.starts_with(b"MODULE") {
        return Some(
            "this looks like a design or cells in YAL, and a netlist in BLIF is wanted; the words are import BLIF CELLS OUT",
        );
    }
    if text.starts_with(b"module") || text.starts_with(b"//") {
        return Some(
            "this looks like Verilog, and a netlist in BLIF is wanted, as yosys writes it by write_blif -gates",
        );
    }
    None
}

// A byte that may not stand outside of comments.
fn bad_byte(alloc: Global, text: &[u8], at: usize) -> Result<String, AllocError> {
    let byte = text.get(at).copied().unwrap_or(0);
    match byte {
        b';' => {
            format!(in alloc;
                "a ; may stand in comments alone, since it ends statements in YAL; a name without it is wanted"
            )
        }
        b'/' => {
            format!(in alloc;
                "a / before a * may stand in comments alone, since both begin a comment in YAL; a comment of a netlist stands behind a #"
            )
        }
        _ => {
            format!(in alloc;
                "byte {byte} is no character of ASCII that shows; outside of its comments a netlist has these alone"
            )
        }
    }
}

// A word at the front of the text that is no `.model`.
fn no_model(alloc: Global, word: Shown<'_>) -> Result<String, AllocError> {
    let meant = word_meant(alloc, word.0, &[".model"])?;
    format!(in alloc; ".model is wanted here, not {word}: a netlist begins .model NAME{meant}")
}

// A question whether the line before was to go on, if it has as many words as it likes.
fn continued(
    alloc: Global,
    text: &[u8],
    before: Token<'_>,
    last: Option<Token<'_>>,
) -> Result<String, AllocError> {
    let goes_on = [".inputs", ".outputs", ".gate"]
        .iter()
        .any(|directive| before.is_directive(*directive));
    let Some(last) = last else {
        return Ok(String::new(alloc));
    };
    if !goes_on {
        return Ok(String::new(alloc));
    }
    let line = place_at(text, last.at as u64).line;
    format!(in alloc; "; a \\ is perhaps missing at the end of line {line}")
}

// A word that begins a line behind one that begins so.
fn begins_none(
    alloc: Global,
    text: &[u8],
    walk: &BlifWalk<'_>,
    before: Token<'_>,
    word: Shown<'_>,
) -> Result<String, AllocError> {
    if before.is_directive(".end") {
        return format!(in alloc; "{word} stands behind .end, where nothing may");
    }
    if !before.text.starts_with(b".") {
        return format!(in alloc;
            "{word} begins one row too many; a table has one row at most, 1 for a constant net and 1 1 for two words that are one net"
        );
    }
    let cure = continued(alloc, text, before, walk.last)?;
    format!(in alloc;
        "{word} begins no line; .inputs, .outputs, .gate, .cname, .names and .end do{cure}"
    )
}

// What a directive wants that stands alone in its line.
fn wanted_behind(first: Token<'_>) -> &'static str {
    if first.is_directive(".model") {
        return "the name of the model";
    }
    if first.is_directive(".gate") {
        return "the name of its module";
    }
    "the name of the gate"
}

// A word or the end of a line that stands where none such may.
fn bad_word(alloc: Global, text: &[u8], at: usize) -> Result<String, AllocError> {
    let walk = blif_walk(text, at as u64);
    let word = word_at(text, at);
    let Some(first) = walk.first else {
        return match walk.before {
            Some(before) => begins_none(alloc, text, &walk, before, word),
            None => no_model(alloc, word),
        };
    };
    let directive = Shown(first.text);
    if walk.words == 1 && word.0 == b"\n".as_slice() {
        let wanted = wanted_behind(first);
        return format!(in alloc; "{directive} wants {wanted} behind it, in the same line");
    }
    if first.is_directive(".end") {
        return format!(in alloc; "{word} stands behind .end, where nothing may");
    }
    format!(in alloc; "{word} is one word too many; {directive} has one word behind it")
}

// A text that ends too early.
fn ends(alloc: Global, text: &[u8]) -> Result<Told, AllocError> {
    let walk = blif_walk(text, text.len() as u64);
    if walk.first.is_none() && walk.before.is_none() {
        return Ok(Told::whole(format!(in alloc;
            "the file has no netlist, which begins .model NAME and ends .end"
        )?));
    }
    let what = format!(in alloc; "the text ends before .end, and is perhaps cut off")?;
    Ok(Told::at(text.len(), what))
}

// What else a directive that is not read would be.
fn directive_cure(alloc: Global, word: Shown<'_>) -> Result<String, AllocError> {
    if word.0 == b".latch".as_slice() {
        return format!(in alloc; "; dfflibmap of yosys maps flip-flops to cells");
    }
    if word.0 == b".subckt".as_slice() {
        return format!(in alloc;
            "; -gates writes .gate for cells, and flatten of yosys leaves no other modules"
        );
    }
    word_meant(alloc, word.0, DIRECTIVES)
}

// A directive that is not read.
fn unread_directive(alloc: Global, text: &[u8], at: usize) -> Result<String, AllocError> {
    let word = word_at(text, at);
    let cure = directive_cure(alloc, word)?;
    format!(in alloc;
        "{word} is no directive that is read; a netlist by write_blif -gates, all cells of which are in the library, has none such{cure}"
    )
}

// A second model.
fn second_model(alloc: Global, text: &[u8]) -> Result<String, AllocError> {
    let first = place_of_directive(text, ".model").unwrap_or(0);
    let line = place_at(text, first as u64).line;
    format!(in alloc;
        "a second model begins here, and the first at line {line}; one alone may be: flatten of yosys makes one of all"
    )
}

// A word that is no pin.
fn bad_pin(alloc: Global, text: &[u8], at: usize) -> Result<String, AllocError> {
    let word = word_at(text, at);
    let lacked = if word.0.starts_with(b"=") {
        "its terminal before the ="
    } else if word.0.contains(&b'=') {
        "its net behind the ="
    } else {
        "a = and its net"
    };
    format!(in alloc;
        "{word} is no pin, since it lacks {lacked}; a pin of a gate is TERMINAL=NET, without blanks"
    )
}

// How many words stand behind the one at a byte, in its line.
fn words_behind(text: &[u8], at: usize) -> usize {
    let mut words: usize = 0;
    let mut from = at;
    for _ in 0..text.len() {
        match next_blif_token(text, from) {
            Some(token) if !token.is_feed() => {
                words = words.saturating_add(1);
                from = token.end();
            }
            _ => break,
        }
    }
    words.saturating_sub(1)
}

// A table that is neither that of a constant nor that of two words that are one net.
fn bad_table(alloc: Global, text: &[u8], at: usize) -> Result<String, AllocError> {
    match words_behind(text, at) {
        0 => {
            format!(in alloc;
                ".names wants words behind it: .names NET makes a net constant, and .names A B with the row 1 1 makes one net of two words"
            )
        }
        1 => format!(in alloc; "the table of a constant net has one row at most, which is 1"),
        2 => {
            format!(in alloc;
                "the table of two words has the one row 1 1, which makes one net of them; another row is logic, which abc -liberty of yosys maps to cells"
            )
        }
        words => {
            format!(in alloc;
                ".names of {words} words is logic, which abc -liberty of yosys maps to cells; one word may be, or two with the row 1 1"
            )
        }
    }
}

/// What is wrong with a text that is no netlist in BLIF, for this reason at this byte.
pub fn told_of_blif(
    alloc: Global,
    text: &[u8],
    kind: BlifKind,
    at: u64,
) -> Result<Told, AllocError> {
    let at = at as usize;
    if matches!(kind, BlifKind::Byte | BlifKind::Word) {
        if let Some(what) = other_language(text) {
            return Ok(Told::whole(String::from_str(alloc, what)?));
        }
    }
    let what = match kind {
        BlifKind::Byte => bad_byte(alloc, text, at)?,
        BlifKind::Word => bad_word(alloc, text, at)?,
        BlifKind::Ends => return ends(alloc, text),
        BlifKind::Directive => unread_directive(alloc, text, at)?,
        BlifKind::Model => second_model(alloc, text)?,
        BlifKind::Cname => {
            format!(in alloc;
                "no gate stands in the line before this .cname, which gives that gate its name"
            )?
        }
        BlifKind::Pin => bad_pin(alloc, text, at)?,
        BlifKind::Table => bad_table(alloc, text, at)?,
    };
    Ok(Told::at(at, what))
}
