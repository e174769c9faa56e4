//! Notes on a word or a semicolon of a YAL text that stands where none such may.

use crate::yal_notes::{module_shown, token_shown};
use note_text::place_at;
use std::alloc::{AllocError, Global};
use text_places::{Found, Part, Shown, Sought, Token, Walk, find, first_blif_word, word_meant};

/// The words that begin sections of a module, and those that begin and end modules.
const KEYWORDS: &[&str] = &[
    "DIMENSIONS",
    "IOLIST",
    "NETWORK",
    "ENDMODULE",
    "PROFILE",
    "CURRENT",
    "VOLTAGE",
    "PLACEMENT",
    "CRITICALNETS",
    "MODULE",
    "TYPE",
];

/// The types of modules.
const KINDS: &[&str] = &["STANDARD", "PAD", "GENERAL", "PARENT"];

// Whether a word is one of the keywords of modules and sections.
fn is_keyword(token: Option<Token<'_>>) -> bool {
    let Some(token) = token else {
        return false;
    };
    for word in KEYWORDS {
        if token.is(*word) {
            return true;
        }
    }
    false
}

// Whether a text looks like a layout in CIF.
fn is_like_layout(text: &[u8]) -> bool {
    text.starts_with(b"(") || text.starts_with(b"DS ") || text.starts_with(b"L ")
}

// Whether a text looks like a netlist in BLIF.
fn is_like_netlist(text: &[u8]) -> bool {
    match first_blif_word(text) {
        Some(word) => word.is_directive(".model"),
        None => false,
    }
}

// A word outside of modules.
fn outside(alloc: Global, text: &[u8], word: Shown<'_>) -> Result<String, AllocError> {
    if is_like_layout(text) {
        return format!(in alloc;
            "MODULE is wanted here, not {word}; this looks like a layout in CIF: the words are route DESIGN RULES OUT, and check DESIGN RULES CIF"
        );
    }
    if is_like_netlist(text) {
        return format!(in alloc;
            "MODULE is wanted here, not {word}; this looks like a netlist in BLIF: the words are import BLIF CELLS OUT"
        );
    }
    if word.0.starts_with(b"library") {
        return format!(in alloc;
            "MODULE is wanted here, not {word}; this looks like cells in Liberty, and modules in YAL are wanted"
        );
    }
    if word.0.starts_with(b"#") || word.0.starts_with(b"//") {
        return format!(in alloc;
            "MODULE is wanted here, not {word}; comments stand between /* and */"
        );
    }
    let meant = word_meant(alloc, word.0, &["MODULE"])?;
    format!(in alloc;
        "MODULE is wanted here, not {word}, which stands outside of all modules{meant}"
    )
}

// A word that begins no section.
fn no_section(alloc: Global, walk: &Walk<'_>, token: Token<'_>) -> Result<String, AllocError> {
    let word = Shown(token.text);
    let module = module_shown(walk);
    if token.is("MODULE") {
        return format!(in alloc; "ENDMODULE; is missing before {word}: module {module} has no end");
    }
    if token.is("ENDIOLIST") {
        return format!(in alloc; "{word} stands here without an IOLIST; before it");
    }
    if token.is("ENDNETWORK") {
        return format!(in alloc; "{word} stands here without a NETWORK; before it");
    }
    let meant = word_meant(alloc, token.text, KEYWORDS)?;
    format!(in alloc;
        "{word} begins no section of module {module}; DIMENSIONS, IOLIST, NETWORK and some more do, and ENDMODULE; ends it{meant}"
    )
}

// What a statement outside of lists wants next.
fn in_module(alloc: Global, walk: &Walk<'_>, token: Token<'_>) -> Result<String, AllocError> {
    let word = Shown(token.text);
    let module = module_shown(walk);
    if walk.is_at("MODULE", 1) {
        return format!(in alloc; "MODULE wants the name of the module behind it, not {word}");
    }
    if walk.is_at("TYPE", 1) {
        let meant = word_meant(alloc, token.text, KINDS)?;
        return format!(in alloc;
            "{word} is no type of a module; STANDARD, PAD, GENERAL and PARENT are{meant}"
        );
    }
    if walk.words > 0 {
        let last = token_shown(walk.last);
        return format!(in alloc; "a ; is missing behind {last}, before {word}");
    }
    if walk.kind.is_none() {
        return format!(in alloc;
            "TYPE is wanted behind MODULE {module};, not {word}: each module begins MODULE NAME; TYPE KIND;"
        );
    }
    no_section(alloc, walk, token)
}

// What a line of a STANDARD module lacks that has so many words.
fn part_after(words: usize) -> &'static str {
    match words {
        2 => "its X",
        3 => "its Y",
        4 => "its width",
        _ => "its layer",
    }
}

// A list that goes on over its end, since its last line or call has no semicolon, or has no end.
fn endless(alloc: Global, text: &[u8], walk: &Walk<'_>) -> Result<String, AllocError> {
    let stop = walk.part.stop();
    let list = walk.part.keyword();
    let first = token_shown(walk.first);
    let module = module_shown(walk);
    let swallowed = find(text, Sought::Swallowed);
    if let Some(token) = swallowed.token {
        let line = place_at(text, token.at as u64).line;
        let last = token_shown(swallowed.before.last);
        let word = Shown(token.text);
        return format!(in alloc;
            "the {list} of {module} has no end before {first}: a ; is missing behind {last}, before {word} in line {line}"
        );
    }
    format!(in alloc; "{stop}; is missing before {first}: the {list} of {module} has no end")
}

// What a line of an IOLIST wants next.
fn in_line(
    alloc: Global,
    text: &[u8],
    walk: &Walk<'_>,
    token: Token<'_>,
) -> Result<String, AllocError> {
    let word = Shown(token.text);
    let first = token_shown(walk.first);
    if walk.words == 1 && is_keyword(walk.first) {
        return endless(alloc, text, walk);
    }
    if walk.words == 1 && token.is_end() {
        return format!(in alloc; "{first} has no flow; a line of an IOLIST is NAME FLOW .. ;");
    }
    if walk.words == 1 {
        return format!(in alloc;
            "{word} is no flow of {first}; I, O, B, PI, PO, PB, F, PWR and GND are"
        );
    }
    let lacked = part_after(walk.words);
    format!(in alloc;
        "the line of {first} lacks {lacked}; a line of a STANDARD module is NAME FLOW X Y WIDTH LAYER ;"
    )
}

// What a call of a NETWORK wants next.
fn in_call(alloc: Global, text: &[u8], walk: &Walk<'_>) -> Result<String, AllocError> {
    let first = token_shown(walk.first);
    if is_keyword(walk.first) {
        return endless(alloc, text, walk);
    }
    format!(in alloc; "{first} calls no module; a call is NAME MODULE SIGNAL .. ;")
}

/// What is wrong with a word or a semicolon that stands where none such may.
pub(crate) fn bad_word(
    alloc: Global,
    text: &[u8],
    found: &Found<'_>,
) -> Result<String, AllocError> {
    let walk = &found.before;
    let Some(token) = found.token else {
        return format!(in alloc; "a word is wanted here");
    };
    let stop = walk.part.stop();
    if walk.part != Part::Bare && walk.begins(stop) {
        let word = Shown(token.text);
        return format!(in alloc; "a ; is missing behind {stop}, before {word}");
    }
    match walk.part {
        Part::IoList => in_line(alloc, text, walk, token),
        Part::Network => in_call(alloc, text, walk),
        Part::Placement | Part::CriticalNets => {
            format!(in alloc; "{stop}; is wanted behind this section")
        }
        Part::Bare => {
            if walk.module.is_none() && walk.words == 0 {
                return outside(alloc, text, Shown(token.text));
            }
            in_module(alloc, walk, token)
        }
    }
}
