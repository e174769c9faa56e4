//! Bytes as people are shown them.

ghost use Rattle.note_text.specs.Shown.{shown};
ghost use Rattle.std.specs.Prelude.{◌≡◌, ◌++◌, map, OnOk};
ghost use Rattle.std.specs.String.{string_bytes};

use std::alloc::AllocError;

// The character that shows a byte: itself where it is one of ASCII that shows or a blank, a blank for a tab, and else a question mark.
fn shown(byte: u8) -> char
    ensures { result ≡ shown byte }
{
    match byte {
        b'\t' => ' ',
        b' '..=b'~' => byte as char,
        _ => '?',
    }
}

/// Puts bytes behind a text as people are shown them, one character for each: a blank for a tab, and a question mark for what is neither a blank nor a character of ASCII that shows.
/// The one error is want of memory, and then the text may have some of them.
pub fn push_shown(text: &mut String, bytes: &[u8]) -> Result<(), AllocError>
    ensures { OnOk result (string_bytes text.new ≡ string_bytes text.old ++ map shown bytes.now) }
{
    for byte in bytes {
        text.push(shown(*byte))?;
    }
    Ok(())
}
