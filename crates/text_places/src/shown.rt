//! Names and words as notes show them.

use std::fmt;

/// How many bytes of a word are shown.
const MOST_SHOWN: usize = 60;

/// Bytes as notes show them: each as its character of ASCII, or a question mark where it has none that shows, and no more than sixty.
#[derive(Clone, Copy)]
pub struct Shown<'a>(pub &'a [u8]);

/// The name of a file as notes show it, with a question mark for each control character.
#[derive(Clone, Copy)]
pub struct FileName<'a>(pub &'a str);

// The character that shows a byte.
fn letter_of(byte: u8) -> char {
    match byte {
        b' '..=b'~' => byte as char,
        b'\t' | b'\n' | b'\r' => ' ',
        _ => '?',
    }
}

impl fmt::Display for Shown<'_> {
    fn fmt<W: fmt::Write>(&self, f: &mut fmt::Formatter<W>) -> fmt::Result {
        for byte in self.0.iter().take(MOST_SHOWN) {
            f.write_char(letter_of(*byte))?;
        }
        if self.0.len() > MOST_SHOWN {
            f.write_str("..")?;
        }
        Ok(())
    }
}

impl fmt::Display for FileName<'_> {
    fn fmt<W: fmt::Write>(&self, f: &mut fmt::Formatter<W>) -> fmt::Result {
        for letter in self.0.chars() {
            let seen = if letter.is_control() { '?' } else { letter };
            f.write_char(seen)?;
        }
        Ok(())
    }
}
