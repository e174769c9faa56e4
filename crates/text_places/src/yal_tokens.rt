//! The words and semicolons of a YAL text with their places, as far as any text has them.

/// A word or a semicolon of a text, and the number of its first byte.
#[derive(Clone, Copy)]
pub struct Token<'a> {
    pub at: usize,
    pub text: &'a [u8],
}

impl<'a> Token<'a> {
    /// Whether it is a semicolon.
    pub fn is_end(self) -> bool {
        self.text == b";".as_slice()
    }

    /// Whether it is this keyword, in whatever case.
    pub fn is(self, keyword: &str) -> bool {
        self.text.eq_ignore_ascii_case(keyword.as_bytes())
    }

    /// The number of the byte behind it.
    pub fn end(self) -> usize {
        self.at.saturating_add(self.text.len())
    }
}

/// The bytes of a text from one on.
pub fn from_byte(text: &[u8], at: usize) -> &[u8] {
    text.get(at..).unwrap_or(&[])
}

// Whether a byte parts words.
fn is_blank(byte: u8) -> bool {
    byte <= b' ' || byte == 127
}

// The number of the first byte from one on that is neither a blank nor in a comment.
fn past_blanks(text: &[u8], from: usize) -> usize {
    let rest = from_byte(text, from);
    let mut inside = false;
    let mut passed = false;
    for (i, byte) in rest.iter().enumerate() {
        if passed {
            passed = false;
            continue;
        }
        let mark: &[u8] = if inside { b"*/" } else { b"/*" };
        if from_byte(rest, i).starts_with(mark) {
            inside = !inside;
            passed = true;
            continue;
        }
        if !inside && !is_blank(*byte) {
            return from.saturating_add(i);
        }
    }
    text.len()
}

// How many bytes the word has that stands first.
fn word_len(rest: &[u8]) -> usize {
    for (i, byte) in rest.iter().enumerate() {
        if is_blank(*byte) || *byte == b';' || from_byte(rest, i).starts_with(b"/*") {
            return i;
        }
    }
    rest.len()
}

/// The word or semicolon that comes next from a byte on.
pub fn next_token(text: &[u8], from: usize) -> Option<Token<'_>> {
    let at = past_blanks(text, from);
    let rest = from_byte(text, at);
    let first = rest.first()?;
    let len = if *first == b';' { 1 } else { word_len(rest) };
    Some(Token {
        at,
        text: rest.get(..len)?,
    })
}

/// Whether a line feed stands between two of them.
pub fn are_on_two_lines(text: &[u8], first: Token<'_>, second: Token<'_>) -> bool {
    match text.get(first.at..second.at) {
        Some(between) => between.contains(&b'\n'),
        None => false,
    }
}
