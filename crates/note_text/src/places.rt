//! Places in a text, as people count them, and the line of a place.

ghost use Rattle.note_text.specs.Places.{line_in, place_behind, place_in, start_in, until_feed};
ghost use Rattle.std.specs.Prelude.{◌≡◌, ◌+◌, ◌<◌, ◌≤◌, ◌^◌, length, take};

/// A place in a text: the number of its line, and of its byte in that line, both from 1.
#[derive(Clone, Copy, Debug, PartialEq, Eq)]
pub struct Place {
    pub line: u64,
    pub column: u64,
}

impl Place {
    // The place behind this byte.
    fn behind(self, byte: u8) -> Place
        requires lines { self.line + 1 < 2 ^ 64 }
        requires columns { self.column + 1 < 2 ^ 64 }
        ensures { result ≡ place_behind self byte }
    {
        if byte == b'\n' {
            Place {
                line: self.line + 1,
                column: 1,
            }
        } else {
            Place {
                line: self.line,
                column: self.column + 1,
            }
        }
    }
}

// The first so many bytes of a text, or all where it has fewer.
fn front(text: &[u8], at: u64) -> &[u8]
    ensures { result.now ≡ take at text.now }
{
    if at < text.len() as u64 {
        &text[..at as usize]
    } else {
        text
    }
}

/// Where the byte of this number, from 0, stands in a text; one past the end stands behind the last byte. Takes no memory.
pub fn place_at(text: &[u8], at: u64) -> Place
    ensures { result ≡ place_in text.now at }
{
    let front = front(text, at);
    let mut place = Place { line: 1, column: 1 };
    let mut rest = front;
    while let Some((byte, after)) = rest.split_first() {
        place = place.behind(*byte);
        rest = after;
    }
    place
}

// Where the line begins that goes on at the end of a text.
fn line_start(text: &[u8]) -> usize
    ensures is { result ≡ start_in text.now }
    ensures within { result ≤ length text.now }
{
    let mut start = 0;
    for (i, byte) in text.iter().enumerate() {
        if *byte == b'\n' {
            start = i + 1;
        }
    }
    start
}

// The bytes before the first line feed.
fn first_line(text: &[u8]) -> &[u8]
    ensures { result.now ≡ until_feed text.now }
{
    for (i, byte) in text.iter().enumerate() {
        if *byte == b'\n' {
            return &text[..i];
        }
    }
    text
}

/// The line in which the byte of this number, from 0, stands, without its line feed, which is the line's own last byte; past the end it is the last line. Takes no memory.
pub fn line_at(text: &[u8], at: u64) -> &[u8]
    ensures { result.now ≡ line_in text.now at }
{
    let start = line_start(front(text, at));
    first_line(&text[start..])
}
