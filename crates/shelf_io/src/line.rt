//! Lines of words and numbers, put to a sink.

ghost use Rattle.shelf_io.specs.Lines.{line, word_end, word_text};
ghost use Rattle.shelf_io.specs.Wrote.{Puts, Writes};
ghost use Rattle.std.specs.Prelude.{◌≡◌, map};

use crate::buffer::Buffer;
use crate::traits::{Failed, Sink};
use itoa::Buffer as Digits;

/// A word of a line: its bytes, or a number, which is written in decimals.
#[derive(Clone, Copy, Debug)]
pub enum LineWord<'w> {
    Text(&'w [u8]),
    Number(u64),
}

// Puts a word behind what is buffered.
fn append_word<K: Sink>(buffer: &mut Buffer, out: &mut K, word: LineWord<'_>) -> Result<(), Failed>
    ensures { Writes result (word_text word.entry) buffer.old buffer.new (K.written out.old) (K.written out.new) (K.faults out.old) (K.faults out.new) (K.same_place out.old out.new) (K.else_same out.old out.new) }
{
    match word {
        LineWord::Text(bytes) => buffer.append(out, bytes),
        LineWord::Number(n) => {
            let mut digits = Digits::new();
            buffer.append(out, digits.format(n).as_bytes())
        }
    }
}

// What stands after a word before these: a blank, or a line feed where there are none.
fn word_end(rest: &[LineWord<'_>]) -> &'static [u8]
    ensures { result.now ≡ word_end (map word_text rest.now) }
{
    if rest.is_empty() { b"\n" } else { b" " }
}

/// Puts the line of these words behind what is buffered: the words with blanks between them, and a line feed. Takes no memory.
pub fn append_line<K: Sink>(
    buffer: &mut Buffer,
    out: &mut K,
    words: &[LineWord<'_>],
) -> Result<(), Failed>
    ensures { Writes result (line (map word_text words.now)) buffer.old buffer.new (K.written out.old) (K.written out.new) (K.faults out.old) (K.faults out.new) (K.same_place out.old out.new) (K.else_same out.old out.new) }
{
    let Some((word, after)) = words.split_first() else {
        return Ok(());
    };
    append_word(buffer, out, *word)?;
    buffer.append(out, word_end(after))?;
    append_line(buffer, out, after)
}

/// Puts the line of these words, in one piece where it is no longer than 4,096 bytes and the sink takes it so. Takes no memory.
pub fn put_line<K: Sink>(out: &mut K, words: &[LineWord<'_>]) -> Result<(), Failed>
    ensures { Puts result (line (map word_text words.now)) (K.written out.old) (K.written out.new) (K.faults out.old) (K.faults out.new) (K.same_place out.old out.new) (K.else_same out.old out.new) }
{
    let mut buffer = Buffer::new();
    append_line(&mut buffer, out, words)?;
    buffer.flush(out)
}
