//! The words of a finding within the quotes of a text value.

ghost use Rattle.finding_markers.specs.Markers.{gap, words_text};
ghost use Rattle.marker_text.specs.Escaped.{escaped};
ghost use Rattle.shelf_io.specs.Lines.{word_text};
ghost use Rattle.shelf_io.specs.Wrote.{Writes};
ghost use Rattle.std.specs.Prelude.{◌≡◌, map};

use itoa::Buffer as Digits;
use marker_text::append_escaped;
use shelf_io::{Buffer, Failed, LineWord, Sink};

// Puts a word behind what is buffered.
fn append_word<K: Sink>(buffer: &mut Buffer, out: &mut K, word: LineWord<'_>) -> Result<(), Failed>
    ensures { Writes result (escaped (word_text word.entry)) buffer.old buffer.new (K.written out.old) (K.written out.new) (K.faults out.old) (K.faults out.new) (K.same_place out.old out.new) (K.else_same out.old out.new) }
{
    match word {
        LineWord::Text(bytes) => append_escaped(buffer, out, bytes),
        LineWord::Number(n) => {
            let mut digits = Digits::new();
            append_escaped(buffer, out, digits.format(n).as_bytes())
        }
    }
}

// What stands between a word and these.
fn gap(rest: &[LineWord<'_>]) -> &'static [u8]
    ensures { result.now ≡ gap (map word_text rest.now) }
{
    if rest.is_empty() { b"" } else { b" " }
}

/// Puts words with blanks between them behind what is buffered.
pub(crate) fn append_words<K: Sink>(
    buffer: &mut Buffer,
    out: &mut K,
    words: &[LineWord<'_>],
) -> Result<(), Failed>
    ensures { Writes result (words_text (map word_text words.now)) buffer.old buffer.new (K.written out.old) (K.written out.new) (K.faults out.old) (K.faults out.new) (K.same_place out.old out.new) (K.else_same out.old out.new) }
{
    let Some((word, after)) = words.split_first() else {
        return Ok(());
    };
    append_word(buffer, out, *word)?;
    buffer.append(out, gap(after))?;
    append_words(buffer, out, after)
}
