//! Lines of text that are gathered, and put to a sink at once.

ghost use Rattle.note_text.specs.Lines.{lines_text};
ghost use Rattle.shelf_io.specs.Lines.{line};
ghost use Rattle.shelf_io.specs.Wrote.{Puts, Writes};
ghost use Rattle.std.specs.Prelude.{◌≡◌, ◌⊎◌, ◌++◌, ◌∷◌, [], map};
ghost use Rattle.std.specs.String.{string_bytes};

use shelf_io::LineWord::Text;
use shelf_io::{Buffer, Failed, Sink, append_line};
use std::alloc::Global;
use std::marker::Model;

/// Lines of text for people, in the order in which they were noted, which contracts see as the bytes of each without its line feed. What memory has no room for is left out.
#[derive(Debug, Drop)]
pub struct Notes {
    lines: Vec<String>,
}

impl Model for Notes {
    ghost use Rattle.std.specs.Prelude.{List, ℕ, map};
    ghost use Rattle.std.specs.String.{string_bytes};

    ghost Value = { List (List ℕ) };

    ghost view = { λ n. map string_bytes n.lines.items };
}

impl Notes {
    /// No lines. Takes no memory.
    pub fn new(alloc: Global) -> Notes
        ensures { result ≡ [] }
    {
        Notes {
            lines: Vec::new(alloc),
        }
    }

    // Lends the lines.
    fn lines(&self) -> &[String]
        ensures { map string_bytes result.now ≡ self.now }
    {
        self.lines.as_slice()
    }

    /// One more line, behind the others; it is left out where memory has no room for it.
    pub fn note(&mut self, line: String)
        ensures { (self.new ≡ self.old ++ string_bytes line ∷ []) ⊎ (self.new ≡ self.old) }
    {
        let _ = self.lines.push(line);
    }
}

// Puts a line behind what is buffered.
fn append_note<K: Sink>(buffer: &mut Buffer, out: &mut K, text: &String) -> Result<(), Failed>
    ensures { Writes result (line (string_bytes text.now ∷ [])) buffer.old buffer.new (K.written out.old) (K.written out.new) (K.faults out.old) (K.faults out.new) (K.same_place out.old out.new) (K.else_same out.old out.new) }
{
    append_line(buffer, out, &[Text(text.as_bytes())])
}

// Puts lines behind what is buffered.
fn append_lines<K: Sink>(buffer: &mut Buffer, out: &mut K, lines: &[String]) -> Result<(), Failed>
    ensures { Writes result (lines_text (map string_bytes lines.now)) buffer.old buffer.new (K.written out.old) (K.written out.new) (K.faults out.old) (K.faults out.new) (K.same_place out.old out.new) (K.else_same out.old out.new) }
{
    let mut rest = lines;
    while let Some((text, after)) = rest.split_first() {
        append_note(buffer, out, text)?;
        rest = after;
    }
    Ok(())
}

/// Puts each line with a line feed behind it, in pieces of 4,096 bytes where the sink takes them so. It errs where the sink failed, whose count then rose, and leaves a front of the
/// text. Takes no memory.
pub fn put_notes<K: Sink>(out: &mut K, notes: &Notes) -> Result<(), Failed>
    ensures { Puts result (lines_text notes.now) (K.written out.old) (K.written out.new) (K.faults out.old) (K.faults out.new) (K.same_place out.old out.new) (K.else_same out.old out.new) }
{
    let mut buffer = Buffer::new();
    append_lines(&mut buffer, out, notes.lines())?;
    buffer.flush(out)
}
