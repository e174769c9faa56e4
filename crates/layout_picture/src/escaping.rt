//! Names as text of XML.

ghost use Rattle.layout_picture.specs.Entities.{entities, entity};
ghost use Rattle.marker_text.specs.Escaped.{is_plain};
ghost use Rattle.note_text.specs.Shown.{shown};
ghost use Rattle.shelf_io.specs.Wrote.{Writes};
ghost use Rattle.std.specs.List.{list_all};
ghost use Rattle.std.specs.Prelude.{◌≡◌, true};

use shelf_io::{Buffer, Failed, Sink};

// The character that shows a byte.
fn shown(byte: u8) -> u8
    ensures { result ≡ shown byte }
{
    match byte {
        b'\t' => b' ',
        b' '..=b'~' => byte,
        _ => b'?',
    }
}

// Puts a character behind what is buffered.
fn append_entity<K: Sink>(buffer: &mut Buffer, out: &mut K, c: u8) -> Result<(), Failed>
    ensures { Writes result (entity c) buffer.old buffer.new (K.written out.old) (K.written out.new) (K.faults out.old) (K.faults out.new) (K.same_place out.old out.new) (K.else_same out.old out.new) }
{
    match c {
        b'"' => buffer.append(out, b"&quot;"),
        b'&' => buffer.append(out, b"&amp;"),
        b'\'' => buffer.append(out, b"&apos;"),
        b'<' => buffer.append(out, b"&lt;"),
        b'>' => buffer.append(out, b"&gt;"),
        _ => buffer.append(out, &[c]),
    }
}

/// Puts bytes as they are shown behind what is buffered, as text of XML: plain characters, none of which begins or ends an element.
pub(crate) fn append_entities<K: Sink>(
    buffer: &mut Buffer,
    out: &mut K,
    bytes: &[u8],
) -> Result<(), Failed>
    ensures writes { Writes result (entities bytes.now) buffer.old buffer.new (K.written out.old) (K.written out.new) (K.faults out.old) (K.faults out.new) (K.same_place out.old out.new) (K.else_same out.old out.new) }
    ensures plain { list_all is_plain (entities bytes.now) ≡ true }
{
    let mut rest = bytes;
    while let Some((byte, after)) = rest.split_first() {
        append_entity(buffer, out, shown(*byte))?;
        rest = after;
    }
    Ok(())
}
