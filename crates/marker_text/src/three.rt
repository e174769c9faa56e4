//! Texts one behind the other.

ghost use Rattle.shelf_io.specs.Wrote.{Writes};
ghost use Rattle.std.specs.Prelude.{◌++◌};

use shelf_io::{Buffer, Failed, Sink};

/// Puts three texts, one behind the other, behind what is buffered. Takes no memory.
pub fn append_three<K: Sink>(
    buffer: &mut Buffer,
    out: &mut K,
    first: &[u8],
    second: &[u8],
    third: &[u8],
) -> Result<(), Failed>
    ensures { Writes result (first.now ++ (second.now ++ third.now)) buffer.old buffer.new (K.written out.old) (K.written out.new) (K.faults out.old) (K.faults out.new) (K.same_place out.old out.new) (K.else_same out.old out.new) }
{
    buffer.append(out, first)?;
    buffer.append(out, second)?;
    buffer.append(out, third)
}
