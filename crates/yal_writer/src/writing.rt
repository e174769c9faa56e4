//! A PARENT behind the text of its cells, written into a file.

ghost use Rattle.marker_text.specs.Held.{HoldsFront};
ghost use Rattle.shelf_io.specs.Count.{Rose};
ghost use Rattle.shelf_io.specs.OtherFiles.{OthersSame};
ghost use Rattle.shelf_io.specs.Told.{Refines};
ghost use Rattle.shelf_io.specs.Wrote.{Puts};
ghost use Rattle.std.specs.Prelude.{◌≡◌, ◌++◌, Some, is_ok, OnErr, OnOk};
ghost use Rattle.yal_writer.specs.ParentText.{parent_text};
ghost use Rattle.yal_writer.specs.ReadsBack.{ReadsBack};

use crate::printing::append_parent;
use shelf_io::{Buffer, Failed, FileSink, Shelf, Sink};
use yal_reader::Module;

/// Puts a PARENT behind the text of its cells.
fn put_yal<K: Sink>(out: &mut K, cells: &[u8], parent: &Module) -> Result<(), Failed>
    ensures { Puts result (cells.now ++ parent_text parent.now) (K.written out.old) (K.written out.new) (K.faults out.old) (K.faults out.new) (K.same_place out.old out.new) (K.else_same out.old out.new) }
{
    let mut buffer = Buffer::new();
    buffer.append(out, cells)?;
    append_parent(&mut buffer, out, parent)?;
    buffer.flush(out)
}

/// Puts a PARENT behind the text of its cells to a file's end.
fn put_file<S: Shelf>(
    shelf: &mut S,
    file: &str,
    cells: &[u8],
    parent: &Module,
) -> Result<(), Failed>
    ensures { Puts result (cells.now ++ parent_text parent.now) (S.holds shelf.old file.now) (S.holds shelf.new file.now) (S.write_faults shelf.old file.now) (S.write_faults shelf.new file.now) (Unit {0}) (λ calm. OthersSame calm file.now (S.holds shelf.old) (S.holds shelf.new) (S.read_faults shelf.old) (S.read_faults shelf.new) (S.write_faults shelf.old) (S.write_faults shelf.new)) }
{
    let mut out = FileSink::new(shelf, file);
    put_yal(&mut out, cells, parent)
}

/// Makes a file hold the text of cells and a PARENT behind it, as `print_parent` prints it, and nothing else; behind modules of other names this reads as them and the PARENT. Takes no memory. After
/// Failed, which comes only where the file's write count rose, the file holds what it held before, or a front of the text.
pub fn write_yal<S: Shelf>(
    shelf: &mut S,
    file: &str,
    cells: &[u8],
    parent: &Module,
) -> Result<(), Failed>
    ensures text { OnOk result (Refines (S.holds shelf.new file.now) (Some (cells.now ++ parent_text parent.now))) }
    ensures front { OnErr result (HoldsFront (cells.now ++ parent_text parent.now) (S.holds shelf.old file.now) (S.holds shelf.new file.now)) }
    ensures others { OthersSame (is_ok result) file.now (S.holds shelf.old) (S.holds shelf.new) (S.read_faults shelf.old) (S.read_faults shelf.new) (S.write_faults shelf.old) (S.write_faults shelf.new) }
    ensures cause { OnErr result (Rose (S.write_faults shelf.old file.now) (S.write_faults shelf.new file.now)) }
    ensures reads { ReadsBack parent.now }
{
    shelf.begin(file)?;
    put_file(shelf, file, cells, parent)
}
