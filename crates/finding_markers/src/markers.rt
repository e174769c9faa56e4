//! The findings of a layout, put to a sink or written into a file as a report database.

ghost use Rattle.marker_text.specs.Held.{HoldsFront};
ghost use Rattle.finding_markers.specs.Markers.{markers_text};
ghost use Rattle.shelf_io.specs.Count.{Rose};
ghost use Rattle.shelf_io.specs.OtherFiles.{OthersSame};
ghost use Rattle.shelf_io.specs.Told.{Refines};
ghost use Rattle.shelf_io.specs.Wrote.{Puts};
ghost use Rattle.std.specs.Prelude.{◌≡◌, Some, is_ok, OnErr, OnOk};

use crate::items::append_items;
use crate::texts::{Part, text_of_part};
use design_model::Design;
use geom_core::Layout;
use layout_check::Finding;
use shelf_io::{Buffer, Failed, FileSink, Shelf, Sink};

/// Puts the findings of a layout that was judged for a design as a report database, in pieces of 4,096 bytes where the sink takes them so: an item for each, in their
/// order, with its category, the words that are printed of it, and a box for each place that it concerns. It errs where the sink failed, whose count then rose, and leaves a
/// front of the text. Takes no memory.
pub fn put_markers<K: Sink>(
    out: &mut K,
    design: &Design,
    layout: &Layout,
    findings: &[Finding],
) -> Result<(), Failed>
    ensures { Puts result (markers_text design.now layout.now findings.now) (K.written out.old) (K.written out.new) (K.faults out.old) (K.faults out.new) (K.same_place out.old out.new) (K.else_same out.old out.new) }
{
    let mut buffer = Buffer::new();
    buffer.append(out, text_of_part(Part::Begin))?;
    append_items(&mut buffer, out, design, layout, findings)?;
    buffer.append(out, text_of_part(Part::End))?;
    buffer.flush(out)
}

// Puts the text to a file.
fn put_file<S: Shelf>(
    shelf: &mut S,
    file: &str,
    design: &Design,
    layout: &Layout,
    findings: &[Finding],
) -> Result<(), Failed>
    ensures { Puts result (markers_text design.now layout.now findings.now) (S.holds shelf.old file.now) (S.holds shelf.new file.now) (S.write_faults shelf.old file.now) (S.write_faults shelf.new file.now) (Unit {0}) (λ calm. OthersSame calm file.now (S.holds shelf.old) (S.holds shelf.new) (S.read_faults shelf.old) (S.read_faults shelf.new) (S.write_faults shelf.old) (S.write_faults shelf.new)) }
{
    let mut out = FileSink::new(shelf, file);
    put_markers(&mut out, design, layout, findings)
}

/// Makes a file hold the findings of a layout that was judged for a design as a report database, and nothing else. Takes no memory. After Failed, which comes only where the
/// file's write count rose, the file holds what it held before, or a front of the text.
pub fn write_markers<S: Shelf>(
    shelf: &mut S,
    file: &str,
    design: &Design,
    layout: &Layout,
    findings: &[Finding],
) -> Result<(), Failed>
    ensures text { OnOk result (Refines (S.holds shelf.new file.now) (Some (markers_text design.now layout.now findings.now))) }
    ensures front { OnErr result (HoldsFront (markers_text design.now layout.now findings.now) (S.holds shelf.old file.now) (S.holds shelf.new file.now)) }
    ensures others { OthersSame (is_ok result) file.now (S.holds shelf.old) (S.holds shelf.new) (S.read_faults shelf.old) (S.read_faults shelf.new) (S.write_faults shelf.old) (S.write_faults shelf.new) }
    ensures cause { OnErr result (Rose (S.write_faults shelf.old file.now) (S.write_faults shelf.new file.now)) }
{
    shelf.begin(file)?;
    put_file(shelf, file, design, layout, findings)
}
