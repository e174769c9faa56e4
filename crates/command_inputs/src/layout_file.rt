//! What the file of a layout says.

ghost use Rattle.cif_reader.specs.Expanding.{told_of};
ghost use Rattle.cif_reader.specs.Within.{IsLayoutWithin};
ghost use Rattle.cif_text.specs.CifReads.{cif_reads};
ghost use Rattle.command_inputs.specs.Failures.{FileFails};
ghost use Rattle.command_inputs.specs.LayoutFile.{AreExpandable, cif_said, commands_verdict, expansion_by, layout_verdict, meaning_said};
ghost use Rattle.command_inputs.specs.Reading.{Loads, Says, files};
ghost use Rattle.layout_check.specs.Measured.{IsMeasured};
ghost use Rattle.layout_merge.specs.Near.{IsCellNear};
ghost use Rattle.read_base.specs.Answers.{AnswersAs};
ghost use Rattle.std.specs.Prelude.{◌<◌, ◌^◌, length, All, IfOk};

use crate::stages::{load_within, or_stop};
use crate::texts::Texts;
use cif_reader::{ExpandFault, expand};
use cif_text::{CifCommand, CifFault, read_commands};
use command_ends::{Limited, Refusal, Stop};
use geom_core::{LayerName, Layout};
use label_reader::expand_labelled;
use limits::MOST_LAYOUT_BYTES;
use shelf_io::Shelf;
use std::alloc::Global;

// The commands of a text.
fn read_text(alloc: Global, bytes: &[u8]) -> Result<Vec<CifCommand>, Refusal>
    requires { length bytes.now < 2 ^ 32 }
    ensures says { Says (λ v. v.items) result (cif_said (cif_reads bytes.now)) }
    ensures possible { IfOk result (λ v. AreExpandable v.items) }
{
    match read_commands(alloc, bytes) {
        Ok(commands) => Ok(commands),
        Err(CifFault::Bad { kind, at }) => Err(Refusal::Cif(kind, at)),
        Err(CifFault::Memory) => Err(Refusal::Memory),
    }
}

// The commands of a file, whose text is kept.
fn load_commands<S: Shelf>(
    alloc: Global,
    shelf: &mut S,
    name: &str,
    texts: &mut Texts,
) -> Result<Vec<CifCommand>, Stop>
    ensures loads { Loads (λ v. v.items) commands_verdict (λ told. told name.now) (FileFails name.now) result
        (files (S.holds shelf.old) (S.read_faults shelf.old) (S.write_faults shelf.old)) (files (S.holds shelf.new) (S.read_faults shelf.new) (S.write_faults shelf.new)) }
    ensures possible { IfOk result (λ v. AreExpandable v.items) }
{
    let bytes = load_within(alloc, shelf, name, Limited::Cif, MOST_LAYOUT_BYTES)?;
    let commands = or_stop(read_text(alloc, bytes.as_slice()));
    texts.cif = Some(bytes);
    commands
}

// The layout that commands give, by names or by the labels on an outline layer.
fn expand_by(
    alloc: Global,
    commands: &[CifCommand],
    outline: Option<LayerName>,
) -> Result<Layout, ExpandFault>
    requires { AreExpandable commands.now }
    ensures expands { AnswersAs (λ layout. layout) told_of result (expansion_by outline commands.now) }
    ensures within { IfOk result (λ layout. IsLayoutWithin (length commands.now) layout) }
{
    match outline {
        Some(outline) => expand_labelled(alloc, commands, &outline),
        None => expand(alloc, commands),
    }
}

// The same, or why the file is refused.
fn expand_commands(
    alloc: Global,
    commands: &[CifCommand],
    outline: Option<LayerName>,
) -> Result<Layout, Refusal>
    requires { AreExpandable commands.now }
    ensures says { Says (λ layout. layout) result (meaning_said (expansion_by outline commands.now)) }
    ensures measured { IfOk result IsMeasured }
    ensures near { IfOk result (λ layout. All IsCellNear layout.cells) }
{
    match expand_by(alloc, commands, outline) {
        Ok(layout) => Ok(layout),
        Err(ExpandFault::Bad { kind, at }) => Err(Refusal::Meaning(kind, at)),
        Err(ExpandFault::Memory) => Err(Refusal::Memory),
    }
}

/// The layout of a file of CIF, within the limits of the reader: its cells are told by their names, or by their labels on an outline layer, where there is to be one. The text is
/// kept, a refused one too. The files stay as they are; ReadFault comes only where the file's read count rose.
pub fn load_layout<S: Shelf>(
    alloc: Global,
    shelf: &mut S,
    name: &str,
    outline: Option<LayerName>,
    texts: &mut Texts,
) -> Result<Layout, Stop>
    ensures loads { Loads (λ layout. layout) (layout_verdict outline) (λ told. told name.now) (FileFails name.now) result
        (files (S.holds shelf.old) (S.read_faults shelf.old) (S.write_faults shelf.old)) (files (S.holds shelf.new) (S.read_faults shelf.new) (S.write_faults shelf.new)) }
    ensures measured { IfOk result IsMeasured }
    ensures near { IfOk result (λ layout. All IsCellNear layout.cells) }
{
    let commands = load_commands(alloc, shelf, name, texts)?;
    or_stop(expand_commands(alloc, commands.as_slice(), outline))
}
