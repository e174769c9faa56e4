//! The command to make a design of a netlist that comes from logic synthesis.

ghost use Rattle.command_inputs.specs.Reading.{Says, files};
ghost use Rattle.command_words.specs.Command as asked;
ghost use Rattle.command_words.specs.Seen.{import_seen};
ghost use Rattle.commands.specs.Carried.{Carried};
ghost use Rattle.commands.specs.Changes.{IsTextWritten};
ghost use Rattle.commands.specs.Done.{end_seen};
ghost use Rattle.commands.specs.Imported.{import_said};
ghost use Rattle.netlist_import.specs.Carries.{CanBeWritten, Carries};
ghost use Rattle.netlist_import.specs.Parent.{parent_of};
ghost use Rattle.std.specs.Prelude.{◌≡◌, ◌++◌, [], IfOk, Some};
ghost use Rattle.yal_writer.specs.ParentText.{parent_text};
ghost use Rattle.yal_writer.specs.ReadsBack.{ReadsBack};

use crate::done::Done;
use crate::heard::Heard;
use blif_reader::BlifFile;
use command_ends::{Refusal, Stop};
use command_inputs::{load_cells, load_netlist};
use command_words::Import;
use netlist_import::{ImportFault, parent_of};
use note_text::Notes;
use shelf_io::{Failed, Shelf};
use std::alloc::{AllocError, Global};
use yal_reader::{Module, YalFile};
use yal_writer::write_yal;

// The PARENT of a netlist over its cells.
fn parent_in(alloc: Global, netlist: &BlifFile, cells: &YalFile) -> Result<Module, Refusal>
    ensures says { Says (λ parent. parent) result (import_said (parent_of netlist.now cells.now)) }
    ensures carries { IfOk result (λ parent. Carries netlist.now cells.now.modules parent) }
    ensures writable { IfOk result (λ parent. CanBeWritten netlist.now cells.now parent) }
{
    match parent_of(alloc, netlist, cells) {
        Ok(parent) => Ok(parent),
        Err(ImportFault::Bad(flaw)) => Err(Refusal::Import(flaw)),
        Err(ImportFault::Memory) => Err(Refusal::Memory),
    }
}

// Notes how many calls a design has, of how many gates. What memory has no room for is left out.
fn note_imported(
    alloc: Global,
    notes: &mut Notes,
    out: &str,
    calls: usize,
    modules: usize,
) -> Result<(), AllocError> {
    notes.note(format!(in alloc;
        "{out}: a PARENT of {calls} calls, behind {modules} modules of cells"
    )?);
    Ok(())
}

// Writes the text of cells and a PARENT behind it into a file. Takes no memory.
fn import_in<S: Shelf>(
    shelf: &mut S,
    file: &str,
    cells: &[u8],
    parent: &Module,
) -> Result<Done, Stop>
    ensures written { IsTextWritten (cells.now ++ parent_text parent.now) file.now (end_seen result)
        (files (S.holds shelf.old) (S.read_faults shelf.old) (S.write_faults shelf.old)) (files (S.holds shelf.new) (S.read_faults shelf.new) (S.write_faults shelf.new)) }
    ensures reads { ReadsBack parent.now }
{
    match write_yal(shelf, file, cells, parent) {
        Ok(()) => Ok(Done::Wrote),
        Err(Failed) => Err(Stop::WriteFault),
    }
}

/// Reads a netlist and its cells, and writes these with the netlist's PARENT behind them into a file. All other files stay as they are.
pub(crate) fn import<S: Shelf>(
    alloc: Global,
    shelf: &mut S,
    names: &Import<'_>,
    heard: &mut Heard,
) -> Result<Done, Stop>
    ensures { Carried (Some (asked.import (import_seen names.now))) (end_seen result) []
        (files (S.holds shelf.old) (S.read_faults shelf.old) (S.write_faults shelf.old)) (files (S.holds shelf.new) (S.read_faults shelf.new) (S.write_faults shelf.new)) }
{
    let netlist = load_netlist(alloc, shelf, names.netlist, &mut heard.texts)?;
    let cells = load_cells(alloc, shelf, names.cells, names.decimals, &mut heard.texts)?;
    match parent_in(alloc, &netlist, &cells.file) {
        Ok(parent) => {
            let calls = netlist.gates.items().len();
            let modules = cells.file.modules.items().len();
            let _ = note_imported(alloc, &mut heard.notes, names.out, calls, modules);
            import_in(shelf, names.out, cells.text.as_slice(), &parent)
        }
        Err(refusal) => {
            heard.texts.cells = Some(cells.text);
            Err(Stop::Refused(refusal))
        }
    }
}
