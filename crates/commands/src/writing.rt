//! A design that is laid out, written into a file.

ghost use Rattle.command_inputs.specs.Reading.{files};
ghost use Rattle.commands.specs.Changes.{IsWritten};
ghost use Rattle.commands.specs.Done.{end_seen};

use crate::done::Done;
use command_ends::Stop;
use command_jobs::Prepared;
use greedy_router::Routed;
use note_text::Notes;
use progress::Watch;
use shelf_io::{Failed, Shelf};
use std::alloc::Global;

/// Writes a design that is laid out into a file, keeps its routed channels, gives it in short, and notes what people are told of it where it was written. Takes no memory but for the notes,
/// of which is left out what memory has no room for. One that watches is told of what is written.
pub(crate) fn write_prepared<S: Shelf, W: Watch>(
    alloc: Global,
    shelf: &mut S,
    prepared: Prepared,
    out: &str,
    notes: &mut Notes,
    kept: &mut Vec<Routed>,
    watch: &mut W,
) -> Result<Done, Stop>
    ensures written { IsWritten prepared.job prepared.kept out.now (end_seen result) kept.new.items
        (files (S.holds shelf.old) (S.read_faults shelf.old) (S.write_faults shelf.old)) (files (S.holds shelf.new) (S.read_faults shelf.new) (S.write_faults shelf.new)) }
    ensures goes { W.goes watch.old watch.new }
{
    match prepared.write(shelf, out, watch) {
        Ok(()) => {
            prepared.note(alloc, notes, out);
            let written = prepared.told();
            *kept = written.kept;
            Ok(Done::LaidOut(written.summary))
        }
        Err(Failed) => {
            let cut = prepared.told();
            *kept = cut.kept;
            Err(Stop::WriteFault)
        }
    }
}
