//! What the file of a netlist and that of its cells say.

ghost use Rattle.blif_reader.specs.BlifReads.{blif_reads};
ghost use Rattle.blif_reader.specs.Kept.{IsKept};
ghost use Rattle.command_inputs.specs.Failures.{FileFails};
ghost use Rattle.command_inputs.specs.NetlistFiles.{cells_verdict, netlist_said, netlist_verdict, stated_cells};
ghost use Rattle.command_inputs.specs.Reading.{Loads, Says, files};
ghost use Rattle.std.specs.Prelude.{◌≡◌, ℕ, List, IfOk, Ok, Some};
ghost use Rattle.yal_reader.specs.YalReads.{yal_reads};
ghost use Rattle.yal_reader.specs.declared.notation.Numbers.TheVariants.{Decimal};

use crate::stages::{load_within, or_stop};
use crate::texts::Texts;
use blif_reader::{BlifFault, BlifFile, read_blif};
use command_ends::{Limited, Refusal, Stop};
use limits::MOST_DESIGN_BYTES;
use shelf_io::Shelf;
use std::alloc::Global;
use yal_reader::{Numbers, YalFault, YalFile, read_yal};

// The netlist that a text is.
fn stated_netlist(alloc: Global, bytes: &[u8]) -> Result<BlifFile, Refusal>
    ensures says { Says (λ netlist. netlist) result (netlist_said (blif_reads bytes.now)) }
    ensures kept { IfOk result (λ netlist. IsKept netlist) }
{
    match read_blif(alloc, bytes) {
        Ok(netlist) => Ok(netlist),
        Err(BlifFault::Bad { kind, at }) => Err(Refusal::Blif(kind, at)),
        Err(BlifFault::Memory) => Err(Refusal::Memory),
    }
}

/// The netlist of a file of BLIF. The text is kept, a refused one too. The files stay as they are; ReadFault comes only where the file's read count rose.
pub fn load_netlist<S: Shelf>(
    alloc: Global,
    shelf: &mut S,
    name: &str,
    texts: &mut Texts,
) -> Result<BlifFile, Stop>
    ensures loads { Loads (λ netlist. netlist) netlist_verdict (λ told. told name.now) (FileFails name.now) result
        (files (S.holds shelf.old) (S.read_faults shelf.old) (S.write_faults shelf.old)) (files (S.holds shelf.new) (S.read_faults shelf.new) (S.write_faults shelf.new)) }
    ensures kept { IfOk result (λ netlist. IsKept netlist) }
{
    let bytes = load_within(alloc, shelf, name, Limited::Blif, MOST_DESIGN_BYTES)?;
    let netlist = or_stop(stated_netlist(alloc, bytes.as_slice()));
    texts.netlist = Some(bytes);
    netlist
}

/// The cells of a netlist: the text of their file, and what it says.
#[derive(Drop)]
pub struct Cells {
    pub text: Vec<u8>,
    pub file: YalFile,
}

// The modules of cells that a text states.
fn stated_cells(alloc: Global, bytes: &[u8], decimals: u32) -> Result<YalFile, Refusal>
    ensures says { Says (λ file. file) result (stated_cells decimals bytes.now) }
    ensures reads { IfOk result (λ file. yal_reads bytes.now (Decimal decimals) ≡ Ok file) }
{
    match read_yal(alloc, bytes, Numbers::Decimal(decimals)) {
        Ok(file) => Ok(file),
        Err(YalFault::Bad { kind, at }) => Err(Refusal::Yal(kind, at)),
        Err(YalFault::Memory) => Err(Refusal::Memory),
    }
}

/// The cells of a file of YAL, whose numbers have so many decimals. A refused text is kept. The files stay as they are; ReadFault comes only where the file's read count rose.
pub fn load_cells<S: Shelf>(
    alloc: Global,
    shelf: &mut S,
    name: &str,
    decimals: u32,
    texts: &mut Texts,
) -> Result<Cells, Stop>
    ensures loads { Loads (λ cells. cells.file) (cells_verdict decimals) (λ told. told name.now) (FileFails name.now) result
        (files (S.holds shelf.old) (S.read_faults shelf.old) (S.write_faults shelf.old)) (files (S.holds shelf.new) (S.read_faults shelf.new) (S.write_faults shelf.new)) }
    ensures reads { IfOk result (λ cells. yal_reads cells.text.items (Decimal decimals) ≡ Ok cells.file) }
    ensures text { IfOk result (λ cells. (bytes : List ℕ) → S.holds shelf.old name.now ≡ Some bytes → cells.text.items ≡ bytes) }
{
    let bytes = load_within(alloc, shelf, name, Limited::Cells, MOST_DESIGN_BYTES)?;
    match stated_cells(alloc, bytes.as_slice(), decimals) {
        Ok(file) => Ok(Cells { text: bytes, file }),
        Err(refusal) => {
            texts.cells = Some(bytes);
            Err(Stop::Refused(refusal))
        }
    }
}
