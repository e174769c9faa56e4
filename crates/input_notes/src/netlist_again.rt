//! The netlist and the cells of texts that are read once more, to tell of them.

use blif_reader::{BlifFile, BlifWord, Gate, read_blif};
use indexmap::IndexSet;
use list_facts::number;
use std::alloc::{AllocError, Global};
use yal_reader::{Kind, Module, Numbers, YalFile, read_yal};

/// The texts of a netlist and of its cells, as far as they were read, and up to how many decimals the numbers of the cells have.
#[derive(Clone, Copy)]
pub struct NetlistRead<'a> {
    pub netlist: Option<&'a [u8]>,
    pub cells: Option<&'a [u8]>,
    pub decimals: u32,
}

/// A netlist, and its cells with their text.
#[derive(Drop)]
pub(crate) struct Netlist<'a> {
    pub(crate) text: &'a [u8],
    pub(crate) file: BlifFile,
    pub(crate) cells_text: &'a [u8],
    pub(crate) cells: YalFile,
}

/// The netlist and the cells that were read, if they were.
pub(crate) fn netlist_again<'a>(alloc: Global, read: NetlistRead<'a>) -> Option<Netlist<'a>> {
    let text = read.netlist?;
    let cells_text = read.cells?;
    let file = read_blif(alloc, text).ok()?;
    let cells = read_yal(alloc, cells_text, Numbers::Decimal(read.decimals)).ok()?;
    Some(Netlist {
        text,
        file,
        cells_text,
        cells,
    })
}

impl<'a> Netlist<'a> {
    /// The modules of the cells.
    pub(crate) fn modules(&self) -> &[Module] {
        self.cells.modules.items()
    }

    /// The first module of this name.
    pub(crate) fn module_named(&self, name: &[u8]) -> Option<&Module> {
        self.modules()
            .iter()
            .find(|module| module.name.items() == name)
    }

    /// The cell of this name.
    pub(crate) fn cell_named(&self, name: &[u8]) -> Option<&Module> {
        self.modules().iter().find(|module| module.kind == Kind::Standard
            && module.name.items() == name)
    }

    /// The gates.
    pub(crate) fn gates(&self) -> &[Gate] {
        self.file.gates.items()
    }

    /// The gate in which a word stands at this byte: the last whose module stands there or before it.
    pub(crate) fn gate_at(&self, at: u64) -> Option<&Gate> {
        let mut found = None;
        for gate in self.gates() {
            if gate.at <= at {
                found = Some(gate);
            }
        }
        found
    }

    /// The first terminal of the model that is another than the one at this byte, and whose word is one of these.
    pub(crate) fn other_terminal(&self, at: u64, words: &IndexSet<&[u8]>) -> Option<&BlifWord> {
        for terminals in [self.file.inputs.items(), self.file.outputs.items()] {
            for terminal in terminals {
                if terminal.at != at && words.contains(terminal.text.items()) {
                    return Some(terminal);
                }
            }
        }
        None
    }
}

/// The words that are one net with a word. The one error is want of memory.
pub(crate) fn words_joined<'m>(
    alloc: Global,
    file: &'m BlifFile,
    word: &'m [u8],
) -> Result<IndexSet<&'m [u8]>, AllocError> {
    let mut found = IndexSet::new(alloc);
    number(&mut found, word)?;
    for _ in file.joins.items() {
        let before = found.len();
        for join in file.joins.items() {
            let first = join.first.text.items();
            let second = join.second.text.items();
            if found.contains(first) || found.contains(second) {
                number(&mut found, first)?;
                number(&mut found, second)?;
            }
        }
        if found.len() == before {
            break;
        }
    }
    Ok(found)
}
