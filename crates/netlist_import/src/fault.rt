//! Why a netlist was refused.

ghost use Rattle.std.specs.Prelude.{◌≡◌};
ghost use Rattle.netlist_import.specs.Faults.{Refuses};
ghost use Rattle.netlist_import.specs.declared.fault.ImportFault.TheVariants as faults;

use geom_core::Name;
use std::alloc::{AllocError, AllocFailed, Global};

/// What is wrong with a netlist for its cells.
#[derive(Clone, Copy, Debug, PartialEq, Eq)]
pub enum ImportKind {
    /// A module of the cells is a PARENT; the name is its name, and the place is that of the model's name.
    Parent,
    /// The model has the name of a module of the cells.
    Model,
    /// The word is a keyword where it would stand in YAL: a terminal of the model that spells ENDIOLIST, or an instance that spells ENDNETWORK.
    Keyword,
    /// A terminal of the model is on the net of another one.
    Net,
    /// A terminal or a pin is on a net whose word is that of a power terminal, VDD or GND.
    Power,
    /// A terminal or a pin is on a constant net that no gate drives.
    Constant,
    /// An instance has the name of one before it.
    Name,
    /// No STANDARD module of the cells has this name.
    Cell,
    /// A gate's module has no such pin.
    Pin,
    /// A gate has this pin twice.
    Twice,
    /// A gate lacks this pin of its module; the place is that of the gate's module.
    Missing,
}

/// What is wrong, with the word that it is about, and the byte of the BLIF text at which that stands.
#[derive(Debug, Drop)]
pub struct ImportFlaw {
    pub kind: ImportKind,
    pub name: Name,
    pub at: u64,
}

/// Why a netlist was refused: it does not fit its cells, or memory ran out.
#[derive(Debug, Drop)]
pub enum ImportFault {
    Bad(ImportFlaw),
    Memory,
}

impl From<AllocError> for ImportFault {
    ghost from_gives = { λ _ fault. fault ≡ faults.Memory };

    fn from(_: AllocError) -> ImportFault {
        ImportFault::Memory
    }
}

impl<T: Drop> From<AllocFailed<T>> for ImportFault {
    ghost from_gives = { λ _ fault. fault ≡ faults.Memory };

    fn from(_: AllocFailed<T>) -> ImportFault {
        ImportFault::Memory
    }
}

/// The fault of this kind, name and place, or want of memory for the name.
pub(crate) fn refused(alloc: Global, kind: ImportKind, name: &[u8], at: u64) -> ImportFault
    ensures { Refuses result kind name.now at }
{
    match name.to_vec(alloc) {
        Ok(name) => ImportFault::Bad(ImportFlaw {
            kind,
            name: Name::new(name),
            at,
        }),
        Err(_) => ImportFault::Memory,
    }
}
