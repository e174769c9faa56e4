//! What may be refused, and why.

ghost use Rattle.command_ends.specs.Status.{refusal_status};
ghost use Rattle.std.specs.Prelude.{◌≡◌};

use blif_reader::BlifKind;
use cif_reader::ExpandKind;
use cif_text::CifKind;
use geom_core::Name;
use netlist_core::DesignFault;
use netlist_import::ImportFlaw;
use std::alloc::AllocError;
use tech_rules::Key;
use yal_reader::YalKind;

/// What may pass a limit.
#[derive(Clone, Copy, Debug, PartialEq, Eq)]
pub enum Limited {
    /// The bytes of the rules file.
    Rules,
    /// The bytes of the design's file.
    Design,
    /// The bytes of the layout's file.
    Cif,
    /// The bytes of the file of a netlist that comes in.
    Blif,
    /// The bytes of the file of its cells.
    Cells,
    /// The instances of the design.
    Instances,
    /// The pins of the design.
    Pins,
    /// The changes that annealing tries.
    Moves,
    /// The columns of all channels together.
    Grid,
    /// The width of the layout in centimicrons.
    Width,
    /// The height of the layout in centimicrons.
    Height,
    /// The shapes that a picture shows.
    Picture,
}

/// Why there is nothing to write or to judge.
#[derive(Debug, Drop)]
pub enum Refusal {
    /// The words are no command.
    Usage,
    /// The rules file is no text of TOML.
    Toml,
    /// A key of the rules file is missing.
    Missing(Key),
    /// The value at a key of the rules file is of another kind, or out of its range.
    Range(Key),
    /// The rule of this number does not hold.
    Tight(u8),
    /// The design's file is no YAL, for this reason at this byte.
    Yal(YalKind, u64),
    /// The file is no design, for this reason, which is neither a limit nor want of memory; with the name of the instance or of the
    /// module that it speaks of.
    Design(DesignFault, Option<Name>),
    /// A module or an instance of the design has this name, which a kind or an instance of its ports would have.
    PortClash(Name),
    /// The file of a netlist is no BLIF, for this reason at this byte.
    Blif(BlifKind, u64),
    /// The netlist does not fit its cells, for this reason, with the word that it is about and the byte of that.
    Import(ImportFlaw),
    /// The layout's file is no text of CIF, for this reason at this byte.
    Cif(CifKind, u64),
    /// Its commands give no layout, for this reason at the command of this number.
    Meaning(ExpandKind, u32),
    /// A limit is passed. The number is the limit itself for a file, and else how many there are.
    Limit(Limited, u64),
    /// Memory ran out.
    Memory,
}

impl From<AllocError> for Refusal {
    ghost use Rattle.command_ends.specs.declared.refusal.Refusal.TheVariants.{Memory};

    ghost from_gives = { λ _ refusal. refusal ≡ Memory };

    fn from(_: AllocError) -> Self {
        Refusal::Memory
    }
}

impl Refusal {
    /// The number with which the program ends. Takes no memory.
    pub fn status(&self) -> u8
        ensures { result ≡ refusal_status self.now }
    {
        match self {
            Refusal::Usage => 2,
            Refusal::Yal(..) | Refusal::Blif(..) => 3,
            Refusal::Toml | Refusal::Missing(_) | Refusal::Range(_) | Refusal::Tight(_) => 4,
            Refusal::Design(..) | Refusal::PortClash(_) | Refusal::Import(_) => 5,
            Refusal::Limit(..) => 6,
            Refusal::Cif(..) | Refusal::Meaning(..) => 7,
            Refusal::Memory => 10,
        }
    }
}
