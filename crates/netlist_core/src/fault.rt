//! Why a file is refused as a design, with the number of the instance or module at fault.

use std::alloc::{AllocError, AllocFailed};
use thiserror::Error;

/// What a design may have too many of.
#[derive(Clone, Copy, Debug, PartialEq, Eq)]
pub enum Count {
    Instances,
    Pins,
}

/// Why a file was refused as a design. An instance is given by its number, a module by its number in the file.
#[derive(Clone, Copy, Debug, PartialEq, Eq, Error)]
pub enum DesignFault {
    /// No module is a PARENT.
    #[error("no module is a PARENT")]
    NoParent,
    /// More than one module is a PARENT.
    #[error("more than one module is a PARENT")]
    ManyParents,
    /// No module has the name that this instance calls.
    #[error("an instance calls a module that is not there")]
    UnknownModule(u32),
    /// This instance calls a module that is not STANDARD.
    #[error("an instance calls a module that is not STANDARD")]
    NotStandard(u32),
    /// This instance has another number of signals than its module has terminals.
    #[error("an instance has another number of signals than its module has terminals")]
    SignalCount(u32),
    /// This module's DIMENSIONS are not the four corners of a rectangle, in order.
    #[error("a module's dimensions are no rectangle")]
    NoShape(u32),
    /// This module's width is no multiple of the column, or a position is not in the middle of one of its columns, or not at one of its edges.
    #[error("a module is off the column grid")]
    OffGrid(u32),
    /// This module is too low for two pins and the space between them.
    #[error("a module is too low")]
    TooLow(u32),
    /// Two positions of this module share a point.
    #[error("two positions of a module share a point")]
    PinClash(u32),
    /// A position of this module is not on the layer that the rules name.
    #[error("a position is on another layer")]
    WrongLayer(u32),
    /// There are more than 20,000 instances, or more than 200,000 pins, and so many.
    #[error("the design is too large")]
    Limit(Count, u64),
    /// Memory ran out.
    #[error("memory ran out")]
    Memory,
}

impl From<AllocError> for DesignFault {
    ghost use Rattle.netlist_core.specs.declared.fault.DesignFault.TheVariants.{Memory};
    ghost use Rattle.std.specs.Prelude.{◌≡◌};

    ghost from_gives = { λ _ fault. fault ≡ Memory };

    fn from(_: AllocError) -> Self {
        DesignFault::Memory
    }
}

impl<T: Drop> From<AllocFailed<T>> for DesignFault {
    ghost use Rattle.netlist_core.specs.declared.fault.DesignFault.TheVariants.{Memory};
    ghost use Rattle.std.specs.Prelude.{◌≡◌};

    ghost from_gives = { λ _ fault. fault ≡ Memory };

    fn from(_: AllocFailed<T>) -> Self {
        DesignFault::Memory
    }
}
