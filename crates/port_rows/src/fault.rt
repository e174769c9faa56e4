//! Why a design does not get its ports.

use geom_core::Name;
use netlist_core::Count;
use std::alloc::{AllocError, AllocFailed};
use thiserror::Error;

/// Why a design does not get its ports.
#[derive(Debug, Drop, Error)]
pub enum PortFault {
    /// With its ports the design has more than 20,000 instances, or more than 200,000 pins, and so many.
    #[error("the design with its ports is too large")]
    Limit(Count, u64),
    /// A module has the name of a kind of ports, or an instance that of a port's instance: this name.
    #[error("a module or an instance has the name that a port would have")]
    Clash(Name),
    /// Memory ran out.
    #[error("memory ran out")]
    Memory,
}

impl From<AllocError> for PortFault {
    ghost use Rattle.port_rows.specs.declared.fault.PortFault.TheVariants.{Memory};
    ghost use Rattle.std.specs.Prelude.{◌≡◌};

    ghost from_gives = { λ _ fault. fault ≡ Memory };

    fn from(_: AllocError) -> Self {
        PortFault::Memory
    }
}

impl<T: Drop> From<AllocFailed<T>> for PortFault {
    ghost use Rattle.port_rows.specs.declared.fault.PortFault.TheVariants.{Memory};
    ghost use Rattle.std.specs.Prelude.{◌≡◌};

    ghost from_gives = { λ _ fault. fault ≡ Memory };

    fn from(_: AllocFailed<T>) -> Self {
        PortFault::Memory
    }
}
