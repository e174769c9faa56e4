//! Why a channel is not wired by left edges: a column has pins of two nets, or memory ran out.

use std::alloc::AllocError;
use thiserror::Error;

/// Why a channel was not wired.
#[derive(Clone, Copy, Debug, PartialEq, Eq, Error)]
pub enum EdgeFault {
    /// A column has pins of two different nets, and this is the first such column.
    #[error("a column has pins of two nets")]
    Constrained(u32),
    /// Memory ran out.
    #[error("memory ran out")]
    Memory,
}

impl From<AllocError> for EdgeFault {
    ghost use Rattle.left_edge.specs.declared.fault.EdgeFault.TheVariants.{Memory};
    ghost use Rattle.std.specs.Prelude.{◌≡◌};

    ghost from_gives = { λ _ fault. fault ≡ Memory };

    fn from(_: AllocError) -> Self {
        EdgeFault::Memory
    }
}
