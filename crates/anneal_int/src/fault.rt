//! Why rows are not annealed: there are too many changes, or memory ran out.

use std::alloc::AllocError;
use thiserror::Error;

/// Why rows were not annealed.
#[derive(Clone, Copy, Debug, PartialEq, Eq, Error)]
pub enum AnnealFault {
    /// There are more than 50,000,000 changes, and so many.
    #[error("there are too many changes")]
    TooMuch(u64),
    /// Memory ran out.
    #[error("memory ran out")]
    Memory,
}

impl From<AllocError> for AnnealFault {
    ghost use Rattle.anneal_int.specs.declared.fault.AnnealFault.TheVariants.{Memory};
    ghost use Rattle.std.specs.Prelude.{◌≡◌};

    ghost from_gives = { λ _ fault. fault ≡ Memory };

    fn from(_: AllocError) -> Self {
        AnnealFault::Memory
    }
}
