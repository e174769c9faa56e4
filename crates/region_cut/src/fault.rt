//! Why a polygon is not cut.

use std::alloc::{AllocError, AllocFailed};
use thiserror::Error;

/// Why a polygon is not cut.
#[derive(Clone, Copy, Debug, PartialEq, Eq, Error)]
pub enum CutFault {
    /// The polygon has more maximal blocks than were asked for.
    #[error("the polygon has too many maximal blocks")]
    TooMany,
    /// Memory ran out.
    #[error("memory ran out")]
    Memory,
}

impl From<AllocError> for CutFault {
    ghost use Rattle.region_cut.specs.declared.fault.CutFault.TheVariants.{Memory};
    ghost use Rattle.std.specs.Prelude.{◌≡◌};

    ghost from_gives = { λ _ fault. fault ≡ Memory };

    fn from(_: AllocError) -> Self {
        CutFault::Memory
    }
}

impl<T: Drop> From<AllocFailed<T>> for CutFault {
    ghost use Rattle.region_cut.specs.declared.fault.CutFault.TheVariants.{Memory};
    ghost use Rattle.std.specs.Prelude.{◌≡◌};

    ghost from_gives = { λ _ fault. fault ≡ Memory };

    fn from(_: AllocFailed<T>) -> Self {
        CutFault::Memory
    }
}
