//! Why a command is not taken: the reason of its refusal, or want of memory.

use crate::fault::ExpandKind;
use std::alloc::{AllocError, AllocFailed};

/// Why a command is not taken: it is refused, or memory ran out.
#[derive(Clone, Copy, Debug)]
pub(crate) enum ExpandStop {
    Because(ExpandKind),
    Memory,
}

impl From<ExpandKind> for ExpandStop {
    ghost use Rattle.std.specs.Prelude.{◌≡◌};
    ghost use Rattle.cif_reader.specs.declared.refusal.ExpandStop.TheVariants as refusals;

    ghost from_gives = { λ kind refusal. refusal ≡ refusals.Because kind };

    fn from(kind: ExpandKind) -> ExpandStop {
        ExpandStop::Because(kind)
    }
}

impl From<AllocError> for ExpandStop {
    ghost use Rattle.std.specs.Prelude.{◌≡◌};
    ghost use Rattle.cif_reader.specs.declared.refusal.ExpandStop.TheVariants as refusals;

    ghost from_gives = { λ _ refusal. refusal ≡ refusals.Memory };

    fn from(_: AllocError) -> ExpandStop {
        ExpandStop::Memory
    }
}

impl<T: Drop> From<AllocFailed<T>> for ExpandStop {
    ghost use Rattle.std.specs.Prelude.{◌≡◌};
    ghost use Rattle.cif_reader.specs.declared.refusal.ExpandStop.TheVariants as refusals;

    ghost from_gives = { λ _ refusal. refusal ≡ refusals.Memory };

    fn from(_: AllocFailed<T>) -> ExpandStop {
        ExpandStop::Memory
    }
}
