//! What is wrong with a rules file.
use crate::Key;
use std::alloc::AllocError;
use thiserror::Error;

/// Why a rules file was not read.
#[derive(Clone, Copy, Debug, PartialEq, Eq, Error)]
pub enum RulesFault {
    /// The bytes are no UTF-8 text of TOML.
    #[error("the text is no TOML")]
    Toml,
    /// The key is absent, or what should be its table is none.
    #[error("a key is missing")]
    Missing(Key),
    /// The key's value is of another kind, or not in its range.
    #[error("a value is out of its range")]
    Range(Key),
    /// The rule of this number, 1 to 12, does not hold.
    #[error("a rule does not hold")]
    Tight(u8),
    /// Memory ran out.
    #[error("memory ran out")]
    Memory,
}

impl From<AllocError> for RulesFault {
    ghost use Rattle.std.specs.Prelude.{◌≡◌};
    ghost use Rattle.tech_rules.specs.declared.fault.RulesFault.TheVariants.{Memory};

    ghost from_gives = { λ _ fault. fault ≡ Memory };

    fn from(_: AllocError) -> Self {
        RulesFault::Memory
    }
}
