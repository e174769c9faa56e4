//! A number of at most 2^41, as a row may miss its width.

use std::marker::Model;

/// A number of at most 2^41, which contracts see as the number.
#[derive(Clone, Copy)]
pub(crate) struct Amount {
    pub(crate) number: u64,
}

impl Model for Amount {
    ghost use Rattle.std.specs.Prelude.{◌≤◌, ℕ};

    ghost Value = { ℕ };

    ghost view = { λ a. a.number };

    ghost invariant = { λ a. a.number ≤ 2199023255552 };

    ghost inverse = { λ n. record { number = n } };
}
