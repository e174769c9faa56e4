//! A list of numbers with its sum, which is kept as they change.

use crate::amount::Amount;
use limits::MOST_PINS;
use std::alloc::{AllocError, Global};
use std::marker::Model;

/// Numbers with their sum, which is kept while they change: at most 200,001 numbers of at most 2^41 each. Contracts see their list.
#[derive(Drop)]
pub(crate) struct Summed {
    items: Vec<u64>,
    sum: u64,
}

impl Model for Summed {
    ghost use Rattle.std.specs.Prelude.{List, ℕ};

    ghost Value = { List ℕ };

    ghost use Rattle.row_board.specs.SummedView.{numbers_in, IsSummed};

    ghost view = { numbers_in };

    ghost invariant = { IsSummed };
}

impl Summed {
    ghost use Rattle.std.specs.Prelude.{◌≡◌, ◌≤◌, ◌<◌, ◌+◌, ◌*◌, ◌++◌, ◌∷◌, [], length, slice_set, sum, OnErr, OnOk};

    /// No numbers. Takes no memory.
    pub(crate) fn new(alloc: Global) -> Summed
        ensures { result ≡ [] }
    {
        Summed {
            items: Vec::new(alloc),
            sum: 0,
        }
    }

    /// Puts a number behind the others. The one error is want of memory.
    pub(crate) fn push(&mut self, amount: Amount) -> Result<(), AllocError>
        requires { length self.old < MOST_PINS + 1 }
        ensures put { OnOk result (self.new ≡ self.old ++ amount ∷ []) }
        ensures kept { OnErr result (self.new ≡ self.old) }
    {
        self.items.push(amount.number)?;
        self.sum += amount.number;
        Ok(())
    }

    /// Puts a number at a place, where there is this place. Takes no memory.
    pub(crate) fn set(&mut self, at: usize, amount: Amount)
        ensures { self.new ≡ slice_set self.old at amount }
    {
        if at < self.items.len() {
            self.sum -= self.items[at];
            self.sum += amount.number;
            self.items[at] = amount.number;
        }
    }

    /// The sum of the numbers. Takes no memory.
    pub(crate) fn sum(&self) -> u64
        ensures is { result ≡ sum self.now }
        ensures small { result ≤ 2199023255552 * length self.now }
        ensures few { length self.now ≤ MOST_PINS + 1 }
    {
        self.sum
    }
}
