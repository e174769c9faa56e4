//! Lists of numbers with how far they spread in all, which is kept as the numbers change.

use crate::extreme::Side;
use crate::extremes::{Ends, Extremes};
use limits::MOST_PINS;
use std::alloc::{AllocError, Global};
use std::marker::Model;

/// At most 200,001 lists of numbers up to a bound, with the sum of how far each spreads. The lists lie side by side, each with its extremes.
/// Contracts see the lists and the bound.
#[derive(Drop)]
pub(crate) struct Spreads {
    most: u64,
    numbers: Vec<u64>,
    lists: Vec<Extremes>,
    sum: u64,
}

impl Model for Spreads {
    ghost use Rattle.row_board.specs.Spreads.{NumberLists};

    ghost Value = { NumberLists };

    ghost use Rattle.row_board.specs.SpreadsView.{lists_in, AreSpreads};

    ghost view = { lists_in };

    ghost invariant = { AreSpreads };
}

impl Spreads {
    ghost use Rattle.row_board.specs.Cost.{spread};
    ghost use Rattle.row_board.specs.Extreme.{across, alone_at_end, at_end, extreme_of};
    ghost use Rattle.row_board.specs.Spreads.{NumberLists, number_put};
    ghost use Rattle.std.specs.List.{AllByRecursion};
    ghost use Rattle.std.specs.Option.{option_map};
    ghost use Rattle.std.specs.Prelude.{◌≡◌, ◌≤◌, ◌<◌, ◌+◌, ◌*◌, ◌++◌, ◌∷◌, [], ℕ, List, Some, length, map, slice_get, sum, IfOk};

    /// No lists. Takes no memory.
    pub(crate) fn new(alloc: Global, most: u64) -> Spreads
        requires { most ≤ 2199023255552 }
        ensures { result ≡ record { most = most; lists = [] } }
    {
        Spreads {
            most,
            numbers: Vec::new(alloc),
            lists: Vec::new(alloc),
            sum: 0,
        }
    }

    /// These lists, and another behind them. The one error is want of memory, which gives them up, and is also answered where they have more than
    /// 2^32 - 1 numbers.
    pub(crate) fn with_list(self, list: &[u64]) -> Result<Spreads, AllocError>
        requires few { length self.lists < MOST_PINS + 1 }
        requires short { length list.now ≤ MOST_PINS }
        requires small { AllByRecursion (λ (n : ℕ). n ≤ self.most) list.now }
        ensures { IfOk result (λ lists. lists ≡ record { most = self.most; lists = self.lists ++ list.now ∷ [] }) }
    {
        let Spreads {
            most,
            mut numbers,
            mut lists,
            sum,
        } = self;
        let start = numbers.len();
        if start > u32::MAX as usize {
            return Err(AllocError);
        }
        let extremes = Extremes::of(start as u32, list);
        numbers.extend_from_slice(list)?;
        lists.push(extremes)?;
        Ok(Spreads {
            most,
            numbers,
            lists,
            sum: sum + extremes.distance(),
        })
    }

    /// Puts a number at a place of a list, where there is this place. Takes no memory.
    #[inline(always)]
    pub(crate) fn set(&mut self, list: usize, place: usize, number: u64)
        requires { number ≤ self.old.most }
        ensures most { self.new.most ≡ self.old.most }
        ensures lists { (n : ℕ) → slice_get self.new.lists n ≡ option_map (number_put list place number n) (slice_get self.old.lists n) }
    {
        if list >= self.lists.len() {
            return;
        }
        if place >= self.lists[list].count as usize {
            return;
        }
        let extremes = &mut self.lists[list];
        let before = extremes.distance();
        extremes.put(self.numbers.as_mut_slice(), place, number);
        let now = extremes.distance();
        self.sum -= before;
        self.sum += now;
    }

    /// 1 where a number stands at the extreme on a side of a list that has any, else 0, and 1 where it stands alone at that across. Takes no memory.
    #[inline(always)]
    pub(crate) fn ends(&self, side: Side, list: usize, number: u64) -> Ends
        requires { list < length self.now.lists }
        ensures ends { (n : ℕ) (ns : List ℕ) → slice_get self.now.lists list ≡ Some (n ∷ ns) → result.ends ≡ at_end (extreme_of side (n ∷ ns)) number }
        ensures alone { (n : ℕ) (ns : List ℕ) → slice_get self.now.lists list ≡ Some (n ∷ ns) → result.alone ≡ alone_at_end (extreme_of (across side) (n ∷ ns)) number }
        ensures few { result.ends ≤ 1 }
        ensures few_alone { result.alone ≤ 1 }
    {
        self.lists[list].ends(side, number)
    }

    /// The sum of how far each list spreads. Takes no memory.
    pub(crate) fn sum(&self) -> u64
        ensures is { result ≡ sum (map spread self.now.lists) }
        ensures small { result ≤ self.now.most * length self.now.lists }
        ensures few { length self.now.lists ≤ MOST_PINS + 1 }
    {
        self.sum
    }
}
