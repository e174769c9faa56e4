//! The least and the greatest of a list of numbers, which are kept as the numbers change.

ghost use Rattle.row_board.specs.Extreme.{IsExtreme, across, alone_at_end, at_end};
ghost use Rattle.row_board.specs.Extremes.{AreExtremes, extreme_at, high_extreme, low_extreme, part_of};
ghost use Rattle.row_board.specs.declared.extreme.Side.TheVariants.{Low, High};
ghost use Rattle.std.specs.Prelude.{◌≡◌, ◌≤◌, ◌<◌, ◌+◌, ◌-◌, ℕ, List, Some, length, slice_get, slice_set};

use crate::extreme::{Extreme, Side};
use crate::few::{FEW, Few};
use limits::MOST_PINS;

/// The extremes of a list of numbers: the least and the greatest of them, and how many stand at either; with the place of the first of them among all
/// numbers, and how many they are.
#[derive(Clone, Copy, Debug)]
pub(crate) struct Extremes {
    pub(crate) least: u64,
    pub(crate) greatest: u64,
    pub(crate) start: u32,
    pub(crate) at_least: u32,
    pub(crate) at_greatest: u32,
    pub(crate) count: u32,
}

/// How many numbers stand at the extremes of their lists on a side, and how many stand alone at those across.
#[derive(Clone, Copy)]
pub(crate) struct Ends {
    pub(crate) ends: u64,
    pub(crate) alone: u64,
}

impl Extremes {
    /// The extremes of these numbers, the first of which lies at a place. Takes no memory, and steps as the number of numbers.
    pub(crate) fn of(start: u32, numbers: &[u64]) -> Extremes
        requires { length numbers.now ≤ MOST_PINS }
        ensures start { result.start ≡ start }
        ensures is { AreExtremes numbers.now result }
    {
        let low = Extreme::of(Side::Low, numbers);
        let high = Extreme::of(Side::High, numbers);
        Extremes {
            least: low.at,
            greatest: high.at,
            start,
            at_least: low.count,
            at_greatest: high.count,
            count: numbers.len() as u32,
        }
    }

    // The extremes of one to four numbers.
    fn of_few(start: u32, numbers: &[u64]) -> Extremes
        requires some { 0 < length numbers.now }
        requires few { length numbers.now ≤ 4 }
        ensures start { result.start ≡ start }
        ensures is { AreExtremes numbers.now result }
    {
        let few = Few::of(numbers);
        let least = few.least();
        let greatest = few.greatest();
        Extremes {
            least,
            greatest,
            start,
            at_least: few.count(least),
            at_greatest: few.count(greatest),
            count: numbers.len() as u32,
        }
    }

    /// The extreme of the numbers on a side.
    pub(crate) fn extreme(self, side: Side) -> Extreme
        ensures { result ≡ extreme_at side self }
    {
        match side {
            Side::Low => Extreme {
                at: self.least,
                count: self.at_least,
            },
            Side::High => Extreme {
                at: self.greatest,
                count: self.at_greatest,
            },
        }
    }

    /// 1 where a number stands at the extreme on a side, else 0, and 1 where it stands alone at that across.
    #[inline(always)]
    pub(crate) fn ends(&self, side: Side, number: u64) -> Ends
        ensures ends { result.ends ≡ at_end (extreme_at side self.now) number }
        ensures alone { result.alone ≡ alone_at_end (extreme_at (across side) self.now) number }
        ensures few { result.ends ≤ 1 }
        ensures few_alone { result.alone ≤ 1 }
    {
        Ends {
            ends: self.extreme(side).ends(number),
            alone: self.extreme(side.across()).ends_alone(number),
        }
    }

    /// The greatest of the numbers less the least, and 0 where there are none. Takes no memory.
    pub(crate) fn distance(self) -> u64
        ensures { result ≡ self.greatest - self.least }
    {
        self.greatest.saturating_sub(self.least)
    }

    // Keeps the least of the numbers, one of which is now this.
    fn keep_least(&mut self, was: u64, now: u64, numbers: &[u64])
        requires count { self.old.at_least ≤ MOST_PINS }
        requires few { length numbers.now ≤ MOST_PINS }
        ensures rest { self.new ≡ record self.old { least = self.new.least; at_least = self.new.at_least } }
        ensures is { (old : List ℕ) (k : ℕ) → IsExtreme Low old (low_extreme self.old) → slice_get old k ≡ Some was → numbers.now ≡ slice_set old k now → IsExtreme Low numbers.now (low_extreme self.new) }
    {
        // Most numbers move where they meet no extreme.
        if self.least < was && self.least < now {
            return;
        }
        let low = self.extreme(Side::Low).moved(Side::Low, was, now, numbers);
        self.least = low.at;
        self.at_least = low.count;
    }

    // Keeps the greatest of them.
    fn keep_greatest(&mut self, was: u64, now: u64, numbers: &[u64])
        requires count { self.old.at_greatest ≤ MOST_PINS }
        requires few { length numbers.now ≤ MOST_PINS }
        ensures rest { self.new ≡ record self.old { greatest = self.new.greatest; at_greatest = self.new.at_greatest } }
        ensures is { (old : List ℕ) (k : ℕ) → IsExtreme High old (high_extreme self.old) → slice_get old k ≡ Some was → numbers.now ≡ slice_set old k now → IsExtreme High numbers.now (high_extreme self.new) }
    {
        if was < self.greatest && now < self.greatest {
            return;
        }
        let high = self
            .extreme(Side::High)
            .moved(Side::High, was, now, numbers);
        self.greatest = high.at;
        self.at_greatest = high.count;
    }

    // Keeps the extremes of the numbers, one of which is now this.
    #[inline(never)]
    fn keep(&mut self, was: u64, now: u64, numbers: &[u64])
        requires least { self.old.at_least ≤ MOST_PINS }
        requires greatest { self.old.at_greatest ≤ MOST_PINS }
        requires few { length numbers.now ≤ MOST_PINS }
        ensures rest { self.new ≡ record self.old { least = self.new.least; at_least = self.new.at_least; greatest = self.new.greatest; at_greatest = self.new.at_greatest } }
        ensures low { (old : List ℕ) (k : ℕ) → IsExtreme Low old (low_extreme self.old) → slice_get old k ≡ Some was → numbers.now ≡ slice_set old k now → IsExtreme Low numbers.now (low_extreme self.new) }
        ensures high { (old : List ℕ) (k : ℕ) → IsExtreme High old (high_extreme self.old) → slice_get old k ≡ Some was → numbers.now ≡ slice_set old k now → IsExtreme High numbers.now (high_extreme self.new) }
    {
        self.keep_least(was, now, numbers);
        self.keep_greatest(was, now, numbers);
    }

    /// Puts a number at a place of the list, and keeps the extremes. Takes no memory.
    #[inline(always)]
    pub(crate) fn put(&mut self, numbers: &mut [u64], place: usize, number: u64)
        requires is { AreExtremes (part_of numbers.old self.old) self.old }
        requires within { self.old.start + self.old.count ≤ length numbers.old }
        requires few { self.old.count ≤ MOST_PINS }
        requires place { place < self.old.count }
        ensures numbers { numbers.new ≡ slice_set numbers.old (self.old.start + place) number }
        ensures start { self.new.start ≡ self.old.start }
        ensures count { self.new.count ≡ self.old.count }
        ensures is { AreExtremes (part_of numbers.new self.old) self.new }
    {
        let start = self.start as usize;
        let end = start + self.count as usize;
        let at = start + place;
        let was = numbers[at];
        numbers[at] = number;
        let part = &numbers[start..end];
        // Of few numbers nearly each stands at an end, and which cannot be foretold: they are measured anew, by steps that branch on none of them.
        if part.len() <= FEW {
            *self = Extremes::of_few(self.start, part);
            return;
        }
        self.keep(was, number, part);
    }
}
