//! The least or the greatest of numbers, with how many of them stand there, as one of them changes.

ghost use Rattle.row_board.specs.Extreme.{IsExtreme, across, alone_at_end, at_end, extreme_with, extreme_without, is_beyond};
ghost use Rattle.std.specs.Prelude.{◌≡◌, ◌≤◌, ℕ, List, Some, length, slice_get, slice_set};

use limits::MOST_PINS;

/// An extreme of numbers: the least of them is at their low side, the greatest at their high side.
#[derive(Clone, Copy, Debug)]
pub(crate) enum Side {
    Low,
    High,
}

impl Side {
    // Whether a number is farther out than another.
    fn is_beyond(self, number: u64, other: u64) -> bool
        ensures { result ≡ is_beyond self number other }
    {
        match self {
            Side::Low => number < other,
            Side::High => other < number,
        }
    }

    /// The side across.
    pub(crate) fn across(self) -> Side
        ensures { result ≡ across self }
    {
        match self {
            Side::Low => Side::High,
            Side::High => Side::Low,
        }
    }
}

/// The least or the greatest of numbers, and how many of them stand there.
#[derive(Clone, Copy, Debug)]
pub(crate) struct Extreme {
    pub(crate) at: u64,
    pub(crate) count: u32,
}

impl Extreme {
    /// 1 where a number stands there, else 0.
    pub(crate) fn ends(self, number: u64) -> u64
        ensures is { result ≡ at_end self number }
        ensures few { result ≤ 1 }
    {
        if number == self.at { 1 } else { 0 }
    }

    /// 1 where a number is the only one that stands there, else 0.
    pub(crate) fn ends_alone(self, number: u64) -> u64
        ensures is { result ≡ alone_at_end self number }
        ensures few { result ≤ 1 }
    {
        if self.count == 1 {
            return self.ends(number);
        }
        0
    }

    /// The extreme of numbers on a side, which is 0 where there are none. Takes no memory, and steps as their number.
    pub(crate) fn of(side: Side, numbers: &[u64]) -> Extreme
        requires { length numbers.now ≤ MOST_PINS }
        ensures is { IsExtreme side numbers.now result }
        ensures none { length numbers.now ≡ 0 → result.at ≡ 0 }
    {
        let Some((first, others)) = numbers.split_first() else {
            return Extreme { at: 0, count: 0 };
        };
        let mut extreme = Extreme {
            at: *first,
            count: 1,
        };
        for number in others {
            extreme = extreme.with_number(side, *number);
        }
        extreme
    }

    // This extreme with one number more.
    fn with_number(self, side: Side, number: u64) -> Extreme
        requires { self.count ≤ MOST_PINS }
        ensures { result ≡ extreme_with side self number }
    {
        if side.is_beyond(number, self.at) {
            return Extreme {
                at: number,
                count: 1,
            };
        }
        if number == self.at {
            return Extreme {
                at: self.at,
                count: self.count + 1,
            };
        }
        self
    }

    // This extreme with one number fewer, which may leave none there.
    fn without_number(self, number: u64) -> Extreme
        ensures { result ≡ extreme_without self number }
    {
        if number == self.at {
            return Extreme {
                at: self.at,
                count: self.count.saturating_sub(1),
            };
        }
        self
    }

    /// The extreme of numbers, one of which is now this, where this extreme was theirs before. They are measured anew only where the last one
    /// there went inwards. Takes no memory.
    pub(crate) fn moved(self, side: Side, was: u64, now: u64, numbers: &[u64]) -> Extreme
        requires count { self.count ≤ MOST_PINS }
        requires few { length numbers.now ≤ MOST_PINS }
        ensures { (old : List ℕ) (k : ℕ) → IsExtreme side old self → slice_get old k ≡ Some was → numbers.now ≡ slice_set old k now → IsExtreme side numbers.now result }
    {
        let extreme = self.with_number(side, now).without_number(was);
        if extreme.count == 0 {
            return Extreme::of(side, numbers);
        }
        extreme
    }
}
