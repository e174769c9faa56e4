//! One to four numbers, whose extremes are found by the same steps whatever they are and however many.

ghost use Rattle.row_board.specs.Few.{few_count, few_of, same};
ghost use Rattle.std.specs.Prelude.{◌≡◌, ◌≤◌, ◌<◌, ◌+◌, ◌*◌, length, max, min};

/// The most numbers that are few.
pub(crate) const FEW: usize = 4;

/// Four numbers for one to four of a list: its last one stands for so many that are lacking, too.
#[derive(Clone, Copy)]
pub(crate) struct Few {
    first: u64,
    second: u64,
    third: u64,
    fourth: u64,
    lacking: u32,
}

// 1 where two numbers are the same, else 0.
fn same(number: u64, other: u64) -> u32
    ensures is { result ≡ same number other }
    ensures few { result ≤ 1 }
{
    if number == other { 1 } else { 0 }
}

impl Few {
    /// One to four numbers. Takes no memory.
    pub(crate) fn of(numbers: &[u64]) -> Few
        requires some { 0 < length numbers.now }
        requires few { length numbers.now ≤ 4 }
        ensures { result ≡ few_of numbers.now }
    {
        let last = numbers.len() - 1;
        Few {
            first: numbers[0],
            second: numbers[last.min(1)],
            third: numbers[last.min(2)],
            fourth: numbers[last.min(3)],
            lacking: 3 - last as u32,
        }
    }

    /// The least of them.
    pub(crate) fn least(self) -> u64
        ensures { result ≡ min (min (min self.first self.second) self.third) self.fourth }
    {
        self.first.min(self.second).min(self.third).min(self.fourth)
    }

    /// The greatest of them.
    pub(crate) fn greatest(self) -> u64
        ensures { result ≡ max (max (max self.first self.second) self.third) self.fourth }
    {
        self.first.max(self.second).max(self.third).max(self.fourth)
    }

    /// How often a number stands among them.
    pub(crate) fn count(self, number: u64) -> u32
        requires { self.lacking * same self.fourth number ≤ same self.first number + same self.second number + same self.third number + same self.fourth number }
        ensures { result ≡ few_count self number }
    {
        let last = same(self.fourth, number);
        let all = same(self.first, number)
            + same(self.second, number)
            + same(self.third, number)
            + last;
        all - self.lacking * last
    }
}
