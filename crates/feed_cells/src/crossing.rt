//! Which channels a net stands in, and so which rows it crosses.

ghost use Rattle.feed_cells.specs.Crossings.{crossed_rows, is_across, is_in};
ghost use Rattle.std.specs.List.{range_with_len};
ghost use Rattle.std.specs.Prelude.{◌≡◌, ◌&&◌, ◌-◌, ℕ, nat_le, nat_lt};

/// Which channels a net stands in: none, where it has one pin; one; or all from `lo` to `hi`, where it crosses each row between them.
#[derive(Clone, Copy, Debug, PartialEq, Eq)]
pub enum Crossing {
    Alone,
    One(u32),
    Many { lo: u32, hi: u32 },
}

impl Crossing {
    /// Whether the net stands in a channel.
    pub(crate) fn is_in(self, channel: u32) -> bool
        ensures { result ≡ is_in self channel }
    {
        match self {
            Crossing::Alone => false,
            Crossing::One(only) => channel == only,
            Crossing::Many { lo, hi } => lo <= channel && channel <= hi,
        }
    }

    /// Whether the net crosses a row.
    pub(crate) fn is_across(self, row: u32) -> bool
        ensures { result ≡ is_across self row }
    {
        match self {
            Crossing::Many { lo, hi } => lo <= row && row < hi,
            _ => false,
        }
    }

    // The first row that the net crosses, and the one behind the last.
    pub(crate) fn rows(self) -> (u32, u32)
        ensures rows { range_with_len result.0 (result.1 - result.0) ≡ crossed_rows self }
        ensures across { (row : ℕ) → (nat_le result.0 row && nat_lt row result.1) ≡ is_across self row }
    {
        match self {
            Crossing::Many { lo, hi } => (lo, hi),
            _ => (0, 0),
        }
    }

    // The first channel that the net stands in, and the one behind the last.
    pub(crate) fn channels(self) -> (usize, usize)
        ensures { (channel : ℕ) → (nat_le result.0 channel && nat_lt channel result.1) ≡ is_in self channel }
    {
        match self {
            Crossing::Alone => (0, 0),
            Crossing::One(only) => (only as usize, only as usize + 1),
            Crossing::Many { lo, hi } => (lo as usize, hi as usize + 1),
        }
    }
}
