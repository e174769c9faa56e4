//! The first of the columns over which the most nets lie.

ghost use Rattle.channel_model.specs.Density.{density_of};
ghost use Rattle.left_edge.specs.Spans.{IsFullest};
ghost use Rattle.std.specs.Prelude.{◌≡◌, ◌<◌, ◌≤◌, ◌^◌, ◌+◌, ◌-◌, if◌then◌else◌, max, nat_lt};

use crate::free::Spanned;
use crate::spans::{is_begin, is_end};

// The nets that go on from the columns so far, the most over one of these, and the first over which so many are.
#[derive(Clone, Copy)]
struct Fullness {
    open: u32,
    most: u32,
    column: u32,
}

impl Fullness {
    // With one more column, where a net may begin and one may end.
    fn with(self, column: u32, begins: bool, ends: bool) -> Fullness
        requires room { self.open + 1 < 2 ^ 32 }
        requires ended { (if ends then 1 else 0) ≤ self.open + (if begins then 1 else 0) }
        ensures going { result.open ≡ self.open + (if begins then 1 else 0) - (if ends then 1 else 0) }
        ensures most { result.most ≡ max self.most (self.open + (if begins then 1 else 0)) }
        ensures column { result.column ≡ (if nat_lt self.most (self.open + (if begins then 1 else 0)) then column else self.column) }
    {
        let over = self.open + u32::from(begins);
        Fullness {
            open: over - u32::from(ends),
            most: self.most.max(over),
            column: if self.most < over {
                column
            } else {
                self.column
            },
        }
    }
}

/// The first of the columns over which the most nets are, 0 where there are no nets, in O(W log N) time for W columns and N nets.
pub(crate) fn fullest_column(spanned: &Spanned) -> u32
    ensures fullest { 0 < density_of spanned.now.channel.now → IsFullest spanned.now.channel.now result }
    ensures none { density_of spanned.now.channel.now ≡ 0 → result ≡ 0 }
{
    let channel = spanned.channel;
    let mut fullness = Fullness {
        open: 0,
        most: 0,
        column: 0,
    };
    for column in 0..channel.top.items().len() {
        let begins = is_begin(spanned, column);
        let ends = is_end(spanned, column);
        fullness = fullness.with(column as u32, begins, ends);
    }
    fullness.column
}
