//! Groups of joined tracks: which lines are joined to others, and the lines of a group from its lowest one up.

ghost use Rattle.greedy_column.specs.Ending.{chain_from, is_joined_above, is_joined_below};
ghost use Rattle.std.specs.Prelude.{◌≡◌, ◌==◌, ◌<◌, ◌^◌, IfOk, length};

use crate::pairs::Pairs;
use std::alloc::{AllocError, Global};

impl Pairs {
    // Whether a line is joined to one below it, where these are joined.
    pub(crate) fn is_joined_below(&self, line: u32) -> bool
        ensures { result ≡ is_joined_below self.now line }
    {
        self.list().iter().any(|pair| pair.high == line)
    }

    // Whether a line is joined to one above it, where these are joined.
    pub(crate) fn is_joined_above(&self, line: u32) -> bool
        ensures { result ≡ is_joined_above self.now line }
    {
        self.list().iter().any(|pair| pair.low == line)
    }
}

// The lines of the group whose lowest line is this one.
pub(crate) fn chain(alloc: Global, joined: &Pairs, first: u32) -> Result<Vec<u32>, AllocError>
    ensures group { IfOk result (λ group. group.items ≡ chain_from joined.now first) }
    ensures few { IfOk result (λ group. length group.items < 2 ^ 32) }
{
    let mut group = Vec::new(alloc);
    let mut line = first;
    let mut rest = joined.list();
    while let Some((pair, later)) = rest.split_first() {
        rest = later;
        if pair.low != line {
            continue;
        }
        group.push(line)?;
        line = pair.high;
    }
    group.push(line)?;
    Ok(group)
}
