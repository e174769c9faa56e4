//! Where each net of a channel has its next pins after a column: at one edge, at both, or nowhere.

ghost use Rattle.greedy_column.specs.Uses.{AreLasts, AreSorted, AreStarts};
ghost use Rattle.std.specs.Prelude.{◌≡◌, IfOk};

use crate::lasts::lasts_of;
use crate::starts::{own_uses, starts_of};
use crate::table::entry;
use crate::uses::{Use, first_behind, next_at, next_in, sort_by_net, uses_of};
use channel_model::Channel;
use choose_core::Next;
use std::alloc::{AllocError, Global};

/// Up to so many uses of a net are looked at one after another, which is faster there than halving.
const FEW: usize = 8;

/// For each net of a channel its pin columns.
#[derive(Debug, Drop)]
pub struct Ahead {
    uses: Vec<Use>,
    starts: Vec<u32>,
    lasts: Vec<u32>,
    ghost sorted: { AreSorted uses.items },
    ghost begun: { AreStarts uses.items starts.items },
    ghost ended: { AreLasts uses.items lasts.items },
}

impl Ahead {
    ghost use Rattle.greedy_column.specs.Ahead.{IsAhead};
    ghost use Rattle.greedy_column.specs.Entering.{is_ending};
    ghost use Rattle.greedy_column.specs.Uses.{next_after};

    /// The pin columns of the nets of a channel, in O(W log W + N) time for W columns and N as the greatest number of a net. The one
    /// error is want of memory.
    pub fn new(alloc: Global, channel: &Channel) -> Result<Ahead, AllocError>
        ensures { IfOk result (λ ahead. IsAhead channel.now ahead) }
    {
        let mut uses = uses_of(alloc, channel)?;
        let lasts = lasts_of(alloc, &uses)?;
        sort_by_net(&mut uses)?;
        let starts = starts_of(alloc, &uses)?;
        Ok(Ahead {
            uses,
            starts,
            lasts,
        })
    }

    // Where a net has its next pins after a column.
    pub fn next(&self, net: u32, column: u32) -> Next
        ensures { result ≡ next_after self.now.uses.items column net }
    {
        let own = own_uses(&self.uses, &self.starts, net);
        if own.len() > FEW {
            return next_at(first_behind(own, net, column), net);
        }
        next_in(own, net, column)
    }

    // Lends the columns of the nets' last pins, by their numbers.
    pub(crate) fn lasts(&self) -> &[u32]
        ensures { AreLasts self.now.uses.items result.now }
    {
        self.lasts.as_slice()
    }

    // Whether a net has no pins after a column.
    pub(crate) fn is_last(&self, net: u32, column: u32) -> bool
        ensures { result ≡ is_ending (next_after self.now.uses.items column net) }
    {
        entry(&self.lasts, net) <= column
    }
}
