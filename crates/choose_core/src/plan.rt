//! Two manners of taking a column, the sweeps of a channel that a style tries, and the style itself.

use crate::chooser::Chooser;
use geom_core::Items;
use std::alloc::Global;

/// In which manner a sweep takes a column.
#[derive(Clone, Copy, Debug, PartialEq, Eq)]
pub enum Manner {
    /// As Rivest and Fiduccia published it (1982): a new track stands as near to the middle as it may, and the kept tracks move from
    /// bottom to top.
    Published,
    /// A new track stands as near to its net's next pins as it may; a new track goes to the pin whose net holds none; and the tracks of
    /// split nets move first, then those that have the farthest to go.
    LookingAhead,
}

/// The sweeps of a channel that a style tries: their manner, and with how many free tracks each of them begins, in hundredths of the
/// channel's cut density. There is one at least.
#[derive(Debug, Drop)]
pub struct Plan {
    pub manner: Manner,
    pub first: u32,
    pub others: Items<u32>,
}

/// A named style of routing channels: how its sweeps choose, and which sweeps it tries.
#[derive(Drop)]
pub struct Style {
    pub chooser: Chooser,
    pub plan: Plan,
}

impl Plan {
    ghost use Rattle.std.specs.Prelude.{◌≡◌, []};

    /// One sweep, which begins with this share of the cut density. Takes no memory.
    pub fn of_one(alloc: Global, manner: Manner, first: u32) -> Plan
        ensures { result ≡ record { manner = manner; first = first; others = [] } }
    {
        Plan {
            manner,
            first,
            others: Items::new(Vec::new(alloc)),
        }
    }
}
