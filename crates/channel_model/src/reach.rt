//! From its first to its last pin column: how far each net reaches along one edge of a channel.

ghost use Rattle.channel_model.specs.Reach.{reach_to, reach_of};
ghost use Rattle.std.specs.List.Sorted.{IsStrictlyIncreasing};
ghost use Rattle.std.specs.Prelude.{◌≡◌, ◌<◌, ◌≤◌, ◌^◌, ℕ, IfOk, Contains, length, slice_index, map};

use crate::nets::place_of;
use std::alloc::{AllocError, Global};

/// From a net's first pin to its last one, by their columns.
#[derive(Clone, Copy, Debug, PartialEq, Eq)]
pub struct Reach {
    pub first: u32,
    pub last: u32,
}

// A reach that goes on to a column.
fn reach_to(reach: Option<Reach>, column: u32) -> Reach
    ensures { result ≡ reach_to reach column }
{
    match reach {
        Some(reach) => Reach {
            first: reach.first,
            last: column,
        },
        None => Reach {
            first: column,
            last: column,
        },
    }
}

/// For each net its reach along an edge, `None` where it has no pin there, in O(W log N) time for W columns and N nets.
/// The one error is want of memory.
pub fn reaches(alloc: Global, side: &[u32], nets: &[u32]) -> Result<Vec<Option<Reach>>, AllocError>
    requires ascending { IsStrictlyIncreasing nets.now }
    requires listed { (column : ℕ) → 0 < slice_index side.now column → Contains nets.now (slice_index side.now column) }
    requires positive { (net : ℕ) → Contains nets.now net → 0 < net }
    requires short { length side.now < 2 ^ 32 }
    ensures { IfOk result (λ reaches. reaches.items ≡ map (λ net. reach_of side.now net (length side.now)) nets.now) }
{
    let mut reaches = no_reaches(alloc, nets)?;
    for column in 0..side.len() {
        let net = side[column];
        if net == 0 {
            continue;
        }
        let place = place_of(nets, net);
        reaches[place] = Some(reach_to(reaches[place], column as u32));
    }
    Ok(reaches)
}

// No reach for any of these nets.
fn no_reaches(alloc: Global, nets: &[u32]) -> Result<Vec<Option<Reach>>, AllocError>
    ensures { IfOk result (λ reaches. reaches.items ≡ map (λ _. None) nets.now) }
{
    nets.iter().map(|_| None).collect(alloc)
}
