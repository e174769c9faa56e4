//! Where the uses of each net begin in a sorted list of them, and the uses of one net.

ghost use Rattle.greedy_column.specs.Uses.{AreSorted, AreStarts, next_after};
ghost use Rattle.std.specs.Prelude.{◌≡◌, ◌<◌, ◌^◌, ℕ, IfOk, length};

use crate::table::reach;
use crate::uses::Use;
use std::alloc::{AllocError, Global};

// The places at which the uses of each net begin, and behind those of the last net the end.
pub(crate) fn starts_of(alloc: Global, uses: &[Use]) -> Result<Vec<u32>, AllocError>
    requires sorted { AreSorted uses.now }
    requires few { length uses.now < 2 ^ 32 }
    ensures { IfOk result (λ starts. AreStarts uses.now starts.items) }
{
    let mut starts = Vec::new(alloc);
    for place in 0..uses.len() {
        reach(&mut starts, uses[place].net, place as u32)?;
    }
    starts.push(uses.len() as u32)?;
    Ok(starts)
}

// The uses of a net, by where those of each net begin.
pub(crate) fn own_uses<'a>(uses: &'a [Use], starts: &[u32], net: u32) -> &'a [Use]
    requires sorted { AreSorted uses.now }
    requires starts { AreStarts uses.now starts.now }
    ensures sorted { AreSorted result.now }
    ensures own { (column : ℕ) → next_after result.now column net ≡ next_after uses.now column net }
{
    let number = net as usize;
    if number + 1 < starts.len() {
        let first = starts[number] as usize;
        let past = starts[number + 1] as usize;
        &uses[first..past]
    } else {
        &[]
    }
}
