//! The ids of the tracks that end in a column.

ghost use Rattle.greedy_column.specs.Follows.{AreEnded};
ghost use Rattle.std.specs.Prelude.{IfOk};

use crate::tracks::Tracks;
use std::alloc::{AllocError, Global};

// The ids of these lines, each once, in ascending order.
pub(crate) fn ended_ids(
    alloc: Global,
    tracks: &Tracks,
    ending: &[u32],
) -> Result<Vec<u32>, AllocError>
    ensures { IfOk result (λ ended. AreEnded tracks.now ending.now ended.items) }
{
    let mut ended: Vec<u32> = ending
        .iter()
        .map(|line| tracks.id_on(*line))
        .collect(alloc)?;
    ended.sort_unstable();
    ended.dedup();
    Ok(ended)
}
