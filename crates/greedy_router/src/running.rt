//! Takes column after column until no net holds a track behind the last pins, or the limits are passed.

ghost use Rattle.greedy_column.specs.Held.{held_count};
ghost use Rattle.greedy_router.specs.Answers.{IsChannelRouted};
ghost use Rattle.greedy_router.specs.Begun.{begun_of};
ghost use Rattle.greedy_router.specs.Running.{is_going, is_held, is_past, is_wanted};
ghost use Rattle.greedy_router.specs.Runs.{routed_of};
ghost use Rattle.greedy_router.specs.Sweeps.{Lessens};
ghost use Rattle.std.specs.Prelude.{◌≡◌, IfOk};

use crate::idle::{is_idle, next_column};
use crate::run::Run;
use crate::run_limits::{Limits, Start};
use crate::surveyed::Surveyed;
use choose_core::Chooses;
use greedy_column::{ColumnState, Desk, Track};
use std::alloc::{AllocError, Global};

// How many tracks nets hold.
fn held_count(tracks: &[Track]) -> usize
    ensures { result ≡ held_count tracks.now }
{
    tracks.iter().filter(|track| track.net != 0).count()
}

// Whether a net holds a track.
fn is_held(tracks: &[Track]) -> bool
    ensures { result ≡ is_held tracks.now }
{
    held_count(tracks) > 0
}

// Whether these are too many tracks, or a net holds one after the last column that may be taken.
fn is_past(tracks: &[Track], taken: usize, last: usize, most: u32) -> bool
    ensures { result ≡ is_past tracks.now taken last most }
{
    tracks.len() > most as usize || (taken == last && is_held(tracks))
}

// Whether there is a column to take.
fn is_wanted(tracks: &[Track], taken: usize, width: usize) -> bool
    ensures { result ≡ is_wanted tracks.now taken width }
{
    taken < width || is_held(tracks)
}

// Whether the sweep goes on.
fn is_going(tracks: &[Track], taken: usize, width: usize, last: usize, most: u32) -> bool
    ensures { result ≡ is_going tracks.now taken width last most }
{
    !is_past(tracks, taken, last, most) && is_wanted(tracks, taken, width)
}

// Takes columns as long as the sweep goes on.
pub(crate) fn run_columns<'s, C: Chooses>(
    alloc: Global,
    surveyed: &'s Surveyed<'s>,
    start: Start,
    limits: Limits,
    chooser: &C,
) -> Result<Run<'s>, AllocError>
    ensures routed { IfOk result (λ run. IsChannelRouted start.manner (begun_of start.share surveyed.now.channel.now) (C.answers chooser.now)
        surveyed.now.channel.now limits.tracks limits.extra (routed_of run)) }
    ensures lessens { IfOk result (λ run. Lessens surveyed.now.channel.now run.sweep) }
{
    let channel = surveyed.channel;
    let Start { manner, share } = start;
    let Limits { tracks, extra } = limits;
    let begun = surveyed.begun(share);
    let mut state = ColumnState::new(alloc, begun)?;
    let mut desk = Desk::new(alloc);
    let mut columns = Vec::new(alloc);
    let width = channel.top.items().len();
    let last = width + extra as usize;
    let mut idle = false;
    'columns: while is_going(state.order.items(), columns.len(), width, last, tracks) {
        let column = columns.len() as u32;
        let done = next_column(
            alloc, &mut desk, &mut state, surveyed, column, manner, chooser, idle,
        )?;
        idle = is_idle(channel, column, &done);
        columns.push(done)?;
    }
    let over = is_past(state.order.items(), columns.len(), last, tracks);
    Ok(Run {
        surveyed,
        begun,
        columns,
        state,
        over,
    })
}
