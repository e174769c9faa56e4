//! Marks of nets in a table by their numbers: those of more than one group of tracks.

ghost use Rattle.greedy_column.specs.Desk.{IsBlank, MarksSplit, MarksWithin, is_marked};
ghost use Rattle.std.specs.Prelude.{◌≡◌, ◌==◌, ◌&&◌, ◌||◌, ℕ, OnOk, not};

use crate::span::Span;
use crate::table::{entry, put, reach};
use std::alloc::AllocError;

// Marks the nets of neighbouring tracks that no vertical joins.
pub(crate) fn mark_split(
    marks: &mut Vec<u32>,
    pairs: &[Span],
    spans: &[Span],
) -> Result<(), AllocError>
    requires { IsBlank marks.old.items }
    ensures { OnOk result (MarksSplit spans.now pairs.now marks.new.items) }
{
    let mut rest = pairs;
    while let Some((pair, others)) = rest.split_first() {
        mark(marks, pair.net, pair.is_joined(spans))?;
        rest = others;
    }
    Ok(())
}

// Marks the net of a pair, unless it is joined.
fn mark(marks: &mut Vec<u32>, net: u32, joined: bool) -> Result<(), AllocError>
    ensures { OnOk result ((k : ℕ) → is_marked marks.new.items k ≡ ((net == k && not joined) || is_marked marks.old.items k)) }
{
    if joined {
        return Ok(());
    }
    reach(marks, net, 0)?;
    put(marks, net, 1);
    Ok(())
}

// Takes all marks away, where no nets are marked but those of these pairs.
pub(crate) fn unmark(marks: &mut Vec<u32>, pairs: &[Span])
    requires { MarksWithin pairs.now marks.old.items }
    ensures { IsBlank marks.new.items }
{
    let mut rest = pairs;
    while let Some((pair, others)) = rest.split_first() {
        put(marks, pair.net, 0);
        rest = others;
    }
}

// Whether a net is marked.
pub(crate) fn is_marked(marks: &[u32], net: u32) -> bool
    ensures { result ≡ is_marked marks.now net }
{
    entry(marks, net) != 0
}
