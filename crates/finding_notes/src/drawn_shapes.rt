//! How many shapes each command of CIF draws.

use crate::untold::Untold;
use cif_text::CifCommand;
use geom_core::Corner;
use limits::MOST_SHAPES;
use region_cut::cut;
use std::alloc::Global;
use std::collections::BTreeMap;

/// How many shapes each symbol has whose definition has ended.
pub(crate) type Symbols = BTreeMap<u64, u64>;

// How many shapes a wire along a path gives: one for each step, and one for a single point.
fn steps_of(path: &[Corner]) -> u64 {
    match path {
        [] => 0,
        [_] => 1,
        [_, steps @ ..] => steps.len() as u64,
    }
}

// How many shapes a polygon gives: its blocks, which are as many at every scale.
fn blocks_of(alloc: Global, path: &[Corner]) -> Result<u64, Untold> {
    match cut(alloc, path, MOST_SHAPES as u64) {
        Ok(blocks) => Ok(blocks.len() as u64),
        Err(_) => Err(Untold),
    }
}

/// How many shapes a command draws.
pub(crate) fn shapes_of(
    alloc: Global,
    symbols: &Symbols,
    command: &CifCommand,
) -> Result<u64, Untold> {
    match command {
        CifCommand::Box { .. } => Ok(1),
        CifCommand::Wire { path, .. } => Ok(steps_of(path.items())),
        CifCommand::Polygon { path } => blocks_of(alloc, path.items()),
        CifCommand::Call { n, .. } => symbols.get(n).copied().ok_or(Untold),
        _ => Ok(0),
    }
}
