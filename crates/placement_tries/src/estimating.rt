//! How large the layout of a placement is likely to be.

ghost use Rattle.channel_model.specs.Pins.{Pins};
ghost use Rattle.feed_cells.specs.Fed.{IsFed, cells_in};
ghost use Rattle.feed_cells.specs.Placement.{placement_of};
ghost use Rattle.placement_tries.specs.Estimate.{dense_height, estimate_of};
ghost use Rattle.std.specs.Prelude.{◌≡◌, ◌≤◌, ◌^◌, IfOk, length, sum};

use channel_model::{Channel, density};
use design_model::Design;
use feed_cells::{FedRows, Placement};
use limits::{MOST_COLUMNS, MOST_PLACED_ROWS};
use pin_assign::{bound_of, channels};
use std::alloc::{AllocError, Global};
use tech_rules::Rules;

/// The estimate of the area of a layout of these rows with feeds, in square units, by where the pins of the design stand: their width times the height that they have where each channel takes as many
/// tracks as its density. None where the limit of the grid refuses the layout. The one error is want of memory.
#[tactic(auto, using(crate::proofs::EstimateLaws::area_laws), unfolding(crate::specs::Estimate::estimate_of))]
pub fn estimate(
    alloc: Global,
    design: &Design,
    rules: &Rules,
    fed: &FedRows,
    placement: &Placement,
) -> Result<Option<u128>, AllocError>
    requires fed { IsFed design.now fed.now }
    requires placement { placement.now ≡ placement_of design.now (cells_in fed.now.rows) }
    ensures { IfOk result (λ made. made ≡ estimate_of rules.now design.now fed.now) }
{
    // The bounds of the design's type are known once a field is read.
    let _pins = &design.pins;
    if bound_of(design, fed, rules).grid > MOST_COLUMNS as u64 {
        return Ok(None);
    }
    let channels = channels(alloc, design, fed, placement)?;
    let height = rows_height(fed.heights.items())
        + dense_height(alloc, channels.as_slice(), rules)?;
    Ok(Some(u128::from(fed.width) * u128::from(rules.grid.column) * u128::from(height)))
}

// The height of rows in units.
#[tactic(auto, using(crate::proofs::EstimateLaws::height_laws))]
fn rows_height(heights: &[u32]) -> u64
    requires { length heights.now ≤ MOST_PLACED_ROWS }
    ensures is { result ≡ sum heights.now }
    ensures low { result ≤ 2 ^ 42 }
{
    let mut height = 0;
    let mut rest = heights;
    while let Some((row, above)) = rest.split_first() {
        height += u64::from(*row);
        rest = above;
    }
    height
}

// The height in units of channels that take as many tracks as their densities.
#[tactic(auto, using(crate::proofs::EstimateLaws::height_laws))]
fn dense_height(alloc: Global, channels: &[Channel], rules: &Rules) -> Result<u64, AllocError>
    requires { length channels.now ≤ 515 }
    ensures is { IfOk result (λ height. height ≡ dense_height rules.now channels.now) }
    ensures low { IfOk result (λ height. height ≤ 2 ^ 53) }
{
    let track = u64::from(rules.grid.track);
    let mut height = 0;
    let mut rest = channels;
    while let Some((channel, above)) = rest.split_first() {
        height += (u64::from(density(alloc, channel)?) + 1) * track;
        rest = above;
    }
    Ok(height)
}
