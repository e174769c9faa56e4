//! How large a layout of given rows can become, from the number of nets in each channel.

ghost use Rattle.feed_cells.specs.Fed.{IsFed};
ghost use Rattle.pin_assign.specs.Bounded.{AreBounded, AreFewNets};
ghost use Rattle.pin_assign.specs.Bounds.{bound_of, channels_height, most_nets};
ghost use Rattle.std.specs.Prelude.{◌≡◌, ◌≤◌, ◌^◌, length, sum};

use crate::bound::Bound;
use design_model::Design;
use feed_cells::FedRows;
use limits::{MOST_PINS, MOST_PLACED_ROWS};
use tech_rules::Rules;

/// The size that a layout of these rows is within, whatever its routing: a channel of n nets has at most 2n tracks, and n columns more than the widest
/// row. Takes no memory, and steps as the number of channels.
pub fn bound_of(design: &Design, fed: &FedRows, rules: &Rules) -> Bound
    requires { IsFed design.now fed.now }
    ensures is { result ≡ bound_of rules.now design.now fed.now }
    ensures wide { fed.now.width ≤ result.grid }
{
    // The bounds of the design's type are known once a field is read.
    let _pins = &design.pins;
    bound_within(design, fed, rules)
}

// The same of rows that are not too long or too many.
#[tactic(auto, using(crate::proofs::FedBounds::bound_laws), unfolding(crate::specs::Bounds::bound_of))]
fn bound_within(design: &Design, fed: &FedRows, rules: &Rules) -> Bound
    requires { AreBounded fed.now }
    ensures is { result ≡ bound_of rules.now design.now fed.now }
    ensures wide { fed.now.width ≤ result.grid }
{
    let rows = fed.rows.items().len() as u64;
    let nets = fed.nets.items();
    let columns = fed.width + u64::from(most_nets(nets));
    let centi = u64::from(rules.grid.centi);
    let cells = rows_height(fed.heights.items());
    Bound {
        width: columns * u64::from(rules.grid.column) * centi,
        height: (cells + channels_height(nets, rules)) * centi,
        grid: (rows + 1) * columns,
    }
}

// The height in units of all rows together.
#[tactic(auto, using(crate::proofs::FedBounds::bound_laws))]
fn rows_height(heights: &[u32]) -> u64
    requires { length heights.now ≤ MOST_PLACED_ROWS }
    ensures is { result ≡ sum heights.now }
    ensures low { result ≤ 2 ^ 42 }
{
    let mut sum = 0;
    let mut rest = heights;
    while let Some((height, above)) = rest.split_first() {
        sum += u64::from(*height);
        rest = above;
    }
    sum
}

// The most nets that stand in one channel.
fn most_nets(nets: &[u32]) -> u32
    requires { AreFewNets nets.now }
    ensures is { result ≡ most_nets nets.now }
    ensures few { result ≤ MOST_PINS }
{
    let mut most = 0;
    let mut rest = nets;
    while let Some((n, after)) = rest.split_first() {
        most = (*n).max(most);
        rest = after;
    }
    most
}

// The height in units of channels with two tracks for each of their nets.
#[tactic(auto, using(crate::proofs::FedBounds::bound_laws))]
fn channels_height(nets: &[u32], rules: &Rules) -> u64
    requires channels { length nets.now ≤ 515 }
    requires few { AreFewNets nets.now }
    ensures is { result ≡ channels_height rules.now nets.now }
    ensures low { result ≤ 206000515000 }
{
    let track = u64::from(rules.grid.track);
    let mut height = 0;
    let mut rest = nets;
    while let Some((n, after)) = rest.split_first() {
        height += (2 * u64::from(*n) + 1) * track;
        rest = after;
    }
    height
}
