//! The rectangles of a vertical wire in a column, a horizontal wire on a track, and a square around their crossing.

ghost use Rattle.std.specs.Prelude.{◌≡◌, ◌≤◌, ◌<◌, ◌+◌, ◌*◌, ◌^◌};
ghost use Rattle.tech_rules.specs.Rules.{pad};
ghost use Rattle.wire_geom.specs.Boxes.{across_box, along_box, square_box, upright_box, lower_end, upper_end};
ghost use Rattle.wire_geom.specs.Drawing.{extent_of};
ghost use Rattle.wire_geom.specs.Grid.{centre, line_at};

use geom_core::Rect;
use tech_rules::Rules;

// The middle of a column in half units.
fn centre(rules: &Rules, column: u32) -> u64
    ensures is { result ≡ centre rules.now column }
    ensures within { result ≤ 9000000000000 }
{
    let pitch = u64::from(rules.grid.column);
    2 * (u64::from(column) * pitch) + pitch
}

// The height of a line in half units.
fn line_at(rules: &Rules, base: u32, line: u64) -> u64
    requires { line ≤ 2 ^ 32 }
    ensures is { result ≡ line_at rules.now base line }
    ensures within { result ≤ 9000000000000 }
{
    2 * (u64::from(base) + line * u64::from(rules.grid.track))
}

// Where a vertical wire ends that comes down to this line.
fn lower_end(rules: &Rules, base: u32, low: u32) -> u64
    ensures is { result ≡ lower_end rules.now base low }
{
    if low == 0 {
        line_at(rules, base, 0)
    } else {
        line_at(rules, base, u64::from(low)).saturating_sub(u64::from(rules.pad()))
    }
}

// Where a vertical wire ends that comes up to this line.
fn upper_end(rules: &Rules, base: u32, tracks: u32, high: u32) -> u64
    ensures is { result ≡ upper_end rules.now base tracks high }
    ensures within { result ≤ 10000000000000 }
{
    let ceiling = u64::from(tracks) + 1;
    if u64::from(high) == ceiling {
        line_at(rules, base, ceiling)
    } else {
        line_at(rules, base, u64::from(high)) + u64::from(rules.pad())
    }
}

// The rectangle with these sides in half units.
fn rect(rules: &Rules, x0: u64, y0: u64, x1: u64, y1: u64) -> Rect
    requires wide { x0 < x1 }
    requires high { y0 < y1 }
    requires x { x1 ≤ 10000000000000 }
    requires y { y1 ≤ 10000000000000 }
    ensures { result ≡ extent_of rules.now (record { x0 = x0; y0 = y0; x1 = x1; y1 = y1 }) }
{
    let centi = u64::from(rules.grid.centi);
    Rect {
        x0: (x0 * centi) as i64,
        y0: (y0 * centi) as i64,
        x1: (x1 * centi) as i64,
        y1: (y1 * centi) as i64,
    }
}

// A vertical wire in a column.
pub(crate) fn across_rect(
    rules: &Rules,
    base: u32,
    tracks: u32,
    column: u32,
    low: u32,
    high: u32,
) -> Rect
    requires ordered { low < high }
    requires within { high ≤ tracks + 1 }
    ensures { result ≡ extent_of rules.now (across_box rules.now base tracks column low high) }
{
    let middle = centre(rules, column);
    let width = u64::from(rules.vertical.width);
    rect(
        rules,
        middle.saturating_sub(width),
        lower_end(rules, base, low),
        middle + width,
        upper_end(rules, base, tracks, high),
    )
}

// A vertical wire in a column, from one height in units to another.
pub(crate) fn upright_rect(rules: &Rules, low: u64, high: u64, column: u32) -> Rect
    requires ordered { low < high }
    requires within { high ≤ 2 ^ 33 }
    ensures { result ≡ extent_of rules.now (upright_box rules.now low high column) }
{
    let middle = centre(rules, column);
    let width = u64::from(rules.vertical.width);
    rect(
        rules,
        middle.saturating_sub(width),
        2 * low,
        middle + width,
        2 * high,
    )
}

// A horizontal wire on a track.
pub(crate) fn along_rect(rules: &Rules, base: u32, track: u32, from: u32, to: u32) -> Rect
    requires { from ≤ to }
    ensures { result ≡ extent_of rules.now (along_box rules.now base track from to) }
{
    let height = line_at(rules, base, u64::from(track));
    let width = u64::from(rules.horizontal.width);
    let pad = u64::from(rules.pad());
    rect(
        rules,
        centre(rules, from).saturating_sub(pad),
        height.saturating_sub(width),
        centre(rules, to) + pad,
        height + width,
    )
}

// A square around a point of a column and a track.
pub(crate) fn square_rect(rules: &Rules, base: u32, size: u32, column: u32, track: u32) -> Rect
    requires some { 0 < size }
    requires few { size ≤ 3000 }
    ensures { result ≡ extent_of rules.now (square_box rules.now base size column track) }
{
    let middle = centre(rules, column);
    let height = line_at(rules, base, u64::from(track));
    let size = u64::from(size);
    rect(
        rules,
        middle.saturating_sub(size),
        height.saturating_sub(size),
        middle + size,
        height + size,
    )
}
