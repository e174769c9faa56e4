//! Whether a swap is surely too dear: what it would cost if no other cell were shifted, and by how much the shifts may make nets shorter or surely make them longer.

ghost use Rattle.row_board.specs.Board.{IsBoard};
ghost use Rattle.row_board.specs.Cost.{cost_of, difference};
ghost use Rattle.row_board.specs.Extreme.{across};
ghost use Rattle.row_board.specs.NetCosts.{table_costs};
ghost use Rattle.row_board.specs.RowLengthsView.{misses_of};
ghost use Rattle.row_board.specs.Trial.{AreInstances, AreOthers, ends_net, ends_net_alone, instances_instead, instead, joined, least_cost, longer_in, marked_in, seats_between, shifted_from, shifted_seats, shorter_in};
ghost use Rattle.row_model.specs.Changes.{swapped};
ghost use Rattle.row_model.specs.Rows.{ArePlaced};
ghost use Rattle.row_model.specs.Widths.{columns_of};
ghost use Rattle.std.specs.Bool.{OnTrue};
ghost use Rattle.std.specs.Prelude.{◌≡◌, ◌≢◌, ◌<◌, ◌≤◌, ◌+◌, ◌-◌, ◌*◌, ◌^◌, length, nat_lt, sum};

use crate::extreme::Side;
use crate::moving::moved_seats;
use crate::net_costs::{Balance, NetCosts};
use crate::row_lengths::{RowLengths, difference};
use crate::seats::row_at;
use crate::standings::Standing;
use geom_core::Items;
use limits::{MOST_INSTANCES, MOST_KIND_COLUMNS, MOST_PINS};
use row_model::Seat;

/// What rows cost by their tables: the sum of what the nets cost, and the columns by which the rows miss their target as the weights tell. Takes no memory.
pub(crate) fn total_of(costs: &NetCosts, lengths: &RowLengths) -> u64
    ensures is { result ≡ sum (table_costs costs.now.design costs.now.weights costs.now.standings) + costs.now.weights.length_cost * sum (misses_of lengths.now) }
    ensures small { result < 2 ^ 61 }
{
    let length_cost = costs.weights().length_cost;
    costs.sum() + length_cost * lengths.unevenness()
}

// Some seats of a row: those from a place up to another.
fn between(seats: &[Seat], from: usize, to: usize) -> &[Seat]
    ensures is { result.now ≡ seats_between from to seats.now }
    ensures few { length result.now ≤ length seats.now }
{
    let end = to.min(seats.len());
    &seats[from.min(end)..end]
}

// Which instance stands where this one did once two have exchanged their places.
fn instead(a: u32, b: u32, instance: u32) -> u32
    ensures { result ≡ instead a b instance }
{
    if instance == a {
        return b;
    }
    if instance == b {
        return a;
    }
    instance
}

// How many pins of the instances of seats, once two have exchanged their places, are joined with others by their nets.
#[inline(never)]
fn all_joined(costs: &NetCosts, seats: &[Seat], a: u32, b: u32) -> u64
    requires short { length seats.now ≤ MOST_INSTANCES }
    requires there { AreInstances costs.now.design (instances_instead a b seats.now) }
    requires others { AreOthers a b seats.now }
    ensures is { result ≡ marked_in costs.now.design (joined costs.now.design) (instances_instead a b seats.now) }
    ensures few { result ≤ MOST_PINS * length seats.now }
{
    let Some((last, front)) = seats.split_last() else {
        return 0;
    };
    let mut found = costs.joined(instead(a, b, last.instance));
    let mut rest = front;
    while let Some((seat, after)) = rest.split_first() {
        found += costs.joined(seat.instance);
        rest = after;
    }
    found
}

// What is left of an excess of pins that may make their nets shorter over those that surely make them longer, once the pins of the instances of seats are read, which once two have exchanged
// their places stand there: each that is joined with others was taken to end its net on a side, and none to end it alone across. They are read until nothing is left.
#[inline(always)]
fn left_on(costs: &NetCosts, seats: &[Seat], a: u32, b: u32, side: Side, excess: u64) -> u64
    requires small { excess < 2 ^ 62 }
    requires short { length seats.now ≤ MOST_INSTANCES }
    requires there { AreInstances costs.now.design (instances_instead a b seats.now) }
    requires others { AreOthers a b seats.now }
    ensures is { result ≡ (excess + marked_in costs.now.design (ends_net costs.now.design costs.now.standings side) (instances_instead a b seats.now)) - (marked_in costs.now.design (joined costs.now.design) (instances_instead a b seats.now) + marked_in costs.now.design (ends_net_alone costs.now.design costs.now.standings (across side)) (instances_instead a b seats.now)) }
    ensures few { result ≤ excess }
{
    let Some((last, front)) = seats.split_last() else {
        return excess;
    };
    let none = Balance {
        over: excess,
        under: 0,
    };
    let mut found = costs.weighed(side, instead(a, b, last.instance), none);
    let mut rest = front;
    while let Some((seat, after)) = rest.split_first() {
        if found.over <= found.under {
            return 0;
        }
        found = costs.weighed(side, seat.instance, found);
        rest = after;
    }
    found.over.saturating_sub(found.under)
}

// The same, by steps of their own for each side.
#[inline(never)]
fn left_over(costs: &NetCosts, seats: &[Seat], a: u32, b: u32, side: Side, excess: u64) -> u64
    requires small { excess < 2 ^ 62 }
    requires short { length seats.now ≤ MOST_INSTANCES }
    requires there { AreInstances costs.now.design (instances_instead a b seats.now) }
    requires others { AreOthers a b seats.now }
    ensures is { result ≡ (excess + marked_in costs.now.design (ends_net costs.now.design costs.now.standings side) (instances_instead a b seats.now)) - (marked_in costs.now.design (joined costs.now.design) (instances_instead a b seats.now) + marked_in costs.now.design (ends_net_alone costs.now.design costs.now.standings (across side)) (instances_instead a b seats.now)) }
    ensures few { result ≤ excess }
{
    match side {
        Side::Low => left_on(costs, seats, a, b, Side::Low, excess),
        Side::High => left_on(costs, seats, a, b, Side::High, excess),
    }
}

// The side that the cells behind an instance are shifted away from where another takes its place.
fn shifted_from(costs: &NetCosts, a: u32, b: u32) -> Side
    ensures { result ≡ shifted_from (nat_lt (columns_of costs.now.design a) (columns_of costs.now.design b)) }
{
    if costs.columns_of(a) < costs.columns_of(b) {
        Side::Low
    } else {
        Side::High
    }
}

// By how many columns the cells behind two instances are shifted where these exchange their places.
fn shift_of(costs: &NetCosts, a: u32, b: u32) -> u64
    ensures is { result ≡ difference (columns_of costs.now.design a) (columns_of costs.now.design b) }
    ensures few { result ≤ MOST_KIND_COLUMNS }
{
    difference(
        u64::from(costs.columns_of(a)),
        u64::from(costs.columns_of(b)),
    )
}

// The seats behind an instance that a swap with another shifts.
fn shifted_seats<'r>(
    costs: &NetCosts,
    rows: &'r [Items<Seat>],
    one: Standing,
    other: Standing,
) -> &'r [Seat]
    requires { ArePlaced costs.now.design rows.now }
    ensures is { result.now ≡ shifted_seats rows.now one other }
    ensures few { length result.now ≤ MOST_INSTANCES }
{
    // What every design keeps is known by this call.
    let _design = costs.design();
    let reach = moved_seats(rows, one, other, false);
    between(row_at(rows, reach.row), reach.from + 1, reach.to)
}

// By how many pins those that may make their nets shorter may outnumber those that surely make them longer, where rows that cost so much without a shift are still to cost
// more than a limit.
fn spare_pins(cost: u64, limit: u64, shift: u64) -> u64
    requires { cost < 2 ^ 61 }
    ensures few { result < 2 ^ 61 }
    ensures spare { shift * result ≤ (cost - limit) - 1 }
{
    cost.saturating_sub(limit).saturating_sub(1) / shift.max(1)
}

// Whether the pins that may make their nets shorter surely outnumber those that surely make them longer by at most so many, of the instances of the seats behind two that exchange
// their places.
fn are_spared(costs: &NetCosts, seats: &[Seat], others: &[Seat], a: u32, b: u32, spare: u64) -> bool
    requires short { length seats.now ≤ MOST_INSTANCES }
    requires short_others { length others.now ≤ MOST_INSTANCES }
    requires there { AreInstances costs.now.design (instances_instead a b seats.now) }
    requires there_others { AreInstances costs.now.design (instances_instead b a others.now) }
    requires front { AreOthers a b seats.now }
    requires front_others { AreOthers b a others.now }
    ensures { OnTrue result (shorter_in costs.now.design costs.now.standings a b seats.now + shorter_in costs.now.design costs.now.standings b a others.now ≤ spare + (longer_in costs.now.design costs.now.standings a b seats.now + longer_in costs.now.design costs.now.standings b a others.now)) }
{
    // Often that is so even if each pin that any instance may have were to save.
    if costs.most_pins() * (seats.len() + others.len()) as u64 <= spare {
        return true;
    }
    let all = all_joined(costs, seats, a, b) + all_joined(costs, others, b, a);
    let excess = all.saturating_sub(spare);
    let left = left_over(costs, seats, a, b, shifted_from(costs, a, b), excess);
    left_over(costs, others, b, a, shifted_from(costs, b, a), left) == 0
}

// Whether rows surely cost more than a limit after a swap, where they cost so much with their widths after it and by a table in which both instances are at each other's place and no
// other is shifted.
fn is_above(
    costs: &NetCosts,
    rows: &[Items<Seat>],
    a: u32,
    b: u32,
    one: Standing,
    other: Standing,
    cost: u64,
    limit: u64,
) -> bool
    requires placed { ArePlaced costs.now.design rows.now }
    requires small { cost < 2 ^ 61 }
    requires above { limit < cost }
    requires there { AreInstances costs.now.design (instances_instead a b (shifted_seats rows.now one other)) }
    requires there_others { AreInstances costs.now.design (instances_instead b a (shifted_seats rows.now other one)) }
    requires front { AreOthers a b (shifted_seats rows.now one other) }
    requires front_others { AreOthers b a (shifted_seats rows.now other one) }
    ensures { OnTrue result (limit < least_cost costs.now.design rows.now costs.now.standings a b one other cost) }
{
    let spare = spare_pins(cost, limit, shift_of(costs, a, b));
    let seats = shifted_seats(costs, rows, one, other);
    let others = shifted_seats(costs, rows, other, one);
    are_spared(costs, seats, others, a, b, spare)
}

// The same, where the seats that are shifted to the right are read first: more of their pins alone end their nets on that side.
fn is_above_first(
    costs: &NetCosts,
    rows: &[Items<Seat>],
    a: u32,
    b: u32,
    one: Standing,
    other: Standing,
    cost: u64,
    limit: u64,
) -> bool
    requires placed { ArePlaced costs.now.design rows.now }
    requires small { cost < 2 ^ 61 }
    requires above { limit < cost }
    requires there { AreInstances costs.now.design (instances_instead a b (shifted_seats rows.now one other)) }
    requires there_others { AreInstances costs.now.design (instances_instead b a (shifted_seats rows.now other one)) }
    requires front { AreOthers a b (shifted_seats rows.now one other) }
    requires front_others { AreOthers b a (shifted_seats rows.now other one) }
    ensures { OnTrue result (limit < least_cost costs.now.design rows.now costs.now.standings a b one other cost) }
{
    if costs.columns_of(a) < costs.columns_of(b) {
        return is_above(costs, rows, a, b, one, other, cost, limit);
    }
    is_above(costs, rows, b, a, other, one, cost, limit)
}

/// Whether rows surely cost more than a limit after two instances of different widths exchange their places. All is as before after that.
pub(crate) fn is_dear(
    costs: &mut NetCosts,
    lengths: &RowLengths,
    rows: &[Items<Seat>],
    a: u32,
    b: u32,
    limit: u64,
) -> bool
    requires board { IsBoard costs.old.design rows.now costs.old.standings lengths.now }
    requires a { a < length costs.old.design.instances }
    requires b { b < length costs.old.design.instances }
    requires apart { a ≢ b }
    ensures dear { OnTrue result (limit < cost_of costs.old.design (swapped a b rows.now) costs.old.weights) }
    ensures same { costs.new ≡ costs.old }
{
    // What every design keeps is known by this call.
    let _design = costs.design();
    let one = costs.standing(a);
    let other = costs.standing(b);
    let uneven = lengths.unevenness_after(
        one.row,
        other.row,
        costs.columns_of(b),
        costs.columns_of(a),
    );
    let length_cost = costs.weights().length_cost;
    costs.trade(a, b);
    let cost = costs.sum() + length_cost * uneven;
    let dear = cost > limit && is_above_first(costs, rows, a, b, one, other, cost, limit);
    costs.put(a, one);
    costs.put(b, other);
    dear
}
