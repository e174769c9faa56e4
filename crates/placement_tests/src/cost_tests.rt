//! What rows cost, and how that changes.

ghost use Rattle.std.specs.Prelude.{◌≡◌, ◌<◌, ◌≤◌, length};

use design_model::Design;
use row_board::{Spans, Weights, cost};
use row_model::start;
use samples::{CELLS, designed};
use std::alloc::{AllocError, Global};
use std::test::Fail;
use tech_rules::StartBy;

const WEIGHTS: Weights = Weights {
    row_cost: 4,
    length_cost: 1,
};

/// Calls, how many rows they go into, two instances, and what the rows cost at first, after a swap of the two, and after one more.
struct Costed {
    calls: &'static str,
    rows: u32,
    swapped: (u32, u32),
    costs: [u64; 3],
}

const COSTED: [Costed; 4] = [
    Costed {
        calls: "u1 BUF b; u2 BUF a; u3 INV a; u4 INV b;",
        rows: 2,
        swapped: (2, 3),
        costs: [10, 8, 10],
    },
    Costed {
        calls: "u1 BUF n; u2 BUF p; u3 BUF n;",
        rows: 1,
        swapped: (1, 2),
        costs: [2, 1, 2],
    },
    // A cell of two columns and one of one exchange their places: all between moves.
    Costed {
        calls: "u1 DRV VDD x n; u2 INV x; u3 BUF m; u4 INV m; u5 INV n;",
        rows: 1,
        swapped: (0, 4),
        costs: [7, 9, 7],
    },
    // The rows have 3 and 2 columns, and then 2 and 3; the target is 3.
    Costed {
        calls: "u1 DRV VDD x n; u2 INV x; u3 BUF m; u4 INV n;",
        rows: 2,
        swapped: (0, 3),
        costs: [7, 11, 7],
    },
];

/// What rows cost by the sum and by the tables.
fn both_costs(alloc: Global, design: &Design, spans: &Spans) -> Result<[u64; 2], AllocError>
    requires { spans.now.design ≡ design.now }
{
    let summed = cost(alloc, design, spans.rows(), WEIGHTS)?;
    Ok([summed, spans.cost()])
}

/// Whether rows cost so much by the sum and by the tables at first, after a swap of two instances, and after one more.
fn cost_in_turn(
    alloc: Global,
    design: &Design,
    spans: &mut Spans,
    swapped: (u32, u32),
    costs: [u64; 3],
) -> Result<bool, Fail>
    requires same { spans.old.design ≡ design.now }
    requires one { swapped.0 < length design.now.instances }
    requires other { swapped.1 < length design.now.instances }
{
    let (a, b) = swapped;
    let first = both_costs(alloc, design, spans)?;
    spans.swap(a, b);
    let second = both_costs(alloc, design, spans)?;
    spans.swap(a, b);
    let third = both_costs(alloc, design, spans)?;
    Ok(first == [costs[0]; 2] && second == [costs[1]; 2] && third == [costs[2]; 2])
}

/// Whether the rows of a design cost what a case says.
fn have_costs(alloc: Global, design: &Design, case: &Costed) -> Result<bool, Fail> {
    let count = design.instances.items().len();
    let (a, b) = case.swapped;
    if case.rows == 0 || case.rows > 512 || a as usize >= count || b as usize >= count {
        return Ok(false);
    }
    let rows = start(alloc, design, case.rows, StartBy::Width)?;
    let mut spans = Spans::new(alloc, design, rows, WEIGHTS)?;
    cost_in_turn(alloc, design, &mut spans, (a, b), case.costs)
}

/// Whether the rows of the calls of a case do.
fn is_costed(alloc: Global, case: &Costed) -> Result<bool, Fail> {
    let design = designed(alloc, CELLS, case.calls)?;
    have_costs(alloc, &design, case)
}

#[test]
fn rows_cost_what_their_nets_and_lengths_do(rt: HostRuntime) -> Result<(), Fail> {
    for case in &COSTED {
        assert!(rt; is_costed(rt.alloc(), case)?, "{}", case.calls);
    }
    Ok(())
}

/// The next of numbers that go on by a rule without pattern.
fn next(word: u32) -> u32 {
    word.wrapping_mul(1_664_525).wrapping_add(1_013_904_223)
}

/// The calls of 60 cells of one and two columns, with nets by such numbers.
fn varied(alloc: Global) -> Result<String, AllocError> {
    let mut calls = String::new(alloc);
    let mut word = 7;
    for i in 0..60 {
        word = next(word);
        let net = word >> 27;
        let other = (word >> 20) % 32;
        let call = match i % 4 {
            0 => format!(in alloc; "c{i} DRV VDD n{net} n{other};")?,
            1 => format!(in alloc; "c{i} INV n{net};")?,
            2 => format!(in alloc; "c{i} BUF n{net};")?,
            _ => format!(in alloc; "c{i} THR n{net};")?,
        };
        calls.push_str(&call)?;
    }
    Ok(calls)
}

/// Makes a change by two such numbers: a swap or a mirroring.
fn change(spans: &mut Spans, count: u32, one: u32, two: u32)
    requires some { 0 < count }
    requires count { count ≤ length spans.old.design.instances }
    ensures { spans.new.design ≡ spans.old.design }
{
    let a = (one >> 8) % count;
    if two >> 29 == 0 {
        spans.mirror(a);
    } else {
        spans.swap(a, (two >> 8) % count);
    }
}

/// Whether the cost by the tables is that by the sum after each of so many changes.
fn are_told(alloc: Global, design: &Design, spans: &mut Spans, changes: u32) -> Result<bool, Fail>
    requires some { 0 < length design.now.instances }
    requires same { spans.old.design ≡ design.now }
{
    let count = design.instances.items().len() as u32;
    let mut word = 1;
    for _change in 0..changes {
        let one = next(word);
        word = next(one);
        change(spans, count, one, word);
        let [summed, kept] = both_costs(alloc, design, spans)?;
        if summed != kept {
            return Ok(false);
        }
    }
    Ok(true)
}

/// Whether that is so of a design in three rows.
fn are_told_in_rows(alloc: Global, design: &Design, changes: u32) -> Result<bool, Fail> {
    if design.instances.items().is_empty() {
        return Ok(false);
    }
    let rows = start(alloc, design, 3, StartBy::Width)?;
    let mut spans = Spans::new(alloc, design, rows, WEIGHTS)?;
    are_told(alloc, design, &mut spans, changes)
}

/// Whether that is so of the design with these calls.
fn are_told_of(alloc: Global, calls: &str, changes: u32) -> Result<bool, Fail> {
    let design = designed(alloc, CELLS, calls)?;
    are_told_in_rows(alloc, &design, changes)
}

/// Whether that is so of a varied design.
fn are_told_of_varied(alloc: Global, changes: u32) -> Result<bool, Fail> {
    let calls = varied(alloc)?;
    are_told_of(alloc, calls.as_str(), changes)
}

#[test]
fn tables_tell_the_cost_after_each_of_a_thousand_changes(rt: HostRuntime) -> Result<(), Fail> {
    assert!(rt; are_told_of_varied(rt.alloc(), 1_000)?);
    Ok(())
}
