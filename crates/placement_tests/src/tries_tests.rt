//! The rows and seeds of tries, and the estimates of placements.

ghost use Rattle.std.specs.Prelude.{◌<◌, ◌≤◌};

use design_model::Design;
use feed_cells::{insert_feeds, place};
use placement_tries::{estimate, is_less, rows_at, seed_at};
use row_model::start;
use samples::{CELLS, designed, sample_rules};
use std::alloc::{AllocError, Global};
use std::test::Fail;
use tech_rules::StartBy;

/// As many rows as make a layout about square, and the list of those that are tried: 7/8, 3/4, 9/8, 5/8, 1/2 and 3/8 of them, rounded to the nearest, halves up, each number once.
const LISTS: [(u32, &str); 21] = [
    (1, "1"),
    (2, "2 1"),
    (3, "3 2 1"),
    (4, "4 3 5 2"),
    (5, "5 4 6 3 2"),
    (6, "6 5 7 4 3 2"),
    (7, "7 6 5 8 4 3"),
    (8, "8 7 6 9 5 4 3"),
    (9, "9 8 7 10 6 5 3"),
    (10, "10 9 8 11 6 5 4"),
    (11, "11 10 8 12 7 6 4"),
    (12, "12 11 9 14 8 6 5"),
    (13, "13 11 10 15 8 7 5"),
    (14, "14 12 11 16 9 7 5"),
    (15, "15 13 11 17 9 8 6"),
    (16, "16 14 12 18 10 8 6"),
    (17, "17 15 13 19 11 9 6"),
    (18, "18 16 14 20 11 9 7"),
    (19, "19 17 14 21 12 10 7"),
    (20, "20 18 15 23 13 10 8"),
    (512, "512 448 384 320 256 192"),
];

// Whether the tries have the rows of a list, one after another, and then anew.
fn are_listed(alloc: Global, square: u32, list: &str) -> Result<bool, AllocError>
    requires some { 1 ≤ square }
    requires few { square ≤ 512 }
{
    let mut number = 0u32;
    for _ in 0..2 {
        for word in list.split(' ') {
            let rows = rows_at(alloc, square, number)?;
            if format!(in alloc; "{rows}")?.as_str() != word {
                return Ok(false);
            }
            number = number.saturating_add(1);
        }
    }
    Ok(true)
}

#[test]
fn the_rows_of_tries(rt: HostRuntime) -> Result<(), Fail> {
    for (square, list) in LISTS {
        if square >= 1 && square <= 512 {
            assert!(rt; are_listed(rt.alloc(), square, list)?, "{square}");
        }
    }
    Ok(())
}

#[test]
fn the_seeds_of_tries(rt: HostRuntime) {
    assert!(rt; seed_at(7, 0) == 7);
    assert!(rt; seed_at(7, 63) == 70);
    assert!(rt; seed_at(18446744073709551615, 1) == 0);
    assert!(rt; seed_at(18446744073709551614, 63) == 61);
}

#[test]
fn which_estimate_is_less(rt: HostRuntime) {
    let most = Some(340282366920938463463374607431768211455u128);
    assert!(rt; is_less(Some(1), Some(2)));
    assert!(rt; !is_less(Some(2), Some(2)));
    assert!(rt; !is_less(Some(3), Some(2)));
    assert!(rt; is_less(most, None));
    assert!(rt; !is_less(None, most));
    assert!(rt; !is_less(None, None));
}

// The estimate of a design of sample cells in so many rows, as they begin.
fn estimate_of(alloc: Global, design: &Design, count: u32) -> Result<Option<u128>, AllocError>
    requires some { 0 < count }
    requires few { count ≤ 512 }
{
    let rules = sample_rules(alloc)?;
    let rows = start(alloc, design, count, StartBy::Width)?;
    let placement = place(alloc, design, &rows)?;
    let fed = insert_feeds(alloc, design, &rows, &placement)?;
    estimate(alloc, design, &rules, &fed, &placement)
}

/// So many rows, calls of sample cells, and the estimate: columns of 8 units, rows of 40, and for each channel 8 more than for as many tracks as its density.
const ESTIMATES: [(u32, &str, u128); 5] = [
    (1, "u1 INV a;\n", 8 * (40 + 2 * 8)),
    // Two joined cells: one net over both columns of the upper channel.
    (1, "u1 BUF a;\nu2 BUF a;\n", 2 * 8 * (40 + 8 + 2 * 8)),
    // Two crossed nets.
    (
        2,
        "u1 BUF b;\nu2 BUF a;\nu3 INV a;\nu4 INV b;\n",
        2 * 8 * (80 + 8 + 3 * 8 + 8),
    ),
    // The same nets side by side.
    (
        2,
        "u1 BUF a;\nu2 BUF b;\nu3 INV a;\nu4 INV b;\n",
        2 * 8 * (80 + 8 + 2 * 8 + 8),
    ),
    // A net from the first row to the last, which feeds in front of two cells take across: it stands in three channels.
    (
        4,
        "u1 BUF n;\nu2 INV p;\nu3 INV q;\nu4 INV n;\n",
        2 * 8 * (160 + 8 + 3 * 2 * 8 + 8),
    ),
];

#[test]
fn the_estimates_of_placements(rt: HostRuntime) -> Result<(), Fail> {
    for (count, calls, area) in ESTIMATES {
        let design = designed(rt.alloc(), CELLS, calls)?;
        if count >= 1 && count <= 512 {
            assert!(rt;
                estimate_of(rt.alloc(), &design, count)? == Some(area),
                "{calls}"
            );
        }
    }
    Ok(())
}
