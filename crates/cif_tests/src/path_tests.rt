//! Wires and polygons, and what they give or why they are refused.

use crate::expansion_tests::{BOX, are_given, is_nested, shown};
use std::alloc::{AllocError, Global};
use std::test::Fail;

/// Texts, and the shapes that each gives, or its cells before them; or the refusal with the number of the command.
const TEXTS: [(&str, &str); 20] = [
    // wires: a shape for each step, or one for a single point
    (
        "L NM; W 4 0 0 10 0 10 10; E",
        "NM -4 -4 24 4;NM 16 -4 24 24;",
    ),
    ("L NM; W 4 5 5; E", "NM 6 6 14 14;"),
    (
        "DS 1; 9 A; L NM; W 2 0 0 4 0 4 4; B 2 2 9 9; DF; 91 u; C 1 T 1 1; E",
        "u A false 0 2 2 0 3;NM 0 0 12 4;NM 8 0 12 12;NM 18 18 22 22;",
    ),
    ("DS 1 1 2; L NM; W 4 1 1 1 3; DF; C 1; E", "NM -1 -1 3 5;"),
    ("DS 1 1 2; L NM; W 3 0 0 4 0; DF; C 1; E", "Inexact 2"),
    ("W 4 0 0 10 0; E", "NoLayer 0"),
    ("W 4 0 0 2000000000 0; E", "TooFar(4000000004) 0"),
    (
        "L NM; W 2 0 0 0 -2000000000 2000000000 -2000000000; E",
        "TooFar(-4000000002) 1",
    ),
    ("W 2 -2000000000 0 2000000000 0; E", "TooFar(-4000000002) 0"),
    // polygons: a shape for each maximal block, by their lower, left, upper and right sides
    (
        "L NM; P 0 0 10 0 10 4 4 4 4 10 0 10; E",
        "NM 0 0 20 8;NM 0 0 8 20;",
    ),
    ("L NM; P 0 0 0 2 3 2 3 0; E", "NM 0 0 6 4;"),
    (
        "DS 1 1 2; L NM; P 1 1 3 1 3 5 1 5; DF; C 1 T 1 0; E",
        "NM 3 1 5 5;",
    ),
    // a path without an area has no shape, but needs a layer
    ("L NM; P 0 0 4 0 4 0; E", ""),
    ("P 0 0 4 0 4 0; E", "NoLayer 0"),
    ("P 0 0 4 0 4 4 0 4; E", "NoLayer 0"),
    ("DS 1 1 4; L NM; P 0 0 4 0 4 1 0 1; DF; E", "Inexact 2"),
    (
        "P 0 0 0 2000000001 -2000000001 2000000001 -2000000001 0; E",
        "TooFar(4000000002) 0",
    ),
    (
        "P 2000000001 -2000000001 0 -2000000001 0 0 2000000001 0; E",
        "TooFar(4000000002) 0",
    ),
    (
        "L NM; P 2000000000 -2000000000 0 -2000000000 0 0 2000000000 0; E",
        "NM 0 -4000000000 4000000000 0;",
    ),
    (
        "DS 1; 9 A; L NM; P 0 0 2 0 2 2 0 2; DF; 91 u; C 1 M X T 1 1; E",
        "u A true 0 2 2 0 1;NM -2 2 2 6;",
    ),
];

#[test]
fn paths_give_their_shapes(rt: HostRuntime) -> Result<(), Fail> {
    assert!(rt; are_given(rt.alloc(), &TEXTS)?);
    Ok(())
}

/// What stands behind 22 definitions, of which the last has 2^21 boxes, and what all gives: so many calls give 3,999,999 shapes.
const FULL: [(&str, &str); 4] = [
    (
        "DS 99;C 22;C 21;C 20;C 19;C 17;C 12;C 8;C 7;C 6;C 5;C 4;C 3;C 2;C 1;L NM;W 2 0 0 2 0;DF;E",
        "",
    ),
    (
        "DS 99;C 22;C 21;C 20;C 19;C 17;C 12;C 8;C 7;C 6;C 5;C 4;C 3;C 2;C 1;W 2 0 0 2 0 4 0;DF;E",
        "TooMany 103",
    ),
    (
        "DS 99;C 22;C 21;C 20;C 19;C 17;C 12;C 8;C 7;C 6;C 5;C 4;C 3;C 2;C 1;L NM;P 0 0 2 0 2 2 0 2;DF;E",
        "",
    ),
    (
        "DS 99;C 22;C 21;C 20;C 19;C 17;C 12;C 8;C 7;C 6;C 5;C 4;C 3;C 2;C 1;P 0 0 4 0 4 2 2 2 2 4 0 4;DF;E",
        "TooMany 103",
    ),
];

#[test]
fn too_many_shapes_of_a_path_are_refused(rt: HostRuntime) -> Result<(), Fail> {
    for (main, want) in FULL {
        assert!(rt; is_nested(rt.alloc(), BOX, 22, true, main, want)?, "{main}");
    }
    Ok(())
}

/// What begins a polygon, how many points (0, 0) it has behind that, what stands behind them, and what all gives.
const POINTS: [(&str, u32, &str, &str); 6] = [
    // points count as they are written
    ("L NM;P", 2_000, ";E", ""),
    ("L NM;P", 2_001, ";E", "LongPath 1"),
    ("L NM;P 4 0 4 4 0 4", 1_997, ";E", "NM 0 0 8 8;"),
    // other refusals before it and behind it
    ("DS 1 1 4;P 0 1", 2_000, ";DF;E", "Inexact 1"),
    ("P 0 3000000000", 2_000, ";E", "TooFar(6000000000) 0"),
    ("P", 2_001, ";E", "LongPath 0"),
];

/// Whether a polygon of so many points gives this.
fn is_pointed(
    alloc: Global,
    head: &str,
    points: u32,
    tail: &str,
    want: &str,
) -> Result<bool, AllocError> {
    let mut text = Vec::new(alloc);
    text.extend_from_slice(head.as_bytes())?;
    for _ in 0..points {
        text.extend_from_slice(b" 0 0")?;
    }
    text.extend_from_slice(tail.as_bytes())?;
    Ok(shown(alloc, text.as_slice())?.as_slice() == want.as_bytes())
}

#[test]
fn polygons_have_at_most_2_000_points(rt: HostRuntime) -> Result<(), Fail> {
    for (head, points, tail, want) in POINTS {
        assert!(rt;
            is_pointed(rt.alloc(), head, points, tail, want)?,
            "{head} {points}"
        );
    }
    Ok(())
}
