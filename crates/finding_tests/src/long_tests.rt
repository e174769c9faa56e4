//! What is told of many findings, and of texts with comments, wires and polygons.

use crate::telling::{ONE_NET, SYMBOL, WIRE, many_told, told_of};
use samples::BUFFER;
use std::alloc::{AllocError, Global};
use std::test::Fail;

/// A text with comments over lines, a command of users with a parenthesis in it, a symbol of a wire and a polygon, and both at the main level.
const MIXED: &[&str] = &[
    "(a comment; with (an E\nin it) in parentheses);\n",
    SYMBOL,
    "94 mark (E 1 2; DS 2 1 1; L NM; W 300 0 0 1000 0 1000 1000;\n",
    "P 0 2000 1000 2000 1000 2300 300 2300 300 3000 0 3000; DF;\n",
    "91 u1; C 1 T 0 800;\n91 u2; C 1 T 800 800;\n",
    WIRE,
    "C 2 T 20000 20000; L NM;\n",
    "P 40000 0 41000 0 41000 300 40300 300 40300 1000 40000 1000;\n",
    "W 200 30000 30000 31000 30000;\n",
    "E",
];

fn mixed(alloc: Global) -> Result<String, AllocError> {
    let mut text = String::new(alloc);
    for piece in MIXED {
        text.push_str(piece)?;
    }
    Ok(text)
}

#[test]
fn a_shape_behind_wires_and_polygons(rt: HostRuntime) -> Result<(), Fail> {
    let text = mixed(rt.alloc())?;
    for (is_known, want) in [
        (
            true,
            "Narrow 19: NM (299.0, 299.0)-(311.0, 301.0) of no net is 12.0 by 2.0 um, 3.0 each way wanted [o.cif:14]\n",
        ),
        (
            false,
            "Narrow 19: NM (299.0, 299.0)-(311.0, 301.0) of no net is 12.0 by 2.0 um, 3.0 each way wanted\n",
        ),
    ] {
        let Some(told) = told_of(rt.alloc(), BUFFER, ONE_NET, text.as_bytes(), is_known)? else {
            assert!(rt; false, "no layout");
            return Ok(());
        };
        assert_eq!(rt; told.as_str(), want);
    }
    Ok(())
}

#[test]
fn the_first_hundred_findings(rt: HostRuntime) -> Result<(), Fail> {
    let Some(told) = many_told(rt.alloc(), 103)? else {
        assert!(rt; false, "no layout");
        return Ok(());
    };
    assert_eq!(rt; told.as_str().lines().count(), 101);
    assert!(rt;
        told.as_str().starts_with(
            "Open c0 y c1 y: net net hangs in 103 pieces: c0 y | c1 y | c2 y | c3 y | c4 y | c5 y | c6 y | c7 y | and 95 pieces more; c0 y is NP (2.5, 36.0)-(5.5, 40.0), c1 y is NP (10.5, 36.0)-(13.5, 40.0) [o.cif:3, o.cif:5]\n"
        )
    );
    assert!(rt;
        told.as_str()
            .ends_with("[o.cif:3, o.cif:203]\nand 2 more\n")
    );
    Ok(())
}
