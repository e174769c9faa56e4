//! Layouts with wires and polygons that are checked.

use crate::check_tests::{JOINED, is_case, is_checked, is_refused_text};
use crate::support::{TWO_JOINED, text_with};
use std::alloc::{AllocError, Global};
use std::test::Fail;

/// Two joined buffers with wires and a polygon, in half microns.
const DRAWN: &str =
    "DS 3 50 1; L XP; P 0 0 16 0 16 80 0 80; L NP; W 6 8 75 8 77; 9 BUF; DF;\nDS 9 50 1; 9 wires;\nL NM; P 4 108 12 108 12 109 20 109 20 108 28 108 28 116 20 116 20 115 12 115 12 116 4 116;\nL NP; W 8 8 112; W 6 8 99 8 113; W 8 24 112; W 6 24 99 24 113;\nL NC; W 4 8 112; W 4 24 112; DF;\n91 u2; Call 3 T 800 800; Call 9;\n91 u1; Call 3 T 0 800;\nEnd\n";

/// A piece of the layout of two joined buffers, and what stands in its place without making it worse, with a bar between the cases and a stroke between the parts.
const GOOD: &str = "\
B 1200 300 800 5600;/W 300 400 5600 1200 5600;|\
B 1200 300 800 5600;/W 300 400 5600 800 5600 800 5600 1200 5600;|\
B 1200 300 800 5600;/P 200 5450 1400 5450 1400 5750 200 5750;|\
B 800 4000 400 2000;\nL NP;\nB 300 400 400 3800;/P 0 0 0 4000 800 4000 800 0;\nL NP;\nW 300 400 3850 400 3750;|\
B 300 1000 400 5300;/W 300 400 4950 400 5650;|\
B 200 200 1200 5600;/W 200 1200 5600;|\
E\n/P 0 0 900 0 900 0;\nE\n";

/// Whether a layout with a piece of its text replaced is good.
fn is_good(alloc: Global, case: &str) -> Result<bool, AllocError> {
    let Some((old, new)) = case.split_once("/") else {
        return Ok(false);
    };
    let text = text_with(alloc, TWO_JOINED, old, new)?;
    is_checked(alloc, JOINED, text.as_str(), 0, "findings 0\n")
}

#[test]
fn wires_and_polygons_may_stand_for_boxes(rt: HostRuntime) -> Result<(), Fail> {
    assert!(rt; is_checked(rt.alloc(), JOINED, DRAWN, 0, "findings 0\n")?);
    for case in GOOD.split('|') {
        assert!(rt; is_good(rt.alloc(), case)?, "{case}");
    }
    Ok(())
}

/// The same with what is printed then: the steps of a wire and the maximal blocks of a polygon are told by their numbers.
const BROKEN: &str = "\
B 1200 300 800 5600;/W 200 400 5600 1200 5600;/Narrow 6\nfindings 1\n|\
B 1200 300 800 5600;/W 200 400 5600 800 5600 1200 5600;/Narrow 6\nNarrow 7\nfindings 2\n|\
B 1200 300 800 5600;/P 200 5400 600 5400 600 5500 1000 5500 1000 5400 1400 5400 1400 5800 1000 5800 1000 5700 600 5700 600 5800 200 5800;/Narrow 8\nfindings 1\n|\
B 1200 300 800 5600;/P 400 5600 1200 5600 1200 5600;/Open u1 y u2 y\nfindings 1\n|\
E\n/L NM;\nW 300 800 6100;\nE\n/Close 6 13\nClose 7 13\nClose 10 13\nfindings 3\n|\
E\n/L XP;\nP 0 800 800 800 800 4800 0 4800;\nE\n/Overlap 0 13\nfindings 1\n|\
B 200 200 1200 5600;/W 200 1300 5600;/BareCut 12\nfindings 1\n|\
B 200 200 1200 5600;/P 1100 5500 1300 5500 1300 5700 1200 5700 1200 5600 1100 5600;/Narrow 12\nNarrow 13\nfindings 2\n|\
B 300 400 400 3800;/W 300 400 3750 400 3800;/Drawing u1\nDrawing u2\nfindings 2\n";

#[test]
fn findings_of_wires_and_polygons(rt: HostRuntime) -> Result<(), Fail> {
    for case in BROKEN.split('|') {
        assert!(rt; is_case(rt.alloc(), case)?, "{case}");
    }
    Ok(())
}

/// Texts that give no layout, and the kind and place that are printed, with a bar between the cases and a stroke between the parts.
const REFUSED: &str = "\
DS 1 1 2; L NM; W 3 0 0 4 0; DF; C 1; E/Inexact 2|\
DS 1 1 4; L NM; P 0 0 4 0 4 1 0 1; DF; E/Inexact 2|\
L NM; P 0 0 4 4 8 0; E/Turned 6|\
L NM; W 2 0 0 4 1; E/Turned 6|\
W 4 0 0 10 0; E/NoLayer 0|\
P 0 0 4 0 4 0; E/NoLayer 0|\
L NM; W 2 0 0 2000000000 0; E/TooFar 1|\
L NM; P 0 0 2000000001 0 2000000001 2 0 2; E/TooFar 1|\
L NM; W 5; E/BadCommand 6|\
L NM; P 1 1 2 2; E/BadCommand 6|\
W 2000000000000 0 0; E/Number 2|\
W 2 0 0/NoEnd 7";

/// Whether a polygon of 2,001 points is refused as a long path.
fn is_long_path_refused(alloc: Global) -> Result<bool, AllocError> {
    let mut text = String::new(alloc);
    text.push_str("L NM;P 4 0 4 4 0 4")?;
    for _ in 0..1_998u16 {
        text.push_str(" 0 0")?;
    }
    text.push_str(";E")?;
    is_checked(alloc, JOINED, text.as_str(), 7, "cif LongPath 1\n")
}

#[test]
fn wires_and_polygons_that_give_no_layout(rt: HostRuntime) -> Result<(), Fail> {
    for case in REFUSED.split('|') {
        assert!(rt; is_refused_text(rt.alloc(), case)?, "{case}");
    }
    assert!(rt; is_long_path_refused(rt.alloc())?);
    Ok(())
}
