//! Boxes that are none, and the notes on them.

use crate::support::{gives_command, note_on};
use std::test::Fail;

/// The words behind the names, and the note.
const MISTAKES: &[(&str, &str)] = &[
    (
        "--box",
        "cellroute draw: --box wants a value behind it, --box X0,Y0,X1,Y1 [usage]",
    ),
    (
        "--box|-1,0,5,5",
        "cellroute draw: --box wants a value behind it, --box X0,Y0,X1,Y1, and -1,0,5,5 begins with a dash; --box=-1,0,5,5 may [usage]",
    ),
    (
        "--box|1,2,3",
        "cellroute draw: --box is 1,2,3; four lengths in microns with commas between them are wanted, X0,Y0,X1,Y1 [usage]",
    ),
    (
        "--box|1,2,3,4,5",
        "cellroute draw: --box is 1,2,3,4,5; four lengths in microns with commas between them are wanted, X0,Y0,X1,Y1 [usage]",
    ),
    (
        "--box=",
        "cellroute draw: --box is ; four lengths in microns with commas between them are wanted, X0,Y0,X1,Y1 [usage]",
    ),
    (
        "--box=1.234,2,3,4",
        "cellroute draw: --box has 1.234, which is no length in microns: digits, perhaps behind a -, and behind them perhaps a point and one or two digits [usage]",
    ),
    (
        "--box|1,.5,3,4",
        "cellroute draw: --box has .5, which is no length in microns: digits, perhaps behind a -, and behind them perhaps a point and one or two digits [usage]",
    ),
    (
        "--box|0,0,5.,5",
        "cellroute draw: --box has 5., which is no length in microns: digits, perhaps behind a -, and behind them perhaps a point and one or two digits [usage]",
    ),
    (
        "--box|0,0,,5",
        "cellroute draw: --box is 0,0,,5; four lengths in microns with commas between them are wanted, X0,Y0,X1,Y1 [usage]",
    ),
    (
        "--box|0,0,10000000.01,5",
        "cellroute draw: --box has 10000000.01, which is too far; lengths are from -10000000 to 10000000 microns [usage]",
    ),
    (
        "--box=0,-99999999999999999999999,5,5",
        "cellroute draw: --box has -99999999999999999999999, which is too far; lengths are from -10000000 to 10000000 microns [usage]",
    ),
    (
        "--box=5,0,5.00,9",
        "cellroute draw: --box is 5,0,5.00,9; X0 has to be below X1, and Y0 below Y1 [usage]",
    ),
    (
        "--box=0,-0.5,5,-0.51",
        "cellroute draw: --box is 0,-0.5,5,-0.51; X0 has to be below X1, and Y0 below Y1 [usage]",
    ),
];

/// Boxes that are some.
const BOXES: &[&str] = &[
    "-1.5,-10000000,10000000.00,-0.01",
    "0,0,0.1,000.01",
    "-0,00.00,000000000000000000000000000001,9.9",
];

#[test]
fn boxes_that_are_none_have_notes(rt: HostRuntime) -> Result<(), Fail> {
    for (text, note) in MISTAKES {
        let words = format!(in rt.alloc(); "draw|l|o|{text}")?;
        let told = note_on(rt.alloc(), words.as_str())?;
        assert_eq!(rt; told.as_str(), *note);
        assert!(rt; !gives_command(rt.alloc(), words.as_str())?);
    }
    Ok(())
}

/// Behind a good box the next mistake is told.
#[test]
fn boxes_that_are_some_have_none(rt: HostRuntime) -> Result<(), Fail> {
    for text in BOXES {
        let words = format!(in rt.alloc(); "draw|l|o|--box={text}")?;
        assert!(rt; gives_command(rt.alloc(), words.as_str())?);
        let more = format!(in rt.alloc(); "{words}|p")?;
        let told = note_on(rt.alloc(), more.as_str())?;
        assert_eq!(rt;
            told.as_str(),
            "cellroute draw: p is one word too many for draw [usage]"
        );
    }
    Ok(())
}
