//! Whole notes: behind the first line that of the text stands, and a mark below the place.

use crate::support::{GATES, ROUTE, changed, noted, shelf_with};
use samples::RULES;
use std::test::Fail;

#[test]
fn the_line_of_a_call_stands_behind_its_note(rt: HostRuntime) -> Result<(), Fail> {
    let design = changed(rt.alloc(), GATES, "n3 vdd vss => n3")?;
    let mut shelf = shelf_with(rt.alloc(), RULES, design.as_str())?;
    let notes = noted(rt.alloc(), ROUTE, &mut shelf)?;
    assert_eq!(rt;
        notes.as_str(),
        "\
my.yal:19:4: g1 calls AND2, which has 5 terminals, but gives 3 signals; a signal is wanted for its power terminals vdd, vss too [design SignalCount g1]
g1 AND2 n1 n2 n3;
   ^
"
    );
    Ok(())
}

#[test]
fn the_line_of_a_key_stands_behind_its_note(rt: HostRuntime) -> Result<(), Fail> {
    let rules = changed(rt.alloc(), RULES, "column = 8 =>   column = 6")?;
    let mut shelf = shelf_with(rt.alloc(), rules.as_str(), GATES)?;
    let notes = noted(rt.alloc(), ROUTE, &mut shelf)?;
    assert_eq!(rt;
        notes.as_str(),
        "\
rules.toml:4: grid.column is 6; the rule grid.column >= pad + horizontal.space wants 7 at least (pad = 2 + 2*1) [rules Tight 3]
  column = 6
  ^
"
    );
    Ok(())
}

#[test]
fn tabs_and_line_ends_keep_the_mark_below_its_place(rt: HostRuntime) -> Result<(), Fail> {
    let design = changed(
        rt.alloc(),
        GATES,
        "a I 4 0 3 POLY;\n => \ta I 4.5 0 3 POLY;\r\n",
    )?;
    let mut shelf = shelf_with(rt.alloc(), RULES, design.as_str())?;
    let notes = noted(rt.alloc(), ROUTE, &mut shelf)?;
    let lines = notes.as_str().split_once('\n').unwrap_or(("", ""));
    assert_eq!(rt; lines.1, " a I 4.5 0 3 POLY;\n     ^\n");
    Ok(())
}

#[test]
fn of_a_long_line_a_piece_stands(rt: HostRuntime) -> Result<(), Fail> {
    let blanks = "                                                            ";
    let line = format!(in rt.alloc();
        "a I 4 0 3 POLY; => {blanks}{blanks}a IN 4 0 3 POLY;{blanks}{blanks}b"
    )?;
    let design = changed(rt.alloc(), GATES, line.as_str())?;
    let mut shelf = shelf_with(rt.alloc(), RULES, design.as_str())?;
    let notes = noted(rt.alloc(), ROUTE, &mut shelf)?;
    let lines = notes.as_str().split_once('\n').unwrap_or(("", ""));
    let (excerpt, mark) = lines.1.split_once('\n').unwrap_or(("", ""));
    assert_eq!(rt; excerpt.len(), 100);
    assert_eq!(rt; excerpt.trim_ascii(), "a IN 4 0 3 POLY;");
    assert_eq!(rt; mark.trim_ascii(), "^");
    assert_eq!(rt; mark.len(), 52);
    Ok(())
}
