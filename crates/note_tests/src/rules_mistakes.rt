//! Mistakes in rules, and the notes on them.

use crate::support::{GATES, ROUTE, changed, first_line, noted, shelf_with};
use samples::RULES;
use std::test::Fail;

/// What is changed in the sample rules, and the note.
const MISTAKES: &[(&str, &str)] = &[
    (
        "version = 1 => version 1",
        "rules.toml:1:9: the text is no TOML: key with no value, expected `=` [rules Toml]",
    ),
    (
        "yal = \"POLY\" => yal = \"POLY",
        "rules.toml:2:12: the text is no TOML: invalid string [rules Toml]",
    ),
    (
        "column = 8 => column = 8\ncolumn = 8",
        "rules.toml:5:1: the text is no TOML: duplicate key [rules Toml]",
    ),
    // Keys and tables that are missing, misspelt or misplaced.
    (
        "column = 8\n => ",
        "rules.toml:3: grid.column is missing: a line column = .. in the table [grid]; a whole number from 2 to 1000 is wanted [rules Missing grid.column]",
    ),
    (
        "column = 8 => colum = 8",
        "rules.toml:4: grid.column is missing; did you mean column by colum? [rules Missing grid.column]",
    ),
    (
        "[grid] => [gird]",
        "rules.toml:3: grid.column is missing, as is the table [grid]; did you mean it by [gird]? [rules Missing grid.column]",
    ),
    (
        "[outline]\nlayer = \"XP\"\n => ",
        "rules.toml: outline.layer is missing, as is its table [outline] [rules Missing outline.layer]",
    ),
    (
        "version = 1\nyal = \"POLY\"\n[grid]\n => [grid]\nversion = 1\nyal = \"POLY\"\n",
        "rules.toml:2: version is missing; this line stands in the table [grid], and has to stand before the first table [rules Missing version]",
    ),
    (
        "[grid]\ncolumn = 8\n => column = 8\n[grid]\n",
        "rules.toml:3: grid.column is missing; this line stands before all tables, and has to stand in the table [grid] [rules Missing grid.column]",
    ),
    (
        "version = 1 => version = 2",
        "rules.toml: decimals is missing, which version = 2 wants: a line decimals = .. before the first table; a whole number from 0 to 4 is wanted [rules Missing decimals]",
    ),
    // Values that are out of their range.
    (
        "version = 1 => version = 3",
        "rules.toml:1: version is 3; 1 or 2 is wanted [rules Range version]",
    ),
    (
        "centi = 100 => centi = 3",
        "rules.toml:6: grid.centi is 3; a whole number from 4 to 1000 is wanted [rules Range grid.centi]",
    ),
    (
        "column = 8 => column = \"8\" # units",
        "rules.toml:4: grid.column is \"8\"; a whole number from 2 to 1000 is wanted [rules Range grid.column]",
    ),
    (
        "track = 8 => track = 8.0 # units",
        "rules.toml:5: grid.track is 8.0; a whole number from 2 to 1000 is wanted [rules Range grid.track]",
    ),
    (
        "\"NM\" => \"nm\"",
        "rules.toml:9: horizontal.layer is \"nm\"; 1 to 4 digits or upper-case letters in quotes are wanted, as \"NM\" [rules Range horizontal.layer]",
    ),
    (
        "POLY => POLY-1",
        "rules.toml:2: yal is \"POLY-1\"; 1 to 32 letters, digits or _ in quotes are wanted, as \"POLY\" [rules Range yal]",
    ),
    (
        "length_cost = 1 => length_cost = 1\nstart = \"Count\"",
        "rules.toml:29: anneal.start is \"Count\"; \"width\" or \"count\" is wanted [rules Range anneal.start]",
    ),
    // Each of the twelve rules.
    (
        "\"NM\"\nwidth = 3 => \"NM\"\nwidth = 5",
        "rules.toml:10: horizontal.width is 5; the rule pad >= horizontal.width wants 4 at most (pad = 2 + 2*1) [rules Tight 1]",
    ),
    (
        "\"NP\"\nwidth = 3 => \"NP\"\nwidth = 5",
        "rules.toml:14: vertical.width is 5; the rule pad >= vertical.width wants 4 at most (pad = 2 + 2*1) [rules Tight 2]",
    ),
    (
        "column = 8 => column = 6",
        "rules.toml:4: grid.column is 6; the rule grid.column >= pad + horizontal.space wants 7 at least (pad = 2 + 2*1) [rules Tight 3]",
    ),
    (
        "\"NP\"\nwidth = 3\nspace = 3 => \"NP\"\nwidth = 3\nspace = 5",
        "rules.toml:4: grid.column is 8; the rule grid.column >= pad + vertical.space wants 9 at least (pad = 2 + 2*1) [rules Tight 4]",
    ),
    (
        "track = 8 => track = 6",
        "rules.toml:5: grid.track is 6; the rule grid.track >= pad + horizontal.space wants 7 at least (pad = 2 + 2*1) [rules Tight 5]",
    ),
    (
        "track = 8 => track = 7 & \"NP\"\nwidth = 3\nspace = 3 => \"NP\"\nwidth = 3\nspace = 4",
        "rules.toml:5: grid.track is 7; the rule grid.track >= pad + vertical.space wants 8 at least (pad = 2 + 2*1) [rules Tight 6]",
    ),
    (
        "enclose = 1\nspace = 3 => enclose = 1\nspace = 7",
        "rules.toml:4: grid.column is 8; the rule grid.column >= cut.size + cut.space wants 9 at least (2 + 7) [rules Tight 7]",
    ),
    (
        "track = 8 => track = 7 & enclose = 1\nspace = 3 => enclose = 1\nspace = 6",
        "rules.toml:5: grid.track is 7; the rule grid.track >= cut.size + cut.space wants 8 at least (2 + 6) [rules Tight 8]",
    ),
    (
        "column = 8 => column = 9",
        "rules.toml:4: grid.column is 9; it has to be a multiple of 2, as 8 and 10 are [rules Tight 9]",
    ),
    (
        "centi = 100 => centi = 6",
        "rules.toml:6: grid.centi is 6; it has to be a multiple of 4, as 4 and 8 are [rules Tight 10]",
    ),
    (
        "pin = 4 => pin = 2",
        "rules.toml:7: grid.pin is 2; the rule grid.pin >= vertical.width wants 3 at least [rules Tight 11]",
    ),
    (
        "\"NC\" => \"NM\"",
        "rules.toml:17: cut.layer is NM, and so is horizontal.layer; the four layers want different names [rules Tight 12]",
    ),
];

#[test]
fn mistakes_in_rules_have_notes(rt: HostRuntime) -> Result<(), Fail> {
    for (change, note) in MISTAKES {
        let rules = changed(rt.alloc(), RULES, *change)?;
        let mut shelf = shelf_with(rt.alloc(), rules.as_str(), GATES)?;
        let notes = noted(rt.alloc(), ROUTE, &mut shelf)?;
        assert_eq!(rt; first_line(notes.as_str()), *note);
    }
    Ok(())
}

#[test]
fn empty_rules_have_a_note(rt: HostRuntime) -> Result<(), Fail> {
    let mut shelf = shelf_with(rt.alloc(), "", GATES)?;
    let notes = noted(rt.alloc(), ROUTE, &mut shelf)?;
    assert_eq!(rt;
        notes.as_str(),
        "rules.toml: version is missing: a line version = .. before the first table; 1 or 2 is wanted [rules Missing version]\n"
    );
    Ok(())
}
