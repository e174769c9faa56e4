//! Warnings: what is allowed, and most likely not meant.

use crate::support::{CHECK, GATES, ROUTE, changed, noted, shelf_with};
use samples::RULES;
use std::alloc::{AllocError, Global};
use std::test::Fail;

/// Whether a text has this line.
fn has_line(text: &str, line: &str) -> bool {
    text.split('\n').any(|other| other == line)
}

/// Whether these words over these changed rules and this changed design have this note.
fn is_noted(
    alloc: Global,
    words: &str,
    rules: &str,
    design: &str,
    note: &str,
) -> Result<bool, AllocError> {
    let rules = changed(alloc, RULES, rules)?;
    let design = changed(alloc, GATES, design)?;
    let mut shelf = shelf_with(alloc, rules.as_str(), design.as_str())?;
    let notes = noted(alloc, words, &mut shelf)?;
    Ok(has_line(notes.as_str(), note))
}

/// What is changed in the rules and in the design, and a note.
const WARNINGS: [(&str, &str, &str); 7] = [
    ("", "", "warning: net n4 has one pin alone, y of g2"),
    (
        "",
        "",
        "warning: net n2 has no output, and no terminal of the PARENT drives it; its first pin is b of g1",
    ),
    (
        "",
        "n2 n3 n4 => n2 n1 n3",
        "warning: net n3 has more than one output: y of g1 and y of g2",
    ),
    (
        "",
        "n1 PI; => n1 PI;\nn9 PO;",
        "warning: terminal n9 of the PARENT: no pin bears this signal",
    ),
    (
        "[grid]\ncolumn => [grid]\ncolum = 8\ncolumn",
        "",
        "warning: rules.toml:4: nobody reads the key grid.colum; did you mean column?",
    ),
    (
        "version => speed = 9\nversion",
        "",
        "warning: rules.toml:1: nobody reads the key speed",
    ),
    (
        "length_cost = 1 => length_cost = 1\n[extra]\nwidth = 3",
        "",
        "warning: rules.toml:30: nobody reads the key extra.width",
    ),
];

#[test]
fn what_is_most_likely_not_meant(rt: HostRuntime) -> Result<(), Fail> {
    for (rules, design, note) in WARNINGS {
        assert!(rt; is_noted(rt.alloc(), ROUTE, rules, design, note)?, "{note}");
    }
    Ok(())
}

/// Words, and a note on their names.
const NAMES: [(&str, &str); 6] = [
    (
        "route|my.yal|rules.toml|my.yal",
        "warning: my.yal is also the file of the design, which the layout will take the place of",
    ),
    (
        "route|my.yal|rules.toml|rules.toml",
        "warning: rules.toml is also the file of the rules, which the layout will take the place of",
    ),
    (
        "route|my.yal|rules.toml|-",
        "warning: - is a file of that name here; the standard output is /dev/stdout, and the summary stands there too",
    ),
    (
        "check|my.yal|rules.toml|o.cif|--markers|my.yal",
        "warning: my.yal is also the file of the design, which the markers will take the place of",
    ),
    (
        "check|my.yal|rules.toml|o.cif|--markers|o.cif",
        "warning: o.cif is also the file of the layout, which the markers will take the place of",
    ),
    (
        "check|my.yal|rules.toml|o.cif|--markers|-",
        "warning: - is a file of that name here; the standard output is /dev/stdout, and the findings stand there too",
    ),
];

#[test]
fn names_that_surprise(rt: HostRuntime) -> Result<(), Fail> {
    for (words, note) in NAMES {
        assert!(rt; is_noted(rt.alloc(), words, "", "", note)?, "{words}");
        let quiet = format!(in rt.alloc(); "{words}|-q")?;
        assert!(rt;
            !is_noted(rt.alloc(), quiet.as_str(), "", "", note)?,
            "{words}"
        );
    }
    Ok(())
}

/// Layouts of shapes on some layers, and the lines on the layers that they never use.
const LAYERS: [(&str, [Option<&str>; 4]); 3] = [
    (
        "L NM; B 4 4 0 0; E",
        [
            None,
            Some("warning: o.cif: no shape is on NP, the vertical.layer of the rules"),
            Some("warning: o.cif: no shape is on NC, the cut.layer of the rules"),
            Some("warning: o.cif: no shape is on XP, the outline.layer of the rules"),
        ],
    ),
    (
        "L NP; B 4 4 0 0; L NC; B 4 4 0 0; L XP; B 4 4 0 0; E",
        [
            Some("warning: o.cif: no shape is on NM, the horizontal.layer of the rules"),
            None,
            None,
            None,
        ],
    ),
    ("E", [None; 4]),
];

/// How many lines of a text are warnings of layers.
fn layer_warnings(text: &str) -> usize {
    text.split('\n')
        .filter(|line| line.starts_with("warning: o.cif: no shape is on "))
        .count()
}

#[test]
fn layers_that_a_layout_never_uses(rt: HostRuntime) -> Result<(), Fail> {
    for (layout, lines) in LAYERS {
        let mut shelf = shelf_with(rt.alloc(), RULES, GATES)?;
        shelf.set("o.cif", layout.as_bytes())?;
        let notes = noted(rt.alloc(), CHECK, &mut shelf)?;
        let mut count: usize = 0;
        for line in lines {
            if let Some(line) = line {
                assert!(rt; has_line(notes.as_str(), line), "{line}");
                count = count.saturating_add(1);
            }
        }
        assert_eq!(rt; layer_warnings(notes.as_str()), count);
    }
    Ok(())
}
