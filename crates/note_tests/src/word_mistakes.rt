//! Mistakes in the words of a command, and the notes on them.

use crate::support::{first_line, noted};
use shelf_io::MemShelf;
use std::test::Fail;

/// The words, and the note.
const MISTAKES: &[(&str, &str)] = &[
    (
        "",
        "cellroute: a command is wanted: route, check, make, draw, import or help [usage]",
    ),
    (
        "rout|d|r|o",
        "cellroute: rout is no command; route, check, make, draw, import, help and version are; did you mean route? [usage]",
    ),
    (
        "d.yal|r.toml|o.cif",
        "cellroute: d.yal is no command; route, check, make, draw, import, help and version are [usage]",
    ),
    (
        "route|d|r",
        "cellroute route: OUT is missing behind route [usage]",
    ),
    (
        "check|d",
        "cellroute check: RULES is missing behind check [usage]",
    ),
    (
        "route|d|r|o|p",
        "cellroute route: p is one word too many for route [usage]",
    ),
    (
        "route|d|r|o|--row|3",
        "cellroute route: --row is no option of route; its options are --seed, --rows, --tries, --style, --edge, --ports, --labels, --progress, --quiet; did you mean --rows? [usage]",
    ),
    (
        "check|d|r|c|--rows|2",
        "cellroute check: --rows is no option of check; its options are --markers, --ports, --labels, --quiet [usage]",
    ),
    (
        "make|1|5|r|o|--edge",
        "cellroute make: --edge is no option of make; its options are --tries, --progress, --quiet [usage]",
    ),
    (
        "route|d|r|o|-s|5",
        "cellroute route: -s is no option of route; its options are --seed, --rows, --tries, --style, --edge, --ports, --labels, --progress, --quiet [usage]",
    ),
    (
        "help|rout",
        "cellroute: help stands alone; help may have the name of one command behind it: route, check, make, draw or import [usage]",
    ),
    (
        "route|d|r|o|-q|--quiet",
        "cellroute route: --quiet stands twice; it may stand once [usage]",
    ),
    (
        "route|--help",
        "cellroute route: --help stands behind route, whose help follows [usage]",
    ),
    (
        "route|d|r|o|--seed",
        "cellroute route: --seed wants a value behind it, --seed N [usage]",
    ),
    (
        "route|d|r|o|--seed|-1",
        "cellroute route: --seed wants a value behind it, --seed N, and -1 begins with a dash [usage]",
    ),
    (
        "route|d|r|o|--seed=x",
        "cellroute route: --seed is x; a number from 0 to 18446744073709551615 is wanted [usage]",
    ),
    (
        "route|--rows|0|d|r|o",
        "cellroute route: --rows is 0; a number from 1 to 512 is wanted [usage]",
    ),
    (
        "make|1|2|r|o|--tries|65",
        "cellroute make: --tries is 65; a number from 1 to 64 is wanted [usage]",
    ),
    (
        "route|d|r|o|--style|Near",
        "cellroute route: --style is Near; the styles are near, lean, high; did you mean near? [usage]",
    ),
    (
        "route|d|r|o|--style|fast",
        "cellroute route: --style is fast; the styles are near, lean, high [usage]",
    ),
    (
        "route|d|r|o|--edge|--edge",
        "cellroute route: --edge stands twice; it may stand once [usage]",
    ),
    (
        "route|d|r|o|--ports=yes",
        "cellroute route: --ports takes no value, and has yes [usage]",
    ),
    (
        "make|1|0|r|o",
        "cellroute make: N is 0; a number from 1 to 20000 is wanted [usage]",
    ),
    (
        "make|seed|5|r|o",
        "cellroute make: SEED is seed; a number from 0 to 18446744073709551615 is wanted [usage]",
    ),
];

#[test]
fn mistakes_in_words_have_notes(rt: HostRuntime) -> Result<(), Fail> {
    for (words, note) in MISTAKES {
        let mut shelf = MemShelf::new(rt.alloc())?;
        let notes = noted(rt.alloc(), *words, &mut shelf)?;
        assert_eq!(rt; first_line(notes.as_str()), *note);
    }
    Ok(())
}

#[test]
fn the_help_of_the_command_follows(rt: HostRuntime) -> Result<(), Fail> {
    let mut shelf = MemShelf::new(rt.alloc())?;
    let notes = noted(rt.alloc(), "check|d|r", &mut shelf)?;
    assert_eq!(rt;
        notes.as_str(),
        "\
cellroute check: CIF is missing behind check [usage]
cellroute check DESIGN RULES CIF [OPTIONS]
Judges the layout in CIF for the design in DESIGN under the rules in RULES: prints a line
for each thing that is wrong with it, and their number. It writes no file but FILE.
  --markers FILE write it to FILE too, as a report database of KLayout
  --ports        judge it for the design with the terminals of the PARENT as cells
  --labels       take a call as the cell whose label lies in its outline
  -q, --quiet    no notes on the standard error
"
    );
    Ok(())
}
