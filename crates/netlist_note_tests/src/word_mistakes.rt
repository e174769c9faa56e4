//! Mistakes in the words of the commands `draw` and `import`, and the notes on them.

use crate::support::{gives_command, note_on};
use std::test::Fail;

/// The words, and the note.
const MISTAKES: &[(&str, &str)] = &[
    (
        "",
        "cellroute: a command is wanted: route, check, make, draw, import or help [usage]",
    ),
    (
        "drw|l|o",
        "cellroute: drw is no command; route, check, make, draw, import, help and version are; did you mean draw? [usage]",
    ),
    (
        "help|me",
        "cellroute: help stands alone; help may have the name of one command behind it: route, check, make, draw or import [usage]",
    ),
    (
        "draw|l",
        "cellroute draw: OUT is missing behind draw [usage]",
    ),
    (
        "draw|l|o|p",
        "cellroute draw: p is one word too many for draw [usage]",
    ),
    (
        "draw|l|o|--part|1,1,2,2",
        "cellroute draw: --part is no option of draw; its options are --box, --rules, --quiet [usage]",
    ),
    (
        "draw|l|o|--rule|r",
        "cellroute draw: --rule is no option of draw; its options are --box, --rules, --quiet; did you mean --rules? [usage]",
    ),
    (
        "draw|l|o|--rules",
        "cellroute draw: --rules wants a value behind it, --rules RULES [usage]",
    ),
    (
        "draw|l|o|--rules=a|--rules=b",
        "cellroute draw: --rules stands twice; it may stand once [usage]",
    ),
    (
        "draw|--help",
        "cellroute draw: --help stands behind draw, whose help follows [usage]",
    ),
    (
        "import|m",
        "cellroute import: CELLS is missing behind import [usage]",
    ),
    (
        "import|m|c|o|p",
        "cellroute import: p is one word too many for import [usage]",
    ),
    (
        "import|m|c|o|--rules|r",
        "cellroute import: --rules is no option of import; its options are --decimals, --quiet [usage]",
    ),
    (
        "import|m|c|o|--decimals",
        "cellroute import: --decimals wants a value behind it, --decimals D [usage]",
    ),
    (
        "import|m|c|o|--decimals|5",
        "cellroute import: --decimals is 5; a number from 0 to 4 is wanted [usage]",
    ),
    (
        "import|--decimals=2.5|m|c|o",
        "cellroute import: --decimals is 2.5; a number from 0 to 4 is wanted [usage]",
    ),
    (
        "import|m|c|o|-q|-q",
        "cellroute import: --quiet stands twice; it may stand once [usage]",
    ),
    (
        "check|d|r|c|--marker|f",
        "cellroute check: --marker is no option of check; its options are --markers, --ports, --labels, --quiet; did you mean --markers? [usage]",
    ),
    (
        "check|d|r|c|--markers",
        "cellroute check: --markers wants a value behind it, --markers FILE [usage]",
    ),
];

#[test]
fn mistakes_in_words_have_notes(rt: HostRuntime) -> Result<(), Fail> {
    for (text, note) in MISTAKES {
        let told = note_on(rt.alloc(), *text)?;
        assert_eq!(rt; told.as_str(), *note);
        assert!(rt; !gives_command(rt.alloc(), *text)?);
    }
    Ok(())
}
