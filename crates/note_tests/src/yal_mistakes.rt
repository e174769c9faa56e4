//! Mistakes in the text of a design, and the notes on them.

use crate::support::{GATES, ROUTE, changed, first_line, noted, shelf_with};
use samples::RULES;
use std::test::Fail;

/// What is changed in the design, and the note.
const MISTAKES: &[(&str, &str)] = &[
    // A semicolon is forgotten behind a heading, behind numbers, and in a list.
    (
        "MODULE AND2; => MODULE AND2",
        "my.yal:2:1: a ; is missing behind AND2, before TYPE [yal Word 12]",
    ),
    (
        "24 40 0 40; => 24 40 0 40",
        "my.yal:4:1: IOLIST is no number, and a number of DIMENSIONS is wanted here; a ; is perhaps missing behind 40 [yal Number 59]",
    ),
    (
        "IOLIST;\na => IOLIST\na",
        "my.yal:5:1: a ; is missing behind IOLIST, before a [yal Word 67]",
    ),
    // It is forgotten before an end, which then is none.
    (
        "vss GND;\nENDIOLIST; => vss GND\nENDIOLIST;",
        "my.yal:11:10: the IOLIST of AND2 has no end before ENDMODULE: a ; is missing behind GND, before ENDIOLIST in line 10 [yal Word 156]",
    ),
    (
        "n4 vdd vss;\nENDNETWORK; => n4 vdd vss\nENDNETWORK;",
        "my.yal:22:10: the NETWORK of top has no end before ENDMODULE: a ; is missing behind vss, before ENDNETWORK in line 21 [yal Word 321]",
    ),
    // An end is forgotten.
    (
        "vss GND;\nENDIOLIST;\n => vss GND;\n",
        "my.yal:10:10: ENDIOLIST; is missing before ENDMODULE: the IOLIST of AND2 has no end [yal Word 146]",
    ),
    (
        "n1 PI;\nENDIOLIST;\n => n1 PI;\n",
        "my.yal:17:8: ENDIOLIST; is missing before NETWORK: the IOLIST of top has no end [yal Word 236]",
    ),
    (
        "ENDNETWORK;\n => ",
        "my.yal:21:10: ENDNETWORK; is missing before ENDMODULE: the NETWORK of top has no end [yal Word 310]",
    ),
    (
        "ENDIOLIST;\nENDMODULE;\n => ENDIOLIST;\n",
        "my.yal:11:1: ENDMODULE; is missing before MODULE: module AND2 has no end [yal Word 148]",
    ),
    (
        "ENDNETWORK;\nENDMODULE;\n => ENDNETWORK;\n",
        "my.yal:22:1: the text ends inside module top: ENDMODULE; is missing [yal Ends 313]",
    ),
    (
        "vdd vss;\nENDNETWORK;\nENDMODULE;\n => vdd vss;\n",
        "my.yal:21:1: the text ends inside module top: ENDNETWORK; is missing, and ENDMODULE; behind it [yal Ends 301]",
    ),
    (
        "vdd vss;\nENDNETWORK;\nENDMODULE;\n => vdd vss",
        "my.yal:20:25: the text ends inside module top: a ; is missing behind vss [yal Ends 299]",
    ),
    // A word of its own making.
    (
        "STANDARD => STANDART",
        "my.yal:2:6: STANDART is no type of a module; STANDARD, PAD, GENERAL and PARENT are; did you mean STANDARD? [yal Word 18]",
    ),
    (
        "a I 4 => a IN 4",
        "my.yal:5:3: IN is no flow of a; I, O, B, PI, PO, PB, F, PWR and GND are [yal Word 70]",
    ),
    (
        "NETWORK; => NETWROK;",
        "my.yal:18:1: NETWROK begins no section of module top; DIMENSIONS, IOLIST, NETWORK and some more do, and ENDMODULE; ends it; did you mean NETWORK? [yal Word 240]",
    ),
    (
        "MODULE AND2; => # gates\nMODULE AND2;",
        "my.yal:1:1: MODULE is wanted here, not #; comments stand between /* and */ [yal Word 0]",
    ),
    (
        "TYPE STANDARD;\n => ",
        "my.yal:2:1: TYPE is wanted behind MODULE AND2;, not DIMENSIONS: each module begins MODULE NAME; TYPE KIND; [yal Word 13]",
    ),
    // Something is left out.
    (
        "a I 4 0 3 POLY; => a I 4 0 3;",
        "my.yal:5:10: the line of a lacks its layer; a line of a STANDARD module is NAME FLOW X Y WIDTH LAYER ; [yal Word 77]",
    ),
    (
        "a I 4 0 3 POLY; => a;",
        "my.yal:5:2: a has no flow; a line of an IOLIST is NAME FLOW .. ; [yal Word 69]",
    ),
    (
        "g1 AND2 n1 n2 n3 vdd vss; => g1;",
        "my.yal:19:3: g1 calls no module; a call is NAME MODULE SIGNAL .. ; [yal Word 251]",
    ),
    // Numbers that are none.
    (
        "a I 4 0 => a I 4.0 0",
        "my.yal:5:5: 4.0 has a point, and under version = 1 of the rules numbers are whole; with version = 2 and decimals = 1 to 4 they may have one [yal Number 72]",
    ),
    (
        "a I 4 0 3 POLY => a I POLY 4 0 3",
        "my.yal:5:5: POLY is no number, and X is wanted here: digits, perhaps behind a - [yal Number 72]",
    ),
    (
        "0 0 24 => 0 0 240000000",
        "my.yal:3:16: 240000000 is too far; numbers are from -100000000 to 100000000 units [yal Number 43]",
    ),
    // Names and sections that stand twice.
    (
        "MODULE top; => MODULE AND2;",
        "my.yal:12:8: a module named AND2 stands at line 1 already; each needs a name of its own [yal Twice 166]",
    ),
    (
        "g2 AND2 => g1 AND2",
        "my.yal:20:1: an instance named g1 stands at line 19 already; each needs a name of its own [yal Twice 275]",
    ),
    (
        "ENDNETWORK;\n => ENDNETWORK;\nNETWORK;\nENDNETWORK;\n",
        "my.yal:22:1: module top has NETWORK at line 18 already; it may stand once in a module [yal Twice 313]",
    ),
    // Bytes and comments.
    (
        "MODULE top; => MODULE t\u{f6}p;",
        "my.yal:12:9: byte 195 is no ASCII character; a design has ASCII alone, in its comments too [yal NotAscii 167]",
    ),
    (
        "MODULE top; => /* the top *\nMODULE top;",
        "my.yal:12:1: a comment begins here and has no end: */ is missing [yal OpenComment 159]",
    ),
];

#[test]
fn mistakes_in_a_text_have_notes(rt: HostRuntime) -> Result<(), Fail> {
    for (change, note) in MISTAKES {
        let design = changed(rt.alloc(), GATES, *change)?;
        let mut shelf = shelf_with(rt.alloc(), RULES, design.as_str())?;
        let notes = noted(rt.alloc(), ROUTE, &mut shelf)?;
        assert_eq!(rt; first_line(notes.as_str()), *note);
    }
    Ok(())
}
