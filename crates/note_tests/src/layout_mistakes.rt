//! Mistakes in the text of a layout, and the notes on them.

use crate::support::{CHECK, GATES, first_line, noted, shelf_with};
use samples::RULES;
use std::test::Fail;

/// The text of a layout, and the note.
const MISTAKES: &[(&str, &str)] = &[
    (
        "L NM;\nB 4 4 0 0; \u{b5}\nE",
        "o.cif:2:12: byte 194 is no ASCII character; a layout has ASCII alone [cif NotAscii 17]",
    ),
    (
        "(cellroute 1;\nE",
        "o.cif:1:1: a comment begins here and has no end: ) is missing [cif Unclosed 0]",
    ),
    (
        "L NM;\nB 4 0 0 0;\nE",
        "o.cif:2:1: B 4 0 0 0; is no command of CIF; a box is B LENGTH WIDTH X Y;, its length and width above 0 [cif BadCommand 6]",
    ),
    (
        "DS 1; DS 2; DF; E",
        "o.cif:1:7: DS 2; is no command of CIF; a definition begins DS N A B; and ends DF;, and none stands inside another [cif BadCommand 6]",
    ),
    (
        "L metal;\nE",
        "o.cif:1:1: L metal; is no command of CIF; a layer is L NAME;, with 1 to 4 digits or upper-case letters [cif BadCommand 0]",
    ),
    (
        "L NM;\nB 4 4 0 0;\n",
        "o.cif:3:1: the text ends before its end command E, or before the ; of a command [cif NoEnd 17]",
    ),
    (
        "DS 1; E",
        "o.cif:1:7: E stands inside a definition; DF; is missing before it [cif NoEnd 6]",
    ),
    (
        "R 10 0 0; E",
        "o.cif:1:1: R draws a round flash, which is not read; boxes (B), wires (W) and polygons (P) are [cif LeftOut 0]",
    ),
    (
        "DD 1; E",
        "o.cif:1:1: DD deletes definitions, which is not read [cif LeftOut 0]",
    ),
    (
        "L NM; P 0 0 4 4 8 0; E",
        "o.cif:1:7: a direction or a side of a path lies aslant; along x or along y is wanted [cif Turned 6]",
    ),
    (
        "B 2 2000000000000 0 0;E",
        "o.cif:1:5: a number, or the whole offset of a call, is beyond 1000000000000 [cif Number 4]",
    ),
    // What commands mean.
    (
        "(a; b);\nC 2; E",
        "o.cif:2:1: symbol 2 is called, and no definition DS 2 .. DF; has ended before [cif Undefined 1]",
    ),
    (
        "DS 2; DF;\nDS 1; DF; DS 1; DF; E",
        "o.cif:2:11: symbol 1 is defined a second time; line 2 has its first definition [cif Twice 4]",
    ),
    (
        "B 4 4 0 0;E",
        "o.cif:1:1: a shape has no layer; a command L NAME; is wanted before it [cif NoLayer 0]",
    ),
    (
        "DS 1; DF; 91 u1; C 1; E",
        "o.cif:1:18: a call with a name (91) is of a symbol without one; 9 NAME; is wanted in its definition [cif NoSymbolName 3]",
    ),
    (
        "DS 1 1 3; L NM; B 1 1 0 0; DF; E",
        "o.cif:1:17: a number is no whole number of half centimicrons under the scale of its definition, DS N A B [cif Inexact 2]",
    ),
    (
        "C 7; E",
        "o.cif:1:1: symbol 7 is called, and no definition DS 7 .. DF; has ended before [cif Undefined 0]",
    ),
    (
        "DS 1; DF; C 1 T 5000000000 0; E",
        "o.cif:1:11: a coordinate is 10000000000 half centimicrons; 4000000000 at most may be [cif TooFar 2]",
    ),
];

#[test]
fn mistakes_in_a_layout_have_notes(rt: HostRuntime) -> Result<(), Fail> {
    for (layout, note) in MISTAKES {
        let mut shelf = shelf_with(rt.alloc(), RULES, GATES)?;
        shelf.set("o.cif", layout.as_bytes())?;
        let notes = noted(rt.alloc(), CHECK, &mut shelf)?;
        assert_eq!(rt; first_line(notes.as_str()), *note);
    }
    Ok(())
}
