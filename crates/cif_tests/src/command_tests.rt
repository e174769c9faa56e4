//! Texts that read, and their commands.

use crate::shown::are_shown;
use std::test::Fail;

/// Texts, and the commands that each reads as. A box has `true` where it is upright, and a call where it is flipped.
const TEXTS: [(&str, &str); 43] = [
    // whole texts
    (
        "DS 1; 9 INV; L NP; B 2 4 5 2; DF; 91 u; C 1 M X T 12 0; E",
        "DS 1 1 1;9 INV;L NP;B 2 4 5 2 false;DF;91 u;C 1 true 0 12 0;E",
    ),
    (
        "(a (b;) c);Define Start 1; Layer NM; Box 4 4 2 2; Define Finish; Call 1; End",
        "();DS 1 1 1;L NM;B 4 4 2 2 false;DF;C 1 false 0 0 0;E",
    ),
    (
        "DS 1 1 2; L NM; B 3 4 2 2; DF; C 1; E",
        "DS 1 1 2;L NM;B 3 4 2 2 false;DF;C 1 false 0 0 0;E",
    ),
    ("C 2; E", "C 2 false 0 0 0;E"),
    // what is passed over
    ("E", "E"),
    ("E what follows; )(", "E"),
    (" ;;\n,;end of nothing;E", "E"),
    // comments
    ("(a) b ;E", "();E"),
    ("(());();E", "();();E"),
    // user commands
    ("4 (a;b E", "0 (a;E"),
    ("91 a(b;E", "91 a(b;E"),
    ("9 1x;E", "9 1x;E"),
    ("9\n\x7f a b\t;E", "9 a b;E"),
    ("5;E", "0 ;E"),
    ("99 a;E", "0 a;E"),
    ("912 a;E", "0 a;E"),
    ("81 a;E", "0 a;E"),
    // labels
    ("94 a b;E", "94 a b;E"),
    ("94;E", "94 ;E"),
    ("94\tx 1 -2 NM ;E", "94 x 1 -2 NM;E"),
    ("944 a;E", "0 a;E"),
    // layers
    ("L NM;E", "L NM;E"),
    ("Layer0AZ9 ;E", "L 0AZ9;E"),
    // boxes
    ("B1X2Y3 4;E", "B 1 2 3 4 false;E"),
    ("B 2 4 -5 -0 0 1;E", "B 2 4 -5 0 true;E"),
    ("B 2 4 5 2 0 -7Z ;E", "B 2 4 5 2 true;E"),
    ("B 2 4 5 2 3 0;E", "B 2 4 5 2 false;E"),
    ("B 2 4 5 2 -3 0;E", "B 2 4 5 2 false;E"),
    (
        "B 1000000000000 007 -1000000000000 00000000000000002;E",
        "B 1000000000000 7 -1000000000000 2 false;E",
    ),
    // wires
    ("W 4 0 0 10,0X10 10 ;E", "W 4 0 0 10 0 10 10;E"),
    ("Wire4 5 -5Q;E", "W 4 5 -5;E"),
    ("W 1 0 0 0 0;E", "W 1 0 0 0 0;E"),
    (
        "W1000000000000 -1000000000000 007;E",
        "W 1000000000000 -1000000000000 7;E",
    ),
    // polygons
    (
        "P0 0 10 0 10 4 10,-4X0 -4 ;E",
        "P 0 0 10 0 10 4 10 -4 0 -4;E",
    ),
    ("Path 1 2 1 2 1 2;E", "P 1 2 1 2 1 2;E"),
    // definitions
    ("D S 3 2 5 Q;D F ;E", "DS 3 2 5;DF;E"),
    ("DS0;DF;DS 0 X;DF;E", "DS 0 1 1;DF;DS 0 1 1;DF;E"),
    // calls, whose steps apply from left to right
    ("C 1T5 6MX;E", "C 1 true 0 -5 6;E"),
    ("C 1 T 5,6;E", "C 1 false 0 5 6;E"),
    ("C 1 R 0 2 T 3 4 M Y;E", "C 1 true 1 3 -4;E"),
    ("C 1 T 3 4 R -1 0 M X R 0 -5;E", "C 1 true 1 -4 -3;E"),
    (
        "C 1 T 1000000000000 0 T 1000000000000 -9 T -1000000000000 9;E",
        "C 1 false 0 1000000000000 0;E",
    ),
    ("C A 7 ;E", "C 7 false 0 0 0;E"),
];

#[test]
fn texts_read_as_their_commands(rt: HostRuntime) -> Result<(), Fail> {
    assert!(rt; are_shown(rt.alloc(), &TEXTS)?);
    Ok(())
}
