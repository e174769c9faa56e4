//! Texts whose cells are told by labels, as KLayout and Magic save them, and the layout that each gives or the refusal.

use crate::expansion_tests::told;
use cif_reader::ExpandFault;
use cif_text::{CifFault, read_commands};
use geom_core::{LayerName, Layout};
use label_reader::expand_labelled;
use std::alloc::{AllocError, Global};
use std::test::Fail;

/// Texts, and what each gives where labels on the layer XP name the cells: its cells, each with its symbol, its turn, its first shape and how many it has, and its shapes; or the
/// refusal with the number of the command.
const LABELLED: &[(&str, &str)] = &[
    // KLayout saves the main level as a definition that nothing calls, with calls that have no names
    (
        "DS 1 1 10; 9 INV; L XP; B 80 400 40,200; DF; DS 2 1 10; 9 CIF_TOP; C1 R1,0 T0,0; C1 R1,0 T80,0; L XP; 94 u 40,200 0; 94 v 120,200 0; L NP; 94 n 40,200 0; B 20 20 10,10; DF; E",
        "u INV false 0 0 0 0 1;v INV false 0 16 0 1 1;XP 0 0 16 80;XP 16 0 32 80;NP 0 0 4 4;",
    ),
    // Magic saves a definition before those that it calls, and calls the first of them at the main level
    (
        "DS 2; 91 u; C 1; DF; DS 1; 9 A; L NP; B 2 2 0 0; DF; C 2; E",
        "u A false 0 0 0 0 1;NP -2 -2 2 2;",
    ),
    (
        "DS 3; C 2; DF; DS 2; C 1; DF; DS 1; L NP; B 2 2 0 0; DF; C 3 T 5 0; E",
        "NP 8 -2 12 2;",
    ),
    // a layout as it is written, with a call without a label
    (
        "DS 1; 9 A; L XP; B 4 4 2 2; DF; 91 u; C 1; L XP; 94 u 2 2; C 1 T 10 0; E",
        "u A false 0 0 0 0 1;XP 0 0 8 8;XP 20 0 28 8;",
    ),
    // labels count, and not names
    (
        "DS 1; 9 A; L XP; B 4 4 2 2; DF; 91 x; C 1; 91 y; C 1 T 10 0; L XP; 94 u 2 2; E",
        "u A false 0 0 0 0 1;XP 0 0 8 8;XP 20 0 28 8;",
    ),
    // names count where no label is on the outline layer
    (
        "DS 1; 9 A; L XP; B 4 4 2 2; DF; 91 x; C 1; 94 u 2 2; L NP; 94 u 2 2; E",
        "x A false 0 0 0 0 1;XP 0 0 8 8;",
    ),
    // the first of two labels inside an outline, of which one is on its edge
    (
        "DS 1; 9 A; L XP; B 4 4 2 2; DF; C 1; C 1 T 1 0; L XP; 94 a 4 4; 94 b 1 1; E",
        "a A false 0 0 0 0 1;a A false 0 2 0 1 1;XP 0 0 8 8;XP 2 0 10 8;",
    ),
    (
        "DS 1; 9 A; L XP; B 4 4 2 2; DF; C 1; C 1 T 1 0; L XP; 94 a 5 4; 94 b 1 1; E",
        "b A false 0 0 0 0 1;a A false 0 2 0 1 1;XP 0 0 8 8;XP 2 0 10 8;",
    ),
    // under a turn
    (
        "DS 1; 9 A; L XP; B 4 4 2 2; DF; C 1 M X T 4 0; L XP; 94 u 1 1; E",
        "u A true 0 8 0 0 1;XP 0 0 8 8;",
    ),
    // shapes on other layers are no outline
    (
        "DS 1; 9 A; L NP; B 4 4 2 2; DF; C 1; C 1; L XP; 94 u 2 2; E",
        "NP 0 0 8 8;NP 0 0 8 8;",
    ),
    // what is no label: without a second number, and at a place that is not whole in half centimicrons
    (
        "DS 1; 9 A; L XP; B 4 4 2 2; DF; C 1; C 1; L XP; 94 u 1; 94 v x y; 94; 94 w 1 1 XP; E",
        "w A false 0 0 0 0 1;w A false 0 0 0 1 1;XP 0 0 8 8;XP 0 0 8 8;",
    ),
    (
        "DS 1; 9 A; L XP; B 4 4 2 2; DF; DS 2 1 3; C 1; L XP; 94 u 1 0; DF; E",
        "XP 0 0 8 8;",
    ),
    (
        "DS 1; 9 A; L XP; B 4 4 2 2; DF; DS 2 1 3; C 1; L XP; 94 u 3 0; DF; E",
        "u A false 0 0 0 0 1;XP 0 0 8 8;",
    ),
    // the top: the last definition, the one that is called, and the main level where its call has a turn or another command draws
    (
        "DS 1; L NP; B 2 2 0 0; DF; DS 2; L NM; B 2 2 0 0; DF; E",
        "NM -2 -2 2 2;",
    ),
    (
        "DS 1; 9 A; L XP; B 2 2 0 0; DF; DS 2; C 1; L XP; 94 u 0 0; DF; C 2; E",
        "u A false 0 0 0 0 1;XP -2 -2 2 2;",
    ),
    (
        "DS 1; 9 A; L XP; B 2 2 0 0; DF; DS 2; C 1; L XP; 94 u 0 0; DF; C 2 M X; E",
        "XP -2 -2 2 2;",
    ),
    (
        "DS 1; 9 A; L XP; B 2 2 0 0; DF; DS 2; C 1; L XP; 94 u 0 0; DF; C 2; L NP; B 2 2 0 0; E",
        "XP -2 -2 2 2;NP -2 -2 2 2;",
    ),
    ("E", ""),
    // refusals, with the number that a command has in the text
    ("DS 1; C 2; DF; DS 2; C 1; DF; E", "Undefined(2) 1"),
    ("DS 1; C 1; DF; E", "Undefined(1) 1"),
    ("C 7; E", "Undefined(7) 0"),
    ("DS 1; DF; DS 1; DF; E", "Twice(1) 2"),
    (
        "DS 2; C 1; DF; DS 1; L NP; B 2 2 0 0; B 2 2 0 2000000000; DF; C 2; E",
        "TooFar(4000000002) 6",
    ),
    (
        "DS 1; L XP; B 4 4 2 2; DF; C 1; C 1; L XP; 94 u 2 2; E",
        "NoSymbolName 4",
    ),
];

/// What the text gives where labels on this layer name the cells, or None where it does not read as commands.
fn labelled(
    alloc: Global,
    text: &[u8],
    outline: &LayerName,
) -> Result<Option<Result<Layout, ExpandFault>>, AllocError> {
    if text.len() >= 1 << 24 {
        return Ok(None);
    }
    match read_commands(alloc, text) {
        Ok(commands) => Ok(Some(expand_labelled(alloc, commands.as_slice(), outline))),
        Err(CifFault::Bad { .. }) => Ok(None),
        Err(CifFault::Memory) => Err(AllocError),
    }
}

/// Whether a text gives this.
fn is_labelled(
    alloc: Global,
    text: &str,
    outline: &LayerName,
    want: &str,
) -> Result<bool, AllocError> {
    let found = told(alloc, labelled(alloc, text.as_bytes(), outline)?)?;
    Ok(found.as_slice() == want.as_bytes())
}

#[test]
fn labels_name_cells(rt: HostRuntime) -> Result<(), Fail> {
    let outline = LayerName::new(b"XP").expect(&rt, "a layer");
    for (text, want) in LABELLED {
        assert!(rt; is_labelled(rt.alloc(), text, &outline, want)?, "{text}");
    }
    Ok(())
}
