//! Texts, and the layout that each gives or the refusal.

use cif_reader::{ExpandFault, expand};
use cif_text::{CifFault, read_commands};
use geom_core::{Cell, Layout, Shape};
use std::alloc::{AllocError, Global};
use std::test::Fail;

/// Texts, and what each gives: its cells, each with its symbol, its turn, its first shape and how many it has, and its shapes; or
/// the refusal with the number of the command.
const TEXTS: [(&str, &str); 30] = [
    // whole texts
    (
        "DS 1; 9 INV; L NP; B 2 4 5 2; DF; 91 u; C 1 M X T 12 0; E",
        "u INV true 0 24 0 0 1;NP 12 0 16 8;",
    ),
    ("E", ""),
    // a shape of each level, with the layers of each
    (
        "L NM; B 2 4 0 0; DS 1; L NP; B 2 4 0 0 0 1; DF; B 2 2 9 0; C 1; C 1 T 1 2; E",
        "NM -2 -4 2 4;NM 16 -2 20 2;NP -4 -2 4 2;NP -2 2 6 6;",
    ),
    // the turn comes behind the mirroring
    (
        "DS 1; L NP; B 2 4 5 2; DF; C 1 M X R 0 1; C 1 R 0 1 M X; E",
        "NP -8 -12 0 -8;NP 0 8 8 12;",
    ),
    // the scale of a definition, which is not applied again to what it calls
    (
        "DS 1 4 2; L NP; B 2 2 1 1; DF; DS 2 3 1; C 1 T 1 1; DF; C 2; E",
        "NP 6 6 14 14;",
    ),
    // names: the last one of a symbol counts, and a name waits over comments and other user commands alone
    (
        "DS 1; 9 A; L NP; B 2 2 0 0; 9 B; DF; 91 u; () ; 5 x; C 1; 91 v; 9 w; C 1; E",
        "u B false 0 0 0 0 1;NP -2 -2 2 2;NP -2 -2 2 2;",
    ),
    (
        "DS 1; 9 A; DF; 91 u; C 1; 91 v; L NP; C 1; E",
        "u A false 0 0 0 0 0;",
    ),
    // labels are passed over, also between a name and its call, and inside a definition
    (
        "94 a b; 94; L NM; 94 x 1 2 NM; B 2 2 0 0; 94 y 3 4 NP; B 2 2 5 0; E",
        "NM -2 -2 2 2;NM 8 -2 12 2;",
    ),
    (
        "DS 1; 9 A; 94 s 0 0 NP; L NP; 94 t; B 2 2 0 0; DF; 91 n; 94 n 0 0 NP; C 1; 94 n 0 0; E",
        "n A false 0 0 0 0 1;NP -2 -2 2 2;",
    ),
    // what is not called is not drawn
    ("DS 1; L NP; B 2 2 0 0; DF; E", ""),
    // a call before the end of its definition, or of another
    ("C 2; E", "Undefined(2) 0"),
    ("DS 5; C 5; DF; E", "Undefined(5) 1"),
    ("DS 1; C 2; DF; DS 2; DF; E", "Undefined(2) 1"),
    ("DS 1; DF; DS 1; DF; E", "Twice(1) 2"),
    // scales
    ("DS 1 1 2; L NM; B 3 4 2 2; DF; C 1; E", "Inexact 2"),
    ("DS 1; DF; DS 2 1 3; C 1 T 1 0; DF; E", "Inexact 3"),
    ("DS 1 1 2; L NM; B 4 4 -2 2; DF; C 1; E", "NM -4 0 0 4;"),
    // far offsets, and far shapes under near ones
    (
        "DS 1; L NM; B 2 2 0 0; DF; C 1 T 2000000001 0; E",
        "TooFar(4000000002) 4",
    ),
    ("DS 1; DF; C 1 T 0 -2000000001; E", "TooFar(-4000000002) 2"),
    (
        "DS 1; L NM; B 2 2 0 0; DF; C 1 R 0 1 T 0 -2000000000; E",
        "TooFar(-4000000002) 4",
    ),
    (
        "DS 1; L NM; B 2 2 7 0; B 2 2 0 0; DF; C 1 M X T 2000000000 0; E",
        "TooFar(4000000002) 5",
    ),
    (
        "DS 1; L NM; B 2 2 7 0; DF; C 1 M X T 2000000000 0; E",
        "NM 3999999984 -2 3999999988 2;",
    ),
    ("B 2 2 0 2000000000; E", "TooFar(4000000002) 0"),
    (
        "L NM; B 2 2 0 1999999999; E",
        "NM -2 3999999996 2 4000000000;",
    ),
    (
        "DS 1 1000000000000 1; L NM; B 1 1 1000000000000 0; DF; E",
        "TooFar(1999999999999000000000000) 2",
    ),
    // no layer, no name
    ("L NM; DS 1; B 2 2 0 0; DF; E", "NoLayer 2"),
    ("DS 1; L NM; DF; B 2 2 0 0; E", "NoLayer 3"),
    ("DS 1; DF; 91 u; C 1; E", "NoSymbolName 3"),
    ("DS 1; DF; DS 2; 91 u; C 1; DF; C 2; E", ""),
    ("91 u; C 3; E", "Undefined(3) 1"),
];

fn put_cell(alloc: Global, into: &mut Vec<u8>, cell: &Cell) -> Result<(), AllocError> {
    let turn = cell.turn;
    into.extend_from_slice(cell.name.items())?;
    into.extend_from_slice(b" ")?;
    into.extend_from_slice(cell.symbol.items())?;
    let line = format!(in alloc;
        " {} {} {} {} {} {};",
        turn.flip, turn.quarters, turn.dx, turn.dy, cell.first, cell.count
    )?;
    into.extend_from_slice(line.as_bytes())
}

fn put_shape(alloc: Global, into: &mut Vec<u8>, shape: &Shape) -> Result<(), AllocError> {
    let rect = shape.rect;
    into.extend_from_slice(shape.layer.text())?;
    let line = format!(in alloc; " {} {} {} {};", rect.x0, rect.y0, rect.x1, rect.y1)?;
    into.extend_from_slice(line.as_bytes())
}

fn shown_layout(alloc: Global, layout: &Layout) -> Result<Vec<u8>, AllocError> {
    let mut text = Vec::new(alloc);
    for cell in layout.cells.items() {
        put_cell(alloc, &mut text, cell)?;
    }
    for shape in layout.shapes.items() {
        put_shape(alloc, &mut text, shape)?;
    }
    Ok(text)
}

/// What the text gives, or None where it does not read as commands.
pub(crate) fn expanded(
    alloc: Global,
    text: &[u8],
) -> Result<Option<Result<Layout, ExpandFault>>, AllocError> {
    if text.len() >= 1 << 24 {
        return Ok(None);
    }
    match read_commands(alloc, text) {
        Ok(commands) => Ok(Some(expand(alloc, commands.as_slice()))),
        Err(CifFault::Bad { .. }) => Ok(None),
        Err(CifFault::Memory) => Err(AllocError),
    }
}

/// What the text gives, shown as a text.
pub(crate) fn shown(alloc: Global, text: &[u8]) -> Result<Vec<u8>, AllocError> {
    told(alloc, expanded(alloc, text)?)
}

/// A layout or a refusal, shown as a text.
pub(crate) fn told(
    alloc: Global,
    found: Option<Result<Layout, ExpandFault>>,
) -> Result<Vec<u8>, AllocError> {
    match found {
        Some(Ok(layout)) => shown_layout(alloc, &layout),
        Some(Err(ExpandFault::Bad { kind, at })) => format!(in alloc; "{kind:?} {at}")?
            .as_bytes()
            .to_vec(alloc),
        Some(Err(ExpandFault::Memory)) => Err(AllocError),
        None => b"unread".to_vec(alloc),
    }
}

/// Whether each of these texts gives what stands beside it.
pub(crate) fn are_given(alloc: Global, texts: &[(&str, &str)]) -> Result<bool, AllocError> {
    for (text, want) in texts {
        if shown(alloc, text.as_bytes())?.as_slice() != want.as_bytes() {
            return Ok(false);
        }
    }
    Ok(true)
}

#[test]
fn texts_give_their_layouts(rt: HostRuntime) -> Result<(), Fail> {
    assert!(rt; are_given(rt.alloc(), &TEXTS)?);
    Ok(())
}

/// Puts the call of a definition at the end of a text.
fn put_call(alloc: Global, text: &mut Vec<u8>, n: u32) -> Result<(), AllocError> {
    text.extend_from_slice(format!(in alloc; "C {n};")?.as_bytes())
}

/// Puts a definition that calls the one before it once or twice.
fn put_definition(
    alloc: Global,
    text: &mut Vec<u8>,
    n: u32,
    twice: bool,
) -> Result<(), AllocError> {
    text.extend_from_slice(format!(in alloc; "DS {n};")?.as_bytes())?;
    put_call(alloc, text, n.saturating_sub(1))?;
    if twice {
        put_call(alloc, text, n.saturating_sub(1))?;
    }
    text.extend_from_slice(b"DF;")
}

/// A definition with a box or without one, and others up to this number, each of which calls the one before it once or twice.
fn nested(
    alloc: Global,
    body: &str,
    last: u32,
    twice: bool,
    main: &str,
) -> Result<Vec<u8>, AllocError> {
    let mut text = Vec::new(alloc);
    text.extend_from_slice(body.as_bytes())?;
    for n in 2..=last {
        put_definition(alloc, &mut text, n, twice)?;
    }
    text.extend_from_slice(main.as_bytes())?;
    Ok(text)
}

pub(crate) const BOX: &str = "DS 1; L NM; B 2 2 0 0; DF;";

const EMPTY: &str = "DS 1; DF;";

/// The first definition, the number of the last one, whether each calls the one before it twice, what stands behind them, and what all
/// gives.
const NESTED: [(&str, u32, bool, &str, &str); 6] = [
    // doubled shapes are too many, and doubled nothing is nothing
    (BOX, 23, true, "E", "TooMany 90"),
    (BOX, 60, true, "C 60; E", "TooMany 90"),
    (EMPTY, 63, true, "C 63; C 63; E", ""),
    // depths up to 64
    (EMPTY, 64, false, "C 63; E", ""),
    (EMPTY, 64, false, "C 64; E", "TooDeep 191"),
    (EMPTY, 65, false, "E", "TooDeep 192"),
];

/// Whether definitions that call one another give this.
pub(crate) fn is_nested(
    alloc: Global,
    body: &str,
    last: u32,
    twice: bool,
    main: &str,
    want: &str,
) -> Result<bool, AllocError> {
    let text = nested(alloc, body, last, twice, main)?;
    Ok(shown(alloc, text.as_slice())?.as_slice() == want.as_bytes())
}

#[test]
fn definitions_call_one_another(rt: HostRuntime) -> Result<(), Fail> {
    for (body, last, twice, main, want) in NESTED {
        assert!(rt;
            is_nested(rt.alloc(), body, last, twice, main, want)?,
            "{last} {main}"
        );
    }
    Ok(())
}

/// Definitions of 2^21 boxes each, of which none is called.
fn uncalled(alloc: Global) -> Result<Vec<u8>, AllocError> {
    let mut text = nested(alloc, BOX, 22, true, "")?;
    for n in 23..=62u32 {
        text.extend_from_slice(format!(in alloc; "DS {n}; C 22; DF;")?.as_bytes())?;
    }
    text.extend_from_slice(b"E")?;
    Ok(text)
}

#[test]
fn what_is_not_called_costs_nothing(rt: HostRuntime) -> Result<(), Fail> {
    let text = uncalled(rt.alloc())?;
    assert!(rt; shown(rt.alloc(), text.as_slice())?.is_empty());
    Ok(())
}

/// Whether a layout has 2^15 shapes, each from 0 to 4.
fn has_boxes(layout: &Layout) -> bool {
    for shape in layout.shapes.items() {
        if shape.rect.x0 != 0 || shape.rect.x1 != 4 {
            return false;
        }
    }
    layout.shapes.items().len() == 32_768
}

#[test]
fn many_shapes_are_drawn(rt: HostRuntime) -> Result<(), Fail> {
    let text = nested(rt.alloc(), BOX, 16, true, "C 16 T 1 0; E")?;
    let Some(Ok(layout)) = expanded(rt.alloc(), text.as_slice())? else {
        assert!(rt; false);
        return Ok(());
    };
    assert!(rt; has_boxes(&layout));
    Ok(())
}
