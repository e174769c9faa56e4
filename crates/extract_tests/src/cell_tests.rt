//! Small layouts of cells, with wires and without.

use crate::texts::{extract_of, first_equal};
use samples::{BUFFER, DRIVER, THROUGH};
use std::alloc::{AllocError, Global};
use std::test::Fail;

/// The symbol of BUF, and two copies of it next to each other.
const TWO_BUFFERS: &str =
    "DS 1 1 1; 9 BUF; L XP; B 800 4000 400 2000; L NP; B 300 400 400 3800; DF; 91 u1; C 1 T 0 800; 91 u2; C 1 T 800 800;";

/// A wire above them that joins their pins: two verticals, a horizontal, and a pad of each layer with a cut where they cross.
const WIRE: &str =
    "L NP; B 300 1000 400 5300; B 300 1000 1200 5300; L NM; B 1200 300 800 5600; B 400 400 400 5600; L NP; B 400 400 400 5600; L NC; B 200 200 400 5600; L NM; B 400 400 1200 5600; L NP; B 400 400 1200 5600; L NC; B 200 200 1200 5600;";

/// Two copies of THR, one over the other, of which the second is mirrored.
const TWO_THROUGHS: &str =
    "DS 1 1 1; 9 THR; L XP; B 800 4000 400 2000; L NP; B 300 400 400 200; B 300 400 400 3800; DF; 91 u1; C 1 T 0 800; 91 u2; C 1 M X T 800 8000; E";

const ONE_DRIVER: &str =
    "DS 7 1 1; 9 DRV; L XP; B 1600 4000 800 2000; L NP; B 300 400 400 200; B 300 400 1200 3800; DF; 91 u1; C 7 T 0 0; E";

/// The places of the first shapes that have the numbers of the pins, and of the first that have those of the shapes.
fn shown(
    alloc: Global,
    modules: &str,
    calls: &str,
    text: &str,
) -> Result<Option<Vec<usize>>, AllocError> {
    let Some(extract) = extract_of(alloc, modules, calls, text.as_bytes())? else {
        return Ok(None);
    };
    let mut numbers = extract.shapes;
    for pin in extract.pins.as_slice() {
        numbers.push(*pin)?;
    }
    Ok(Some(first_equal(alloc, numbers.as_slice())?))
}

/// Whether the shapes and then the pins are numbered so.
fn is_shown(
    alloc: Global,
    modules: &str,
    calls: &str,
    text: &str,
    want: &[usize],
) -> Result<bool, AllocError> {
    match shown(alloc, modules, calls, text)? {
        Some(places) => Ok(places.as_slice() == want),
        None => Ok(false),
    }
}

// Shapes 0 and 2 are the outlines, and 1 and 3 the pins' shapes.
#[test]
fn a_wire_joins_two_pins(rt: HostRuntime) -> Result<(), Fail> {
    let text = format!(in rt.alloc(); "{TWO_BUFFERS}{WIRE}E")?;
    let want = [0, 1, 2, 1, 1, 1, 1, 1, 1, 1, 1, 1, 1, 1, 1];
    assert!(rt;
        is_shown(
            rt.alloc(),
            BUFFER,
            "u1 BUF n; u2 BUF n;",
            text.as_str(),
            &want
        )?
    );
    Ok(())
}

// The nets of the design don't join what no shapes join.
#[test]
fn two_pins_without_a_wire_are_apart(rt: HostRuntime) -> Result<(), Fail> {
    let text = format!(in rt.alloc(); "{TWO_BUFFERS}E")?;
    let want = [0, 1, 2, 3, 1, 3];
    assert!(rt;
        is_shown(
            rt.alloc(),
            BUFFER,
            "u1 BUF n; u2 BUF n;",
            text.as_str(),
            &want
        )?
    );
    Ok(())
}

#[test]
fn a_wire_that_lacks_a_cut_does_not_join(rt: HostRuntime) -> Result<(), Fail> {
    let wire = "L NP; B 300 1000 400 5300; B 300 1000 1200 5300; L NM; B 1200 300 800 5600;";
    let text = format!(in rt.alloc(); "{TWO_BUFFERS}{wire}E")?;
    let want = [0, 1, 2, 3, 1, 3, 6, 1, 3];
    assert!(rt;
        is_shown(
            rt.alloc(),
            BUFFER,
            "u1 BUF n; u2 BUF n;",
            text.as_str(),
            &want
        )?
    );
    Ok(())
}

// Both positions of a terminal are one, each cell for itself.
#[test]
fn positions_of_a_terminal_are_joined(rt: HostRuntime) -> Result<(), Fail> {
    let want = [0, 1, 1, 3, 4, 4, 1, 4];
    assert!(rt;
        is_shown(
            rt.alloc(),
            THROUGH,
            "u1 THR n; u2 THR n;",
            TWO_THROUGHS,
            &want
        )?
    );
    Ok(())
}

#[test]
fn two_terminals_of_a_cell_are_apart(rt: HostRuntime) -> Result<(), Fail> {
    let want = [0, 1, 2, 1, 2];
    assert!(rt; is_shown(rt.alloc(), DRIVER, "u1 DRV vdd n m;", ONE_DRIVER, &want)?);
    Ok(())
}
