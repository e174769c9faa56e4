//! Designs that get no ports.

use crate::port_designs::answer;
use samples::INVERTER;
use std::alloc::{AllocError, Global};
use std::test::Fail;

/// An INV under another name.
fn inverter(alloc: Global, name: &str) -> Result<String, AllocError> {
    format!(in alloc;
        "MODULE {name}; TYPE STANDARD; DIMENSIONS 0 0 8 0 8 40 0 40; IOLIST; a I 4 0 3 POLY; ENDIOLIST; ENDMODULE;\n"
    )
}

/// INV, and inverters under these names with blanks between them.
fn modules(alloc: Global, names: &str) -> Result<String, AllocError> {
    let mut text = String::from_str(alloc, INVERTER)?;
    for name in names.split_ascii_whitespace() {
        text.push_str(inverter(alloc, name)?.as_str())?;
    }
    Ok(text)
}

/// Modules beside INV, the name of the PARENT, its lines and its calls, and why the design gets no ports: the first name in the order of the kinds, then of the ports of the lower edge.
const REFUSED: [(&str, &str, &str, &str, &str); 11] = [
    ("", "top", "n1 I;", "port:n1 INV n1;", "Clash port:n1"),
    ("port_north", "top", "x O;", "u INV n1;", "Clash port_north"),
    (
        "port_south",
        "top",
        "x I;",
        "u port_south n1;",
        "Clash port_south",
    ),
    ("", "port_south", "x I;", "u INV n1;", "Clash port_south"),
    (
        "port_north port_south",
        "top",
        "y O; x I;",
        "u INV n1;",
        "Clash port_south",
    ),
    (
        "port_north",
        "top",
        "a I; y O;",
        "port:a INV n1; port:y INV n1;",
        "Clash port_north",
    ),
    (
        "",
        "top",
        "y O; a I;",
        "port:y INV n1; port:a INV n1;",
        "Clash port:a",
    ),
    (
        "",
        "top",
        "a I; b I;",
        "port:b INV n1; port:a INV n1;",
        "Clash port:a",
    ),
    (
        "",
        "top",
        "z O; y O;",
        "port:y INV n1; port:z INV n1;",
        "Clash port:z",
    ),
    // The signal of a port may be called so.
    (
        "",
        "top",
        "port:a I;",
        "port:port:a INV port:a;",
        "Clash port:port:a",
    ),
    ("", "top", "a I;", "u INV n1; port:a INV a;", "Clash port:a"),
];

/// The same of designs that get their ports: no name of theirs is one of a kind or an instance that is added.
const TAKEN: [(&str, &str, &str, &str); 4] = [
    ("port_north", "top", "x I;", "u INV n1;"),
    ("port_south", "top", "x O;", "u INV n1;"),
    (
        "port_south port_north",
        "top",
        "x PWR; x I;",
        "port:x INV n1;",
    ),
    (
        "port_South Port_north port",
        "top",
        "x I; y O;",
        "port:X INV x; port: INV y; x INV y;",
    ),
];

#[test]
fn names_that_are_there_are_refused(rt: HostRuntime) -> Result<(), Fail> {
    let alloc = rt.alloc();
    for (names, parent, lines, calls, want) in REFUSED.iter() {
        let text = modules(alloc, names)?;
        let found = answer(alloc, text.as_str(), parent, lines, calls)?;
        assert!(rt; found.as_str() == *want, "{lines} {calls}: {found}");
    }
    Ok(())
}

#[test]
fn other_names_are_no_hindrance(rt: HostRuntime) -> Result<(), Fail> {
    let alloc = rt.alloc();
    for (names, parent, lines, calls) in TAKEN.iter() {
        let text = modules(alloc, names)?;
        let found = answer(alloc, text.as_str(), parent, lines, calls)?;
        assert!(rt;
            !found.as_str().starts_with("Clash"),
            "{lines} {calls}: {found}"
        );
        assert!(rt; found.as_str().contains(" / "), "{lines} {calls}: {found}");
    }
    Ok(())
}
