//! Designs that have with their ports just as much as a design may have, and a little more.

use crate::port_designs::answer;
use samples::INVERTER;
use std::alloc::{AllocError, Global};
use std::test::Fail;

/// A cell of eleven columns with a pin below in each.
const ELEVEN: &str = "\
MODULE ELEVEN; TYPE STANDARD; DIMENSIONS 0 0 88 0 88 40 0 40; IOLIST; \
a I 4 0 3 POLY; b I 12 0 3 POLY; c I 20 0 3 POLY; d I 28 0 3 POLY; e I 36 0 3 POLY; f I 44 0 3 POLY; \
g I 52 0 3 POLY; h I 60 0 3 POLY; i I 68 0 3 POLY; j I 76 0 3 POLY; k I 84 0 3 POLY; ENDIOLIST; ENDMODULE;\n";

/// The calls of so many cells with these words behind their names.
fn calls(alloc: Global, count: u32, words: &str) -> Result<String, AllocError> {
    let mut calls = String::new(alloc);
    for i in 0..count {
        write!(calls, "i{i} {words};\n")?;
    }
    Ok(calls)
}

/// The lines of so many ports, half of them at each edge.
fn lines(alloc: Global, count: u32) -> Result<String, AllocError> {
    let mut lines = String::new(alloc);
    for i in 0..count {
        let flow = if i % 2 == 0 { "I" } else { "O" };
        write!(lines, "p{i} {flow};\n")?;
    }
    Ok(lines)
}

/// How a design of so many cells of a module gets so many ports: what stands behind the last of its nets, or why it gets none.
fn end(alloc: Global, cells: u32, words: &str, ports: u32) -> Result<String, Fail> {
    let mut modules = String::from_str(alloc, INVERTER)?;
    modules.push_str(ELEVEN)?;
    let calls = calls(alloc, cells, words)?;
    let lines = lines(alloc, ports)?;
    let found = answer(
        alloc,
        modules.as_str(),
        "top",
        lines.as_str(),
        calls.as_str(),
    )?;
    Ok(String::from_str(alloc, last_part(found.as_str()))?)
}

/// What stands behind the last stroke of a text.
fn last_part(text: &str) -> &str {
    match text.rsplit_once(" / ") {
        Some((_, part)) => part,
        None => text,
    }
}

/// Whether it does so.
fn ends(alloc: Global, cells: u32, words: &str, ports: u32, want: &str) -> Result<bool, Fail> {
    Ok(end(alloc, cells, words, ports)?.as_str() == want)
}

#[test]
fn ports_count_as_instances(rt: HostRuntime) -> Result<(), Fail> {
    let alloc = rt.alloc();
    assert!(rt; ends(alloc, 19_999, "INV n", 1, "40 1 0")?);
    assert!(rt; ends(alloc, 19_999, "INV n", 2, "Limit Instances 20001")?);
    assert!(rt; ends(alloc, 0, "INV n", 20_000, "11 10000 10000")?);
    assert!(rt; ends(alloc, 0, "INV n", 20_001, "Limit Instances 20001")?);
    Ok(())
}

/// 18,181 cells have 199,991 pins.
#[test]
fn ports_count_as_pins(rt: HostRuntime) -> Result<(), Fail> {
    let alloc = rt.alloc();
    let words = "ELEVEN n n n n n n n n n n n";
    assert!(rt; ends(alloc, 18_181, words, 9, "40 5 4")?);
    assert!(rt; ends(alloc, 18_181, words, 10, "Limit Pins 200001")?);
    // Instances come first.
    assert!(rt; ends(alloc, 18_181, words, 1_820, "Limit Instances 20001")?);
    Ok(())
}

/// Limits come before names.
#[test]
fn limits_come_first(rt: HostRuntime) -> Result<(), Fail> {
    let alloc = rt.alloc();
    let mut calls = calls(alloc, 19_999, "INV n")?;
    calls.push_str("port:n INV n;")?;
    let found = answer(alloc, INVERTER, "top", "n I;", calls.as_str())?;
    assert!(rt; found.as_str() == "Limit Instances 20001");
    let found = answer(alloc, INVERTER, "top", "n PWR;", calls.as_str())?;
    assert!(rt; found.as_str().ends_with(" / 40 0 0"));
    Ok(())
}
