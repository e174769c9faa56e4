//! Files, designs and layouts past a limit, and the notes on them.

use crate::support::{CHECK, GATES, ROUTE, first_line, noted, shelf_with, words};
use command_ends::{Refusal, Stop};
use fault_notes::{Reached, note_stop};
use note_text::{Notes, put_notes};
use samples::{HEAD, INVERTER, RULES, TAIL};
use shelf_io::MemSink;
use std::alloc::{AllocError, Global};
use std::test::Fail;

/// One byte more than rules and a design may have.
const LONG: usize = 16_777_217;

#[test]
fn files_that_are_too_long_have_notes(rt: HostRuntime) -> Result<(), Fail> {
    let blanks = vec![in rt.alloc(); b' '; LONG]?;
    let mut shelf = shelf_with(rt.alloc(), "", GATES)?;
    shelf.set("rules.toml", blanks.as_slice())?;
    let notes = noted(rt.alloc(), ROUTE, &mut shelf)?;
    assert_eq!(rt;
        notes.as_str(),
        "rules.toml: the file has more than 16777216 bytes, the most that it may have [limit Rules 16777216]\n"
    );
    let mut shelf = shelf_with(rt.alloc(), RULES, "")?;
    shelf.set("my.yal", blanks.as_slice())?;
    let notes = noted(rt.alloc(), CHECK, &mut shelf)?;
    assert_eq!(rt;
        notes.as_str(),
        "my.yal: the file has more than 16777216 bytes, the most that it may have [limit Design 16777216]\n"
    );
    Ok(())
}

/// A module of 11 terminals, and signals for them.
const ELEVEN: &str =
    "MODULE W;\nTYPE STANDARD;\nIOLIST;\na I 0 0 3 POLY;\nb I 0 0 3 POLY;\nc I 0 0 3 POLY;\nd I 0 0 3 POLY;\ne I 0 0 3 POLY;\nf I 0 0 3 POLY;\ng I 0 0 3 POLY;\nh I 0 0 3 POLY;\ni I 0 0 3 POLY;\nj I 0 0 3 POLY;\nk I 0 0 3 POLY;\nENDIOLIST;\nENDMODULE;\n";

/// A circuit with a port.
const PORTED: &str = "MODULE top;\nTYPE PARENT;\nIOLIST;\nn I;\nENDIOLIST;\nNETWORK;\n";

/// The words; the modules, what stands before the calls, how many there are, and the module and the signals of each; and the note.
type Large = (
    &'static str,
    &'static str,
    &'static str,
    u32,
    &'static str,
    &'static str,
);

const LARGE: [Large; 3] = [
    (
        ROUTE,
        INVERTER,
        HEAD,
        20_001,
        "INV n",
        "my.yal: the design has 20001 instances; 20000 at most may be, so split it [limit Instances 20001]\n",
    ),
    (
        "route|my.yal|rules.toml|o.cif|--ports",
        INVERTER,
        PORTED,
        20_000,
        "INV n",
        "my.yal: the design has 20001 instances, those of ports (--ports) among them; 20000 at most may be, so split it [limit Instances 20001]\n",
    ),
    (
        ROUTE,
        ELEVEN,
        HEAD,
        18_182,
        "W n n n n n n n n n n n",
        "my.yal: the design has 200002 pins; 200000 at most may be, so split it [limit Pins 200002]\n",
    ),
];

// The text of such a design.
fn large_design(alloc: Global, case: &Large) -> Result<String, AllocError> {
    let mut text = String::from_str(alloc, case.1)?;
    text.push_str(case.2)?;
    for number in 0..case.3 {
        write!(text, "u{number} {};\n", case.4)?;
    }
    text.push_str(TAIL)?;
    Ok(text)
}

#[test]
fn designs_that_are_too_large_have_notes(rt: HostRuntime) -> Result<(), Fail> {
    for case in &LARGE {
        let design = large_design(rt.alloc(), case)?;
        let mut shelf = shelf_with(rt.alloc(), RULES, design.as_str())?;
        let notes = noted(rt.alloc(), case.0, &mut shelf)?;
        assert_eq!(rt; notes.as_str(), case.5);
    }
    Ok(())
}

// Puts a definition in a line of its own, which calls the one before it once or twice.
fn put_definition(text: &mut String, number: u32, twice: bool) -> Result<(), AllocError> {
    let before = number.saturating_sub(1);
    write!(text, "DS {number}; C {before};")?;
    if twice {
        write!(text, " C {before};")?;
    }
    text.push_str(" DF;\n")
}

// The first definition, and others up to this number, each in a line, of which each calls the one before it once or twice.
fn nested(alloc: Global, first: &str, last: u32, twice: bool) -> Result<String, AllocError> {
    let mut text = String::from_str(alloc, first)?;
    for number in 2..=last {
        put_definition(&mut text, number, twice)?;
    }
    text.push_str("E\n")?;
    Ok(text)
}

// The note on this layout.
fn note_on(alloc: Global, layout: &str) -> Result<String, AllocError> {
    let mut shelf = shelf_with(alloc, RULES, GATES)?;
    shelf.set("o.cif", layout.as_bytes())?;
    noted(alloc, CHECK, &mut shelf)
}

/// The call in the 65th line is the 192nd command from 0: behind two of the first definition, three each of 63 more, and a start. That in the 23rd line is the 90th: behind four commands, four each of
/// 21 more, a start and a call.
#[test]
fn layouts_past_limits_have_notes(rt: HostRuntime) -> Result<(), Fail> {
    let deep = nested(rt.alloc(), "DS 1; DF;\n", 70, false)?;
    let notes = note_on(rt.alloc(), deep.as_str())?;
    assert_eq!(rt;
        notes.as_str(),
        "\
o.cif:65:8: calls nest deeper than 64 [cif TooDeep 192]
DS 65; C 64; DF;
       ^
"
    );
    let many = nested(rt.alloc(), "DS 1; L NM; B 2 2 0 0; DF;\n", 30, true)?;
    let notes = note_on(rt.alloc(), many.as_str())?;
    assert_eq!(rt;
        notes.as_str(),
        "\
o.cif:23:14: there are more than 4000000 shapes, those of calls among them [cif TooMany 90]
DS 23; C 22; C 22; DF;
             ^
"
    );
    let mut path = String::from_str(rt.alloc(), "L NM;\nP")?;
    for _ in 0..2001u32 {
        path.push_str(" 0 0")?;
    }
    path.push_str(";\nE")?;
    let notes = note_on(rt.alloc(), path.as_str())?;
    assert_eq!(rt;
        first_line(notes.as_str()),
        "o.cif:2:1: a polygon has more than 2000 points [cif LongPath 1]"
    );
    Ok(())
}

/// Where memory ran out, at whatever point.
#[test]
fn want_of_memory_has_a_note(rt: HostRuntime) -> Result<(), Fail> {
    let words = words(rt.alloc(), ROUTE)?;
    let reached = Reached {
        words: words.as_slice(),
        styles: &[],
        command: None,
        rules: Some(RULES.as_bytes()),
        design: None,
        cif: None,
        netlist: None,
        cells: None,
    };
    let mut told = Notes::new(rt.alloc());
    note_stop(
        rt.alloc(),
        &mut told,
        &reached,
        &Stop::Refused(Refusal::Memory),
    );
    let mut notes = MemSink::new(rt.alloc())?;
    assert!(rt; put_notes(&mut notes, &told).is_ok());
    assert!(rt;
        notes.bytes()
            == b"cellroute: memory ran out; a smaller design, or more memory, is wanted [memory]\n".as_slice()
    );
    Ok(())
}
