//! What is refused, and the lines that say so.

use crate::support::{
    ROUTE, is_ended_in, is_refused, is_refused_in, is_routed, rules_with, shelf_of, shelf_with,
};
use samples::{INVERTER, RING, RULES, THROUGH, design_text};
use shelf_io::{MemShelf, MemSink};
use std::alloc::{AllocError, Global};
use std::test::Fail;

/// Cases with a stroke between them: the line that is printed behind `rules`, a piece of the sample rules, and what stands in its place.
const RULES_REFUSED: &str = "\
Tight 3: column = 8 => column = 6|\
Range grid.centi: centi = 100 => centi = 3|\
Tight 10: centi = 100 => centi = 6|\
Missing yal: yal = \"POLY\"\n => |\
Missing anneal.row_cost: row_cost = 4\n => |\
Toml: version = 1 => version 1|\
Missing decimals: version = 1 => version = 2|\
Range decimals: version = 1 => version = 2\ndecimals = 5|\
Tight 12: \"NM\" => \"NP\"";

/// Whether rules with a piece replaced are refused so.
fn are_refused(alloc: Global, old: &str, new: &str, fault: &str) -> Result<bool, AllocError> {
    let rules = rules_with(alloc, old, new)?;
    let line = format!(in alloc; "rules {fault}\n")?;
    let mut shelf = shelf_of(alloc, rules.as_str(), INVERTER, "u1 INV n1;\n")?;
    is_refused_in(alloc, ROUTE, &mut shelf, 4, line.as_str())
}

/// Whether a case is refused with its line.
fn is_case(alloc: Global, case: &str) -> Result<bool, AllocError> {
    let Some((fault, change)) = case.split_once(": ") else {
        return Ok(false);
    };
    let Some((old, new)) = change.split_once(" => ") else {
        return Ok(false);
    };
    are_refused(alloc, old, new, fault)
}

#[test]
fn rules_that_are_refused(rt: HostRuntime) -> Result<(), Fail> {
    for case in RULES_REFUSED.split('|') {
        assert!(rt; is_case(rt.alloc(), case)?, "{case}");
    }
    assert!(rt; is_refused(rt.alloc(), "", "", 4, "rules Missing version\n")?);
    Ok(())
}

/// Whether the design of these modules and calls is refused so.
fn is_no_design(
    alloc: Global,
    modules: &str,
    calls: &str,
    fault: &str,
) -> Result<bool, AllocError> {
    let line = format!(in alloc; "design {fault}\n")?;
    let mut shelf = shelf_of(alloc, RULES, modules, calls)?;
    is_refused_in(alloc, ROUTE, &mut shelf, 5, line.as_str())
}

/// A design with two PARENT modules.
fn two_parents(alloc: Global) -> Result<String, AllocError> {
    let mut text = design_text(alloc, "", "")?;
    text.push_str("MODULE two;\nTYPE PARENT;\nENDMODULE;\n")?;
    Ok(text)
}

/// An inverter whose pin lies between two columns.
const OFF_GRID: &str =
    "MODULE INV;\nTYPE STANDARD;\nDIMENSIONS 0 0 8 0 8 40 0 40;\nIOLIST;\na I 5 0 3 POLY;\nENDIOLIST;\nENDMODULE;\n";

/// A cell without room for a pin.
const LOW: &str =
    "MODULE LOW;\nTYPE STANDARD;\nDIMENSIONS 0 0 8 0 8 10 0 10;\nIOLIST;\nENDIOLIST;\nENDMODULE;\n";

/// Modules and calls that give no design, and what is printed behind `design`.
const NO_DESIGNS: [(&str, &str, &str); 6] = [
    (OFF_GRID, "u1 INV n1;\n", "OffGrid INV"),
    (INVERTER, "u1 INV;\n", "SignalCount u1"),
    (THROUGH, "u1 THR n n;\n", "SignalCount u1"),
    (INVERTER, "u1 INV a;\nu2 BUF b;\n", "UnknownModule u2"),
    (RING, "u1 ring a;\n", "NotStandard u1"),
    (LOW, "u1 LOW;\n", "TooLow LOW"),
];

#[test]
fn designs_that_are_refused(rt: HostRuntime) -> Result<(), Fail> {
    for case in &NO_DESIGNS {
        assert!(rt;
            is_no_design(rt.alloc(), case.0, case.1, case.2)?,
            "{}",
            case.2
        );
    }
    Ok(())
}

#[test]
fn designs_without_one_parent(rt: HostRuntime) -> Result<(), Fail> {
    assert!(rt; is_refused(rt.alloc(), RULES, INVERTER, 5, "design NoParent\n")?);
    let twice = two_parents(rt.alloc())?;
    assert!(rt; is_refused(rt.alloc(), RULES, twice.as_str(), 5, "design ManyParents\n")?);
    Ok(())
}

/// Whether a text is refused as no YAL, with this line.
fn is_no_yal(alloc: Global, text: &str, line: &str) -> Result<bool, AllocError> {
    is_refused(alloc, RULES, text, 3, line)
}

/// Whether a design without the end of its NETWORK is refused so.
fn is_no_network(alloc: Global, line: &str) -> Result<bool, AllocError> {
    let text = design_text(alloc, INVERTER, "")?;
    match text.as_str().split_once("\nENDNETWORK") {
        Some((cut, _)) => is_no_yal(alloc, cut, line),
        None => Ok(false),
    }
}

/// Texts that are no YAL, and the lines that say so.
const NO_YAL: [(&str, &str); 5] = [
    ("MODULE ;", "yal Word 7\n"),
    ("/*", "yal OpenComment 0\n"),
    (
        "MODULE a; TYPE STANDARD; DIMENSIONS 0 x;",
        "yal Number 38\n",
    ),
    ("MODULE a; TYPE PAD; ENDMODULE; MODULE a;", "yal Twice 38\n"),
    ("\u{e9}", "yal NotAscii 0\n"),
];

#[test]
fn texts_that_are_no_yal(rt: HostRuntime) -> Result<(), Fail> {
    for case in &NO_YAL {
        assert!(rt; is_no_yal(rt.alloc(), case.0, case.1)?, "{}", case.0);
    }
    assert!(rt; is_no_network(rt.alloc(), "yal Ends 185\n")?);
    Ok(())
}

/// Sample rules that ask for so much annealing that 51 instances pass the limit of changes.
fn annealed(alloc: Global) -> Result<String, AllocError> {
    rules_with(
        alloc,
        "stages = 0\nmoves = 4",
        "stages = 1000\nmoves = 1000",
    )
}

/// The calls of so many inverters.
fn inverters(alloc: Global, count: u32) -> Result<String, AllocError> {
    let mut calls = String::new(alloc);
    for n in 0..count {
        write!(calls, "u{n} INV n{n};\n")?;
    }
    Ok(calls)
}

#[test]
fn a_limit_of_changes(rt: HostRuntime) -> Result<(), Fail> {
    let rules = annealed(rt.alloc())?;
    let calls = inverters(rt.alloc(), 51)?;
    let mut shelf = shelf_of(rt.alloc(), rules.as_str(), INVERTER, calls.as_str())?;
    assert!(rt; is_refused_in(rt.alloc(), ROUTE, &mut shelf, 6, "limit Moves 51000000\n")?);
    // Without instances there is nothing to anneal.
    let mut shelf = shelf_of(rt.alloc(), rules.as_str(), "", "")?;
    assert!(rt; is_routed(rt.alloc(), &mut shelf)?);
    Ok(())
}

/// Whether `route d r o` over a shelf with this one file is refused so.
fn is_first(
    alloc: Global,
    name: &str,
    text: &str,
    status: u8,
    line: &str,
) -> Result<bool, AllocError> {
    let mut shelf = MemShelf::new(alloc)?;
    shelf.set(name, text.as_bytes())?;
    is_refused_in(alloc, ROUTE, &mut shelf, status, line)
}

/// Bad rules go before a design that is not there, and a rules file that is not there before a bad design.
#[test]
fn the_first_cause_is_said(rt: HostRuntime) -> Result<(), Fail> {
    assert!(rt; is_first(rt.alloc(), "r", "version = 3", 4, "rules Range version\n")?);
    assert!(rt; is_first(rt.alloc(), "d", "MODULE ;", 8, "read fault\n")?);
    assert!(rt; is_first(rt.alloc(), "r", RULES, 8, "read fault\n")?);
    Ok(())
}

/// The design of 51 cells, each as wide as a layout may not be.
fn wide_cells(alloc: Global) -> Result<String, AllocError> {
    let module =
        "MODULE W;\nTYPE STANDARD;\nDIMENSIONS 0 0 10000008 0 10000008 40 0 40;\nIOLIST;\na I 4 0 3 POLY;\nENDIOLIST;\nENDMODULE;\n";
    let mut calls = String::new(alloc);
    for n in 0..51u32 {
        write!(calls, "u{n} W n{n};\n")?;
    }
    design_text(alloc, module, calls.as_str())
}

/// The limit of changes goes before the limits of layouts.
#[test]
fn changes_are_limited_before_layouts(rt: HostRuntime) -> Result<(), Fail> {
    let rules = annealed(rt.alloc())?;
    let text = wide_cells(rt.alloc())?;
    assert!(rt;
        is_refused(
            rt.alloc(),
            rules.as_str(),
            text.as_str(),
            6,
            "limit Moves 51000000\n"
        )?
    );
    assert!(rt;
        is_refused(
            rt.alloc(),
            RULES,
            text.as_str(),
            6,
            "limit Grid 641250513\n"
        )?
    );
    Ok(())
}

/// A sink that takes a byte at a time, and whose call of this number fails.
fn failing_sink(alloc: Global, call: u64) -> Result<MemSink, AllocError> {
    let mut out = MemSink::new(alloc)?;
    out.most(1);
    out.fail_at(call)?;
    Ok(out)
}

/// Whether a refusal whose line is cut off by a failure of the sink's call of this number keeps its status, and leaves this front.
fn is_cut_off(alloc: Global, call: u64, front: &str) -> Result<bool, AllocError> {
    let mut shelf = shelf_of(alloc, RULES, INVERTER, "u1 INV;\n")?;
    let mut out = failing_sink(alloc, call)?;
    is_ended_in(alloc, ROUTE, &mut shelf, &mut out, 5, front)
}

/// What is left of the line where this call of the sink fails.
const FRONTS: [(u64, &str); 5] = [
    (0, ""),
    (6, "design"),
    (7, "design "),
    (18, "design SignalCount"),
    (19, "design SignalCount "),
];

#[test]
fn a_failed_sink_keeps_the_status(rt: HostRuntime) -> Result<(), Fail> {
    for case in &FRONTS {
        assert!(rt; is_cut_off(rt.alloc(), case.0, case.1)?, "at {}", case.0);
    }
    Ok(())
}

#[test]
fn a_sink_may_take_two_bytes_at_once(rt: HostRuntime) -> Result<(), Fail> {
    let alloc = rt.alloc();
    let mut shelf = shelf_with(alloc, "", "")?;
    let mut out = MemSink::new(alloc)?;
    out.most(2);
    let line = "rules Missing version\n";
    assert!(rt; is_ended_in(alloc, ROUTE, &mut shelf, &mut out, 4, line)?);
    Ok(())
}
