//! Designs, rules and layouts that are cut after each of their bytes, and such with a byte above 127 in the place of each.

use crate::support::{CHECK, ROUTE, TWO_JOINED, flipped, front, holds, is_ended, joined_shelf};
use samples::{INVERTER, RULES, design_text};
use std::alloc::{AllocError, Global};
use std::test::Fail;

/// What is printed of the design of one inverter.
const ONE_CELL: &str = "\
cells 1\n\
nets 1\n\
rows 1\n\
feeds 0\n\
channel 0 tracks 0 extra 0 greedy\n\
channel 1 tracks 0 extra 0 greedy\n\
size 800 5600\n\
cost 0\n";

/// How `route` ends over the design of one inverter, of 220 bytes, which is cut after so many bytes, from one number to another: the status, and the line, or an empty one where the text ends
/// inside a module after all of its bytes. A word that is cut is another word; a name or a number may be that too, and a keyword may not.
const CUT_DESIGNS: [(usize, usize, u8, &str); 29] = [
    (0, 0, 5, "design NoParent\n"),
    // MODULE INV; TYPE STANDARD;
    (1, 5, 3, "yal Word 0\n"),
    (6, 12, 3, ""),
    (13, 15, 3, "yal Word 12\n"),
    (16, 17, 3, ""),
    (18, 24, 3, "yal Word 17\n"),
    (25, 27, 3, ""),
    // DIMENSIONS and IOLIST, in which a front of ENDIOLIST may be a terminal's name
    (28, 36, 3, "yal Word 27\n"),
    (37, 57, 3, ""),
    (58, 62, 3, "yal Word 57\n"),
    (63, 92, 3, ""),
    // ENDMODULE;
    (93, 100, 3, "yal Word 92\n"),
    (101, 101, 3, ""),
    (102, 103, 5, "design NoParent\n"),
    // MODULE top; TYPE PARENT;
    (104, 108, 3, "yal Word 103\n"),
    (109, 115, 3, ""),
    (116, 118, 3, "yal Word 115\n"),
    (119, 120, 3, ""),
    (121, 125, 3, "yal Word 120\n"),
    (126, 128, 3, ""),
    // DIMENSIONS, IOLIST and NETWORK, in which a front of ENDNETWORK may be an instance's name
    (129, 137, 3, "yal Word 128\n"),
    (138, 158, 3, ""),
    (159, 163, 3, "yal Word 158\n"),
    (164, 177, 3, ""),
    (178, 183, 3, "yal Word 177\n"),
    (184, 209, 3, ""),
    // ENDMODULE;
    (210, 217, 3, "yal Word 209\n"),
    (218, 218, 3, ""),
    (219, 220, 0, ONE_CELL),
];

// Whether `route` over this design ends so, and leaves OUT as it was where it is refused.
fn is_routed_so(alloc: Global, design: &[u8], status: u8, line: &str) -> Result<bool, AllocError> {
    let mut shelf = joined_shelf(alloc)?;
    shelf.set("d", design)?;
    let ended = is_ended(alloc, ROUTE, &mut shelf, status, line)?;
    Ok(ended && (status == 0 || holds(&shelf, "o", b"old")))
}

// Whether a design that is cut after so many bytes ends so.
fn is_cut_design(
    alloc: Global,
    text: &str,
    length: usize,
    status: u8,
    line: &str,
) -> Result<bool, AllocError> {
    let design = front(text, length);
    if line.is_empty() {
        let ends = format!(in alloc; "yal Ends {length}\n")?;
        return is_routed_so(alloc, design, status, ends.as_str());
    }
    is_routed_so(alloc, design, status, line)
}

#[test]
fn a_design_that_is_cut(rt: HostRuntime) -> Result<(), Fail> {
    let text = design_text(rt.alloc(), INVERTER, "u1 INV n1;\n")?;
    let mut next = 0;
    for (first, last, status, line) in CUT_DESIGNS {
        assert!(rt; first == next && last < 1000);
        for length in first..=last {
            assert!(rt;
                is_cut_design(rt.alloc(), text.as_str(), length, status, line)?,
                "{length}"
            );
        }
        next = last + 1;
    }
    assert!(rt; next == 221 && text.len() == 220);
    Ok(())
}

// Whether `check` over this layout ends so.
fn is_checked_so(alloc: Global, layout: &[u8], status: u8, line: &str) -> Result<bool, AllocError> {
    let mut shelf = joined_shelf(alloc)?;
    shelf.set("c", layout)?;
    is_ended(alloc, CHECK, &mut shelf, status, line)
}

// Whether the layout of two joined buffers that is cut after so many bytes ends so: its first comment is closed by the thirteenth byte, and its end is the 361st.
fn is_cut_layout(alloc: Global, length: usize) -> Result<bool, AllocError> {
    let layout = front(TWO_JOINED, length);
    if length > 360 {
        return is_checked_so(alloc, layout, 0, "findings 0\n");
    }
    if length > 0 && length < 13 {
        return is_checked_so(alloc, layout, 7, "cif Unclosed 0\n");
    }
    let line = format!(in alloc; "cif NoEnd {length}\n")?;
    is_checked_so(alloc, layout, 7, line.as_str())
}

#[test]
fn a_layout_that_is_cut(rt: HostRuntime) -> Result<(), Fail> {
    for length in 0..=TWO_JOINED.len() {
        assert!(rt; is_cut_layout(rt.alloc(), length)?, "{length}");
    }
    Ok(())
}

// Whether `route` under these rules ends so, and leaves OUT as it was.
fn are_rules_refused(alloc: Global, rules: &[u8], line: &str) -> Result<bool, AllocError> {
    let mut shelf = joined_shelf(alloc)?;
    shelf.set("r", rules)?;
    Ok(is_ended(alloc, ROUTE, &mut shelf, 4, line)? && holds(&shelf, "o", b"old"))
}

/// The fault of the sample rules, of 314 bytes, which are cut after so many bytes, from one number to another: a key that is out of its range or missing, where the text ends behind a value, or with
/// the line feed behind it. In between they are no TOML.
const CUT_RULES: [(usize, usize, &str); 28] = [
    (0, 0, "Missing version"),
    (11, 12, "Missing yal"),
    (24, 25, "Missing grid.column"),
    (31, 32, "Missing grid.column"),
    (42, 43, "Missing grid.track"),
    (52, 53, "Missing grid.centi"),
    // centi = 1, 10 and 100
    (62, 62, "Range grid.centi"),
    (63, 65, "Missing grid.pin"),
    (72, 73, "Missing horizontal.layer"),
    (85, 86, "Missing horizontal.layer"),
    (98, 99, "Missing horizontal.width"),
    (108, 109, "Missing horizontal.space"),
    (118, 119, "Missing vertical.layer"),
    (129, 130, "Missing vertical.layer"),
    (142, 143, "Missing vertical.width"),
    (152, 153, "Missing vertical.space"),
    (162, 163, "Missing cut.layer"),
    (168, 169, "Missing cut.layer"),
    (181, 182, "Missing cut.size"),
    (190, 191, "Missing cut.enclose"),
    (202, 203, "Missing cut.space"),
    (212, 213, "Missing outline.layer"),
    (222, 223, "Missing outline.layer"),
    (235, 236, "Missing anneal.temperature"),
    (244, 245, "Missing anneal.temperature"),
    // temperature = 1, 10, 100 and 1000
    (260, 264, "Missing anneal.stages"),
    (274, 275, "Missing anneal.moves"),
    (284, 285, "Missing anneal.row_cost"),
];

// Whether rules that are cut after so many bytes, from one number and before another, have this fault.
fn have_fault(alloc: Global, first: usize, past: usize, fault: &str) -> Result<bool, AllocError> {
    let line = format!(in alloc; "rules {fault}\n")?;
    for length in first..past {
        if !are_rules_refused(alloc, front(RULES, length), line.as_str())? {
            return Ok(false);
        }
    }
    Ok(true)
}

#[test]
fn rules_that_are_cut(rt: HostRuntime) -> Result<(), Fail> {
    let mut next = 0;
    for (first, last, fault) in CUT_RULES {
        assert!(rt; have_fault(rt.alloc(), next, first, "Toml")?, "{next}");
        assert!(rt;
            last < 1000 && have_fault(rt.alloc(), first, last + 1, fault)?,
            "{fault}"
        );
        next = last + 1;
    }
    assert!(rt; have_fault(rt.alloc(), next, 297, "Toml")?);
    assert!(rt; have_fault(rt.alloc(), 297, 299, "Missing anneal.length_cost")?);
    assert!(rt; have_fault(rt.alloc(), 299, 313, "Toml")?);
    assert!(rt; RULES.len() == 314);
    Ok(())
}

// Whether a design, rules and a layout with a byte above 127 in the place of that of this number are refused there, each where it has so many bytes.
fn are_flipped_refused(alloc: Global, design: &[u8], at: usize) -> Result<bool, AllocError> {
    if at < design.len() {
        let design = flipped(alloc, design, at)?;
        let line = format!(in alloc; "yal NotAscii {at}\n")?;
        if !is_routed_so(alloc, design.as_slice(), 3, line.as_str())? {
            return Ok(false);
        }
    }
    if at < RULES.len() {
        let rules = flipped(alloc, RULES.as_bytes(), at)?;
        if !are_rules_refused(alloc, rules.as_slice(), "rules Toml\n")? {
            return Ok(false);
        }
    }
    let layout = flipped(alloc, TWO_JOINED.as_bytes(), at)?;
    let line = format!(in alloc; "cif NotAscii {at}\n")?;
    is_checked_so(alloc, layout.as_slice(), 7, line.as_str())
}

/// A byte above 127 goes before all else that is wrong with a design or a layout, and rules with one are not in UTF-8.
#[test]
fn a_byte_above_127_in_each_place(rt: HostRuntime) -> Result<(), Fail> {
    let design = design_text(rt.alloc(), INVERTER, "u1 INV n1;\n")?;
    for at in 0..TWO_JOINED.len() {
        assert!(rt;
            are_flipped_refused(rt.alloc(), design.as_bytes(), at)?,
            "{at}"
        );
    }
    Ok(())
}

/// Bytes before a design, and the line of the fault that they make.
const BEFORE: [(&[u8], &str); 3] = [
    (b"/*", "yal OpenComment 0\n"),
    (b"\xc8", "yal NotAscii 0\n"),
    (b"\xef\xbb\xbf", "yal NotAscii 0\n"),
];

#[test]
fn bytes_before_a_design(rt: HostRuntime) -> Result<(), Fail> {
    let design = design_text(rt.alloc(), INVERTER, "u1 INV n1;\n")?;
    for (bytes, line) in BEFORE {
        let mut text = bytes.to_vec(rt.alloc())?;
        text.extend_from_slice(design.as_bytes())?;
        assert!(rt;
            is_routed_so(rt.alloc(), text.as_slice(), 3, line)?,
            "{line}"
        );
    }
    Ok(())
}
