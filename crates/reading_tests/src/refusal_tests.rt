//! Designs that are refused.

use crate::odd_cells::{design_in, refusal};
use design_model::Design;
use samples::{HEAD, INVERTER, SampleFault, TAIL, design_of, designed};
use std::alloc::{AllocError, Global};
use std::test::Fail;

/// Whether a design is refused so, or not at all where this is nothing.
fn is_refused(
    alloc: Global,
    design: &Result<Design, SampleFault>,
    want: &str,
) -> Result<bool, AllocError> {
    Ok(refusal(alloc, design)?.as_str() == want)
}

/// Modules and calls, and how the design is refused: each refusal once, and then two at once, of which the first in order is told.
const REFUSED: &str = "\
OTHER |  | ManyParents\n\
INV | u INV a; v NONE b; | UnknownModule(1)\n\
INV | u inv a; | UnknownModule(0)\n\
PAD INV | u INV a; v PAD b; | NotStandard(1)\n\
INV | u top a; | NotStandard(0)\n\
INV | u INV a; v INV a b; | SignalCount(1)\n\
DRV | u DRV a b; | SignalCount(0)\n\
INV BOW | u BOW a; v INV b; | NoShape(1)\n\
INV OFF | u OFF a; v INV b; | OffGrid(1)\n\
LOW | u LOW a; | TooLow(0)\n\
CLASH | u CLASH a b; | PinClash(0)\n\
METAL | u METAL a; | WrongLayer(0)\n\
OTHER | u NONE a; | ManyParents\n\
INV | u INV a b; v NONE b; | SignalCount(0)\n\
PAD | u PAD a; v NONE b; | NotStandard(0)\n\
BOW | u BOW a; v BOW a b; | SignalCount(1)\n\
OFF BOW | u BOW a; v OFF b; | OffGrid(0)\n\
INV LOW | u LOW a; v INV b; | TooLow(1)\n\
LOW INV | u LOW a; v INV b; | TooLow(0)\n\
METAL CLASH | u CLASH a b; v METAL c; | WrongLayer(0)";

/// Whether a line tells how its design is refused.
fn is_refusal(alloc: Global, line: &str) -> Result<bool, AllocError> {
    let Some((design, fault)) = line.rsplit_once(" | ") else {
        return Ok(false);
    };
    is_refused(alloc, &design_in(alloc, design), fault)
}

/// Whether a whole text is refused so, or not at all where this is nothing.
fn is_text_refused(alloc: Global, text: &str, want: &str) -> Result<bool, AllocError> {
    is_refused(alloc, &design_of(alloc, text), want)
}

#[test]
fn refuses_with_the_first_fault(rt: HostRuntime) -> Result<(), Fail> {
    for line in REFUSED.split('\n') {
        assert!(rt; is_refusal(rt.alloc(), line)?, "{line}");
    }
    assert!(rt; is_text_refused(rt.alloc(), INVERTER, "NoParent")?);
    Ok(())
}

/// The design of one cell with these corners, and a terminal at x 8 on its top.
fn cornered(alloc: Global, corners: &str) -> Result<Design, SampleFault> {
    let module = format!(in alloc;
        "MODULE C; TYPE STANDARD; DIMENSIONS {corners}; IOLIST; a I 8 40 3 POLY; ENDIOLIST; ENDMODULE;"
    )?;
    designed(alloc, module.as_str(), "u C n;")
}

/// Whether the one kind of a design is two columns wide and 40 high, with a pin at the top of the second.
fn has_one_kind(design: &Design) -> bool {
    let [kind] = design.kinds.items() else {
        return false;
    };
    let [position] = kind.positions.items() else {
        return false;
    };
    design.height == 40
        && kind.height == 40
        && kind.columns == 2
        && position.terminal == 0
        && position.top
        && position.column == 1
}

/// Whether there is a design of one such kind.
fn is_outlined(design: &Result<Design, SampleFault>) -> bool {
    match design {
        Ok(design) => has_one_kind(design),
        Err(_) => false,
    }
}

/// Whether these corners are refused so, or make such a design where this is nothing.
fn are_corners(alloc: Global, corners: &str, want: &str) -> Result<bool, AllocError> {
    let design = cornered(alloc, corners);
    Ok(is_outlined(&design) == want.is_empty() && is_refused(alloc, &design, want)?)
}

/// A cell of two columns at x -4 has these corners, and a rectangle is told by its corners in order.
#[test]
fn corners_have_an_outline(rt: HostRuntime) -> Result<(), Fail> {
    let alloc = rt.alloc();
    assert!(rt; are_corners(alloc, "-4 0 12 0 12 40 -4 40", "")?);
    assert!(rt; are_corners(alloc, "12 40 12 0 -4 0 -4 40", "")?);
    assert!(rt; are_corners(alloc, "-4 0 12 40 12 0 -4 40", "NoShape(0)")?);
    assert!(rt; are_corners(alloc, "-4 0 12 0 12 40", "NoShape(0)")?);
    Ok(())
}

/// The text of a cell of so many terminals.
fn wide(alloc: Global, terminals: u32) -> Result<String, AllocError> {
    let width = 8 * u64::from(terminals);
    let mut text = format!(in alloc;
        "MODULE M; TYPE STANDARD; DIMENSIONS 0 0 {width} 0 {width} 40 0 40; IOLIST;\n"
    )?;
    for n in 0..terminals {
        let x = 8 * u64::from(n) + 4;
        write!(text, "t{n} I {x} 0 3 POLY;")?;
    }
    text.push_str(" ENDIOLIST; ENDMODULE;\n")?;
    Ok(text)
}

/// Puts the call of a cell of so many terminals at the end of a text.
fn put_call(text: &mut String, instance: u32, terminals: u32) -> Result<(), AllocError> {
    write!(text, "i{instance} M")?;
    for _ in 0..terminals {
        text.push_str(" n")?;
    }
    text.push_str(";")
}

/// A text with a cell of so many terminals, called so often.
fn many(alloc: Global, instances: u32, terminals: u32) -> Result<String, AllocError> {
    let mut text = wide(alloc, terminals)?;
    text.push_str(HEAD)?;
    for instance in 0..instances {
        put_call(&mut text, instance, terminals)?;
    }
    text.push_str(TAIL)?;
    Ok(text)
}

/// Whether the design of so many such calls is refused so.
fn is_limited(
    alloc: Global,
    instances: u32,
    terminals: u32,
    want: &str,
) -> Result<bool, AllocError> {
    let text = many(alloc, instances, terminals)?;
    is_text_refused(alloc, text.as_str(), want)
}

#[test]
fn counts_up_to_the_limits(rt: HostRuntime) -> Result<(), Fail> {
    assert!(rt; is_limited(rt.alloc(), 20000, 10, "")?);
    assert!(rt; is_limited(rt.alloc(), 20001, 11, "Limit(Instances, 20001)")?);
    assert!(rt; is_limited(rt.alloc(), 18182, 11, "Limit(Pins, 200002)")?);
    Ok(())
}
