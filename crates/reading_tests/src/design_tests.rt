//! What checked designs hold, and what is looked up in them.

use crate::odd_cells::design_in;
use design_model::{Design, Pin, Position, drawing};
use geom_core::Name;
use samples::{SampleFault, designed, sample_rules};
use std::alloc::{AllocError, Global};
use std::test::Fail;

/// Whether the one kind of a design has these positions.
fn has_positions(design: &Design, wanted: &[Position]) -> bool {
    let [kind] = design.kinds.items() else {
        return false;
    };
    kind.positions.items() == wanted
}

#[test]
fn spots_have_positions(rt: HostRuntime) -> Result<(), Fail> {
    let module =
        "MODULE S; TYPE STANDARD; DIMENSIONS 0 0 16 0 16 40 0 40; IOLIST; a I 12 0 3 poly; b I 4 40 3 Poly; ENDIOLIST; ENDMODULE;";
    let design = designed(rt.alloc(), module, "u S x y;")?;
    let low = Position {
        terminal: 0,
        top: false,
        column: 1,
    };
    let high = Position {
        terminal: 1,
        top: true,
        column: 0,
    };
    assert!(rt; has_positions(&design, &[low, high]));
    Ok(())
}

/// Whether pins have these instances, terminals and nets.
fn are_pins(pins: &[Pin], wanted: &[(u32, u32, u32)]) -> bool {
    if pins.len() != wanted.len() {
        return false;
    }
    for (pin, (instance, terminal, net)) in pins.iter().zip(wanted) {
        if pin.instance != *instance || pin.terminal != *terminal || pin.net != *net {
            return false;
        }
    }
    true
}

/// Whether names have these words, each with a semicolon behind it.
fn are_words(names: &[Name], text: &str) -> bool {
    let mut words = text.split(';');
    for name in names {
        match words.next() {
            Some(word) => {
                if name.items() != word.as_bytes() {
                    return false;
                }
            }
            None => return false,
        }
    }
    words.next() == Some("") && words.next().is_none()
}

/// Whether the design of these modules and calls has these pins and nets.
fn is_joined(
    alloc: Global,
    text: &str,
    pins: &[(u32, u32, u32)],
    nets: &str,
) -> Result<bool, SampleFault> {
    let design = design_in(alloc, text)?;
    Ok(are_pins(design.pins.items(), pins) && are_words(design.nets.items(), nets))
}

#[test]
fn pins_and_nets_in_order(rt: HostRuntime) -> Result<(), Fail> {
    assert!(rt; is_joined(rt.alloc(), " | ", &[], "")?);
    // Names that share a beginning are two nets, and a word at power terminals alone is none.
    let text = "DRV | u DRV x x xx; v DRV VDD xx x;";
    let pins = [(0, 1, 1), (0, 2, 2), (1, 1, 2), (1, 2, 1)];
    assert!(rt; is_joined(rt.alloc(), text, &pins, "x;xx;")?);
    // A terminal with two positions is one pin.
    assert!(rt; is_joined(rt.alloc(), "THR | u THR n;", &[(0, 0, 1)], "n;")?);
    // A module that is not called may be anything.
    let text = "BARE BUF | u BUF b; v BUF a;";
    assert!(rt; is_joined(rt.alloc(), text, &[(0, 0, 1), (1, 0, 2)], "b;a;")?);
    Ok(())
}

/// The number of the pin at a terminal of an instance; the greatest number where there is no such terminal.
fn pin_at(design: &Design, instance: u32, terminal: u32) -> Option<u32> {
    if instance as usize >= design.instances.items().len() {
        return Some(u32::MAX);
    }
    let kind = design.instances.items()[instance as usize].kind as usize;
    if kind >= design.kinds.items().len() {
        return Some(u32::MAX);
    }
    if terminal as usize >= design.kinds.items()[kind].terminals.items().len() {
        return Some(u32::MAX);
    }
    design.pin(instance, terminal)
}

/// The net of a pin; 0 where there is no such pin.
fn net_at(design: &Design, pin: u32) -> u32 {
    if pin as usize >= design.pins.items().len() {
        return 0;
    }
    design.net_of(pin)
}

/// Whether a net has this word.
fn is_word(design: &Design, net: u32, word: &[u8]) -> bool {
    if net == 0 || net as usize > design.nets.items().len() {
        return false;
    }
    design.net(net).items() == word
}

/// The number of shapes in the drawing of a kind under the sample rules; 0 where there is no such kind.
fn count_shapes(alloc: Global, design: &Design, kind: u32) -> Result<usize, AllocError> {
    let rules = sample_rules(alloc)?;
    if kind as usize >= design.kinds.items().len() {
        return Ok(0);
    }
    if 2 * rules.grid.pin + rules.vertical.space > design.kinds.items()[kind as usize].height {
        return Ok(0);
    }
    Ok(drawing(alloc, design, &rules, kind)?.len())
}

/// Whether the terminals of three instances, of which two have a power terminal, have their pins.
fn are_pins_found(design: &Design) -> bool {
    pin_at(design, 0, 0).is_none()
        && pin_at(design, 0, 1) == Some(0)
        && pin_at(design, 0, 2) == Some(1)
        && pin_at(design, 1, 0) == Some(2)
        && pin_at(design, 2, 0).is_none()
        && pin_at(design, 2, 2) == Some(4)
}

/// Whether these pins have their nets, and the last net has its word.
fn are_nets_found(design: &Design) -> bool {
    net_at(design, 0) == 1
        && net_at(design, 1) == 2
        && net_at(design, 2) == 2
        && net_at(design, 3) == 2
        && net_at(design, 4) == 3
        && is_word(design, 3, b"z")
}

#[test]
fn a_design_is_looked_up(rt: HostRuntime) -> Result<(), Fail> {
    let text = "INV DRV BUF | u DRV VDD x y; v INV y; w DRV VDD y z;";
    let design = design_in(rt.alloc(), text)?;
    assert!(rt; are_pins_found(&design));
    assert!(rt; are_nets_found(&design));
    assert!(rt; count_shapes(rt.alloc(), &design, 1)? == 3);
    Ok(())
}
