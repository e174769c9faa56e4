//! Designs with ports, from texts of YAL, and what the ports of a design are.

ghost use Rattle.netlist_core.specs.OnGrid.{on_grid};
ghost use Rattle.std.specs.Prelude.{◌≡◌, ◌-◌, ◌^◌, IfOk, Ok};
ghost use Rattle.yal_reader.specs.Kept.{HasAtMost, IsKept};

use crate::shown_ports::answer_text;
use netlist_core::to_design;
use port_rows::{PortFault, Ported, ports};
use samples::{CELLS, SampleFault, sample_rules};
use std::alloc::{AllocError, Global};
use std::test::Fail;
use tech_rules::Rules;
use yal_reader::{YalFile, numbers_of, read_yal};

/// The text of modules and of a PARENT with this name, these lines and these calls.
pub(crate) fn text_of(
    alloc: Global,
    modules: &str,
    parent: &str,
    lines: &str,
    calls: &str,
) -> Result<String, AllocError> {
    format!(in alloc;
        "{modules}\nMODULE {parent}; TYPE PARENT; DIMENSIONS 0 0 8 0 8 40 0 40; IOLIST; {lines} ENDIOLIST; NETWORK; {calls} ENDNETWORK; ENDMODULE;\n"
    )
}

/// The file that a text is under rules.
pub(crate) fn file_of(alloc: Global, rules: &Rules, text: &str) -> Result<YalFile, SampleFault>
    ensures kept { IfOk result (λ file. IsKept file) }
    ensures few { IfOk result (λ file. HasAtMost (2 ^ 32 - 1) file) }
{
    if text.len() >= 1 << 24 {
        return Err(SampleFault::TooLong);
    }
    match read_yal(
        alloc,
        text.as_bytes(),
        numbers_of(rules.version, rules.decimals),
    ) {
        Ok(file) => Ok(file),
        Err(fault) => Err(SampleFault::Yal(fault)),
    }
}

/// What a text's design is with its ports, or why it gets none.
fn answer_of(alloc: Global, text: &str) -> Result<Result<Ported, PortFault>, SampleFault> {
    let rules = sample_rules(alloc)?;
    let file = file_of(alloc, &rules, text)?;
    match to_design(alloc, &file, &rules) {
        Ok(design) => Ok(ports(alloc, &file, &design, &rules)),
        Err(fault) => Err(SampleFault::Design(fault)),
    }
}

/// The same as a text, of these modules and of a PARENT with this name, these lines and calls.
pub(crate) fn answer(
    alloc: Global,
    modules: &str,
    parent: &str,
    lines: &str,
    calls: &str,
) -> Result<String, SampleFault> {
    let text = text_of(alloc, modules, parent, lines, calls)?;
    let answer = answer_of(alloc, text.as_str())?;
    Ok(answer_text(alloc, &answer)?)
}

/// The lines of a PARENT and its calls of sample cells, and its design with its ports: kinds with their sides in columns and units, terminals (`*`: power) and positions,
/// instances with the numbers of their kinds, pins with those of their nets, nets, and then the height and how many ports there are below and above.
const PORTED: [(&str, &str, &str); 12] = [
    (
        "n1 I;",
        "u1 INV n1;",
        "INV 1x40 a 0b0, port_south 1x11 p 0t0 / u1:0 port:n1:1 / 0.0=1 1.0=1 / n1 / 40 1 0",
    ),
    (
        "",
        "u1 INV n1;",
        "INV 1x40 a 0b0 / u1:0 / 0.0=1 / n1 / 40 0 0",
    ),
    // Power by any line is no port.
    (
        "x I; x PWR; y GND; y O; n1 GND;",
        "u1 INV n1;",
        "INV 1x40 a 0b0 / u1:0 / 0.0=1 / n1 / 40 0 0",
    ),
    // A signal that no pin has makes a net.
    (
        "x I;",
        "u1 INV n1;",
        "INV 1x40 a 0b0, port_south 1x11 p 0t0 / u1:0 port:x:1 / 0.0=1 1.0=2 / n1 x / 40 1 0",
    ),
    // The first line tells the side.
    (
        "x I; x O;",
        "u1 INV n1;",
        "INV 1x40 a 0b0, port_south 1x11 p 0t0 / u1:0 port:x:1 / 0.0=1 1.0=2 / n1 x / 40 1 0",
    ),
    (
        "x O; x I;",
        "u1 INV n1;",
        "INV 1x40 a 0b0, port_north 1x11 p 0b0 / u1:0 port:x:1 / 0.0=1 1.0=2 / n1 x / 40 0 1",
    ),
    (
        "x PO;",
        "u1 INV n1;",
        "INV 1x40 a 0b0, port_north 1x11 p 0b0 / u1:0 port:x:1 / 0.0=1 1.0=2 / n1 x / 40 0 1",
    ),
    // Each flow once; y is named first by a line, and stands behind the ports of the lower edge.
    (
        "y O; a I; b B; z PO; a O; vdd PWR; c PI; d PB; e F; vss GND;",
        "u INV a; v BUF y;",
        "INV 1x40 a 0b0, BUF 1x40 y 0t0, port_south 1x11 p 0t0, port_north 1x11 p 0b0 / u:0 v:1 port:a:2 port:b:2 port:c:2 port:d:2 port:e:2 port:y:3 port:z:3 / 0.0=1 1.0=2 2.0=1 3.0=3 4.0=4 5.0=5 6.0=6 7.0=2 8.0=7 / a y b c d e z / 40 5 2",
    ),
    // Without calls the ports' kinds are the highest.
    (
        "a I; y O;",
        "",
        "port_south 1x11 p 0t0, port_north 1x11 p 0b0 / port:a:0 port:y:1 / 0.0=1 1.0=2 / a y / 11 1 1",
    ),
    ("", "", " /  /  /  / 0 0 0"),
    // A signal at a power terminal alone is at no pin.
    (
        "VDD I;",
        "u DRV VDD x y;",
        "DRV 2x40 vdd* a y 1b0 2t1, port_south 1x11 p 0t0 / u:0 port:VDD:1 / 0.1=1 0.2=2 1.0=3 / x y VDD / 40 1 0",
    ),
    // Names differ by case.
    (
        "N1 I; n1 O;",
        "u1 INV n1;",
        "INV 1x40 a 0b0, port_south 1x11 p 0t0, port_north 1x11 p 0b0 / u1:0 port:N1:1 port:n1:2 / 0.0=1 1.0=2 2.0=1 / n1 N1 / 40 1 1",
    ),
];

#[test]
fn ports_are_instances_on_the_nets_of_their_signals(rt: HostRuntime) -> Result<(), Fail> {
    for (lines, calls, want) in PORTED.iter() {
        let found = answer(rt.alloc(), CELLS, "top", lines, calls)?;
        assert!(rt; found.as_str() == *want, "{lines} {calls}: {found}");
    }
    Ok(())
}
