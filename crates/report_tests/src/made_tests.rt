//! Designs made from a number.

use layout_report::make_design;
use samples::{RULES, sample_rules};
use std::alloc::Global;
use std::test::Fail;
use tech_rules::read_rules;

// The design of six instances of seed 7 under the sample rules, as another program with that generator made it.
const SIX_OF_SEVEN: &str = "/* made design */
MODULE M0;
TYPE STANDARD;
DIMENSIONS 0 0 16 0 16 11 0 11;
IOLIST;
a I 4 0 3 POLY;
b I 12 0 3 POLY;
y O 4 11 3 POLY;
z B 12 11 3 POLY;
vdd PWR;
vss GND;
ENDIOLIST;
ENDMODULE;
MODULE M1;
TYPE STANDARD;
DIMENSIONS 0 0 24 0 24 11 0 11;
IOLIST;
a I 4 0 3 POLY;
b I 20 0 3 POLY;
y O 4 11 3 POLY;
z B 12 11 3 POLY;
vdd PWR;
vss GND;
ENDIOLIST;
ENDMODULE;
MODULE M2;
TYPE STANDARD;
DIMENSIONS 0 0 32 0 32 11 0 11;
IOLIST;
a I 4 0 3 POLY;
b I 28 0 3 POLY;
y O 4 11 3 POLY;
z B 12 11 3 POLY;
vdd PWR;
vss GND;
ENDIOLIST;
ENDMODULE;
MODULE M3;
TYPE STANDARD;
DIMENSIONS 0 0 40 0 40 11 0 11;
IOLIST;
a I 4 0 3 POLY;
b I 36 0 3 POLY;
y O 4 11 3 POLY;
z B 12 11 3 POLY;
vdd PWR;
vss GND;
ENDIOLIST;
ENDMODULE;
MODULE M4;
TYPE STANDARD;
DIMENSIONS 0 0 48 0 48 11 0 11;
IOLIST;
a I 4 0 3 POLY;
b I 44 0 3 POLY;
y O 4 11 3 POLY;
z B 12 11 3 POLY;
z B 20 0 3 POLY;
vdd PWR;
vss GND;
ENDIOLIST;
ENDMODULE;
MODULE made;
TYPE PARENT;
DIMENSIONS 0 0 1 0 1 1 0 1;
PROFILE 0 0;
IOLIST;
ENDIOLIST;
NETWORK;
c0 M0 n1 n3 n0 z0 VDD VSS;
c1 M1 n3 n2 n1 z0 VDD VSS;
c2 M2 n1 n3 n2 z0 VDD VSS;
c3 M3 n2 n5 n3 z0 VDD VSS;
c4 M4 n4 n3 n4 z1 VDD VSS;
c5 M0 n5 n2 n5 z1 VDD VSS;
ENDNETWORK;
PLACEMENT;
ENDPLACEMENT;
ENDMODULE;
";

#[test]
fn six_instances_of_seed_seven(rt: HostRuntime) -> Result<(), Fail> {
    let alloc = rt.alloc();
    let rules = sample_rules(alloc)?;
    let text = make_design(alloc, &rules, 7, 6)?;
    assert!(rt; text.as_slice() == SIX_OF_SEVEN.as_bytes());
    Ok(())
}

// The length of the text of the most instances, by another program.
#[test]
fn the_most_instances(rt: HostRuntime) -> Result<(), Fail> {
    let alloc = rt.alloc();
    let rules = sample_rules(alloc)?;
    let text = make_design(alloc, &rules, 1, 20_000)?;
    assert_eq!(rt; text.len(), 872273);
    Ok(())
}

// For so many decimals: a width of 16 units, a height of 11, and the middles of columns at 4 and at 12.
const LENGTHS: [(u32, &str, &str, &str, &str); 4] = [
    (0, "16", "11", "4", "12"),
    (1, "1.6", "1.1", "0.4", "1.2"),
    (2, "0.16", "0.11", "0.04", "0.12"),
    (4, "0.0016", "0.0011", "0.0004", "0.0012"),
];

// Whether the text of six instances of seed 7 under rules with so many decimals begins with a module of these lengths, and ends as without.
fn has_lengths(
    alloc: Global,
    decimals: u32,
    lengths: (&str, &str, &str, &str),
) -> Result<bool, Fail> {
    let (width, height, first, second) = lengths;
    let (_, rest) = RULES.split_once("version = 1\n").unwrap_or((RULES, ""));
    let stated = format!(in alloc; "version = 2\ndecimals = {decimals}\n{rest}")?;
    let rules = read_rules(alloc, stated.as_bytes())?;
    let text = make_design(alloc, &rules, 7, 6)?;
    let module = format!(in alloc;
        "/* made design */\nMODULE M0;\nTYPE STANDARD;\nDIMENSIONS 0 0 {width} 0 {width} {height} 0 {height};\nIOLIST;\na I {first} 0 3 POLY;\nb I {second} 0 3 POLY;\ny O {first} {height} 3 POLY;\nz B {second} {height} 3 POLY;\nvdd PWR;\n"
    )?;
    let network = SIX_OF_SEVEN
        .split_once("MODULE made;")
        .unwrap_or(("", ""))
        .1;
    Ok(text.starts_with(module.as_bytes()) && text.ends_with(network.as_bytes()))
}

#[test]
fn lengths_have_decimals(rt: HostRuntime) -> Result<(), Fail> {
    for (decimals, width, height, first, second) in LENGTHS {
        assert!(rt;
            has_lengths(rt.alloc(), decimals, (width, height, first, second))?,
            "{decimals}"
        );
    }
    Ok(())
}
