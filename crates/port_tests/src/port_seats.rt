//! Rows of designs with ports.

ghost use Rattle.row_model.specs.Rows.{ArePlaced};
ghost use Rattle.std.specs.Prelude.{◌-◌, ◌^◌, IfOk};
ghost use Rattle.yal_reader.specs.Kept.{HasAtMost, IsKept};

use crate::port_designs::{file_of, text_of};
use design_model::Design;
use limits::MOST_ROWS;
use netlist_core::to_design;
use port_rows::{port_rows, ports};
use row_model::{Rows, column_of, mirror, start};
use samples::{CELLS, sample_rules};
use std::alloc::{AllocError, Global};
use std::test::Fail;
use tech_rules::{Rules, StartBy};
use yal_reader::YalFile;

/// How many rows a design begins with, and which of its instances is mirrored then, if one is.
#[derive(Drop)]
struct Begun {
    rows: u32,
    mirrored: Option<u32>,
}

/// A design of lines and calls, how it begins, and its rows with those of its ports, from the lowest on: the instances with the columns of their first pins, and `~` at one that is mirrored.
#[derive(Drop)]
struct Seated {
    lines: &'static str,
    calls: &'static str,
    begun: Begun,
    rows: &'static str,
}

const BOTH: &str = "y O; a I; b B; z PO; a O; vdd PWR; c PI; d PB; e F; vss GND;";

const SEATED: [Seated; 8] = [
    Seated {
        lines: "n1 I;",
        calls: "u1 INV n1;",
        begun: Begun {
            rows: 1,
            mirrored: None,
        },
        rows: "1@0 | 0@0",
    },
    Seated {
        lines: "n1 O;",
        calls: "u1 INV n1;",
        begun: Begun {
            rows: 1,
            mirrored: None,
        },
        rows: "0@0 | 1@0",
    },
    Seated {
        lines: "",
        calls: "u1 INV n1; u2 INV n1;",
        begun: Begun {
            rows: 1,
            mirrored: None,
        },
        rows: "0@0 1@1",
    },
    Seated {
        lines: BOTH,
        calls: "u INV a; v BUF y;",
        begun: Begun {
            rows: 1,
            mirrored: None,
        },
        rows: "2@0 3@1 4@2 5@3 6@4 | 0@0 1@1 | 7@0 8@1",
    },
    Seated {
        lines: BOTH,
        calls: "u INV a; v BUF y;",
        begun: Begun {
            rows: 2,
            mirrored: None,
        },
        rows: "2@0 3@1 4@2 5@3 6@4 | 0@0 | 1@0 | 7@0 8@1",
    },
    // A DRV is two columns wide, with its first pin on the left; mirrored it has that on the right.
    Seated {
        lines: "x I; y I; z O;",
        calls: "u DRV VDD x y; v INV z;",
        begun: Begun {
            rows: 1,
            mirrored: Some(0),
        },
        rows: "2@0 3@1 | 0~@1 1@2 | 4@0",
    },
    // There is no instance 2 but that of a port.
    Seated {
        lines: "x I; y I; z O;",
        calls: "u DRV VDD x y; v INV z;",
        begun: Begun {
            rows: 1,
            mirrored: Some(2),
        },
        rows: "2@0 3@1 | 0@0 1@2 | 4@0",
    },
    Seated {
        lines: "a I; y O;",
        calls: "",
        begun: Begun {
            rows: 2,
            mirrored: None,
        },
        rows: "0@0 |  |  | 1@0",
    },
];

/// The column of an instance's first pin in its row.
fn first_column(design: &Design, rows: &Rows, instance: u32) -> u64
    requires { ArePlaced design.now rows.now }
{
    for (n, pin) in design.pins.items().iter().enumerate() {
        if pin.instance == instance {
            return column_of(design, rows, n as u32);
        }
    }
    u64::MAX
}

/// Rows as a text.
fn shown(alloc: Global, design: &Design, rows: &Rows) -> Result<String, AllocError>
    requires { ArePlaced design.now rows.now }
{
    let mut text = String::new(alloc);
    for (i, seats) in rows.rows.items().iter().enumerate() {
        if i > 0 {
            text.push_str(" | ")?;
        }
        for (k, seat) in seats.items().iter().enumerate() {
            if k > 0 {
                text.push_str(" ")?;
            }
            let mark = if seat.mirror { "~" } else { "" };
            let column = first_column(design, rows, seat.instance);
            write!(text, "{}{mark}@{column}", seat.instance)?;
        }
    }
    Ok(text)
}

/// The rows that a design begins with.
fn begin(alloc: Global, design: &Design, begun: &Begun) -> Result<Rows, Fail>
    ensures { IfOk result (λ rows. ArePlaced design.now rows) }
{
    if begun.rows == 0 || begun.rows > 512 {
        return Err(Fail::new("no rows"));
    }
    let rows = start(alloc, design, begun.rows, StartBy::Width)?;
    match begun.mirrored {
        Some(instance) => Ok(turned(design, rows, instance)),
        None => Ok(rows),
    }
}

/// Rows of a design in which this instance is turned over.
fn turned(design: &Design, rows: Rows, instance: u32) -> Rows
    requires { ArePlaced design.now rows }
    ensures { ArePlaced design.now result }
{
    let mut rows = rows;
    mirror(&mut rows, instance);
    rows
}

/// The rows of the design of a file with those of its ports, as a text.
fn rows_of(alloc: Global, rules: &Rules, file: &YalFile, begun: &Begun) -> Result<String, Fail>
    requires file { IsKept file.now }
    requires few { HasAtMost (2 ^ 32 - 1) file.now }
{
    let design = match to_design(alloc, file, rules) {
        Ok(design) => design,
        Err(fault) => return Err(Fail::new(fault)),
    };
    let rows = begin(alloc, &design, begun)?;
    if rows.rows.items().len() > MOST_ROWS as usize {
        return Err(Fail::new("too many rows"));
    }
    let ported = match ports(alloc, file, &design, rules) {
        Ok(ported) => ported,
        Err(fault) => return Err(Fail::new(fault)),
    };
    let rows = port_rows(alloc, &ported, &rows)?;
    Ok(shown(alloc, &ported.design, &rows)?)
}

/// The same of a case.
fn rows_of_case(alloc: Global, case: &Seated) -> Result<String, Fail> {
    let text = text_of(alloc, CELLS, "top", case.lines, case.calls)?;
    let rules = sample_rules(alloc)?;
    let file = file_of(alloc, &rules, text.as_str())?;
    rows_of(alloc, &rules, &file, &case.begun)
}

#[test]
fn ports_stand_at_the_lower_and_the_upper_edge(rt: HostRuntime) -> Result<(), Fail> {
    for case in SEATED.iter() {
        let found = rows_of_case(rt.alloc(), case)?;
        assert!(rt; found.as_str() == case.rows, "{}: {found}", case.lines);
    }
    Ok(())
}

/// There are then 514 rows, which is as many as a design may stand in.
#[test]
fn the_most_rows_get_those_of_ports(rt: HostRuntime) -> Result<(), Fail> {
    let case = Seated {
        lines: "n I; m O;",
        calls: "u INV n;",
        begun: Begun {
            rows: 512,
            mirrored: None,
        },
        rows: "",
    };
    let found = rows_of_case(rt.alloc(), &case)?;
    assert!(rt; found.as_str().starts_with("1@0 | 0@0 | "));
    assert!(rt; found.as_str().ends_with(" | 2@0"));
    assert!(rt; found.as_str().matches('|').count() == 513);
    Ok(())
}
