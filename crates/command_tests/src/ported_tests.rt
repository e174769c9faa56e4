//! Ports: the terminals of the PARENT as cells in rows of their own, at the lower and at the upper edge.

use crate::support::{
    ONE_INVERTER, ROUTE, begins_so, is_done, is_ended, is_refused_in, rules_with, shelf_with,
    text_with,
};
use samples::{BUFFER, DRIVER, INVERTER, RULES, design_text};
use shelf_io::MemShelf;
use std::alloc::{AllocError, Global};
use std::test::Fail;

/// The words `route d r o --ports` and `check d r o --ports`.
const ROUTE_PORTS: &str = "route|d|r|o|--ports";

const CHECK_PORTS: &str = "check|d|r|o|--ports";

/// A cell of one column with a pin above, `TAL`, twice as high as the samples.
const TALL: &str =
    "MODULE TAL;\nTYPE STANDARD;\nDIMENSIONS 0 0 8 0 8 80 0 80;\nIOLIST;\ny O 4 80 3 POLY;\nENDIOLIST;\nENDMODULE;\n";

/// Modules with the names of the kinds of ports.
const SOUTH_MODULE: &str =
    "MODULE port_south;\nTYPE STANDARD;\nDIMENSIONS 0 0 8 0 8 40 0 40;\nIOLIST;\nENDIOLIST;\nENDMODULE;\n";

const NORTH_MODULE: &str =
    "MODULE port_north;\nTYPE STANDARD;\nDIMENSIONS 0 0 8 0 8 40 0 40;\nIOLIST;\nENDIOLIST;\nENDMODULE;\n";

/// A shelf with these rules under `r`, and under `d` the design of these modules and calls, whose PARENT has these lines.
fn lined_shelf(
    alloc: Global,
    rules: &str,
    modules: &str,
    lines: &str,
    calls: &str,
) -> Result<MemShelf, AllocError> {
    let plain = design_text(alloc, modules, calls)?;
    let list = format!(in alloc; "IOLIST;\n{lines}ENDIOLIST;\nNETWORK")?;
    let text = text_with(
        alloc,
        plain.as_str(),
        "IOLIST;\nENDIOLIST;\nNETWORK",
        list.as_str(),
    )?;
    shelf_with(alloc, rules, text.as_str())
}

/// A design by its modules, the lines of its PARENT and its calls, and what is printed and written of it with its ports.
struct Ported {
    modules: &'static str,
    lines: &'static str,
    calls: &'static str,
    printed: &'static str,
    text: &'static str,
}

/// The worked design; a port of a signal that no pin has; ports in the order of their lines; a name with a line of power, which is no port; a port at the upper edge alone; and
/// ports without any other cell.
const PORTED: [Ported; 6] = [
    Ported {
        modules: INVERTER,
        lines: "n1 I;\n",
        calls: "u1 INV n1;\n",
        printed: "cells 2\nnets 1\nrows 2\nfeeds 0\nchannel 0 tracks 0 extra 0 greedy\nchannel 1 tracks 0 extra 0 greedy\nchannel 2 tracks 0 extra 0 greedy\nsize 800 7500\ncost 0\n",
        text: "(cellroute 1);\n\
            DS 1 1 1;\n9 INV;\nL XP;\nB 800 4000 400 2000;\nL NP;\nB 300 400 400 200;\nDF;\n\
            DS 2 1 1;\n9 port_south;\nL XP;\nB 800 1100 400 550;\nL NP;\nB 300 400 400 900;\nDF;\n\
            91 port:n1;\nC 2 T 0 800;\nL NP;\nB 300 800 400 2300;\n91 u1;\nC 1 T 0 2700;\nE\n",
    },
    Ported {
        modules: INVERTER,
        lines: "z I;\n",
        calls: "u1 INV n1;\n",
        printed: "cells 2\nnets 2\nrows 2\nfeeds 0\nchannel 0 tracks 0 extra 0 greedy\nchannel 1 tracks 0 extra 0 greedy\nchannel 2 tracks 0 extra 0 greedy\nsize 800 7500\ncost 0\n",
        text: "(cellroute 1);\n\
            DS 1 1 1;\n9 INV;\nL XP;\nB 800 4000 400 2000;\nL NP;\nB 300 400 400 200;\nDF;\n\
            DS 2 1 1;\n9 port_south;\nL XP;\nB 800 1100 400 550;\nL NP;\nB 300 400 400 900;\nDF;\n\
            91 port:z;\nC 2 T 0 800;\n91 u1;\nC 1 T 0 2700;\nE\n",
    },
    Ported {
        modules: INVERTER,
        lines: "b I;\na I;\nb O;\n",
        calls: "u1 INV n1;\n",
        printed: "cells 3\nnets 3\nrows 2\nfeeds 0\nchannel 0 tracks 0 extra 0 greedy\nchannel 1 tracks 0 extra 0 greedy\nchannel 2 tracks 0 extra 0 greedy\nsize 1600 7500\ncost 0\n",
        text: "(cellroute 1);\n\
            DS 1 1 1;\n9 INV;\nL XP;\nB 800 4000 400 2000;\nL NP;\nB 300 400 400 200;\nDF;\n\
            DS 2 1 1;\n9 port_south;\nL XP;\nB 800 1100 400 550;\nL NP;\nB 300 400 400 900;\nDF;\n\
            91 port:b;\nC 2 T 0 800;\n91 port:a;\nC 2 T 800 800;\n91 u1;\nC 1 T 0 2700;\nE\n",
    },
    Ported {
        modules: INVERTER,
        lines: "n1 I;\nn1 PWR;\nGND GND;\n",
        calls: "u1 INV n1;\n",
        printed: "cells 1\nnets 1\nrows 1\nfeeds 0\nchannel 0 tracks 0 extra 0 greedy\nchannel 1 tracks 0 extra 0 greedy\nsize 800 5600\ncost 0\n",
        text: ONE_INVERTER,
    },
    Ported {
        modules: BUFFER,
        lines: "y O;\n",
        calls: "u1 BUF y;\n",
        printed: "cells 2\nnets 1\nrows 2\nfeeds 0\nchannel 0 tracks 0 extra 0 greedy\nchannel 1 tracks 0 extra 0 greedy\nchannel 2 tracks 0 extra 0 greedy\nsize 800 7500\ncost 0\n",
        text: "(cellroute 1);\n\
            DS 1 1 1;\n9 BUF;\nL XP;\nB 800 4000 400 2000;\nL NP;\nB 300 400 400 3800;\nDF;\n\
            DS 2 1 1;\n9 port_north;\nL XP;\nB 800 1100 400 550;\nL NP;\nB 300 400 400 200;\nDF;\n\
            91 u1;\nC 1 T 0 800;\nL NP;\nB 300 800 400 5200;\n91 port:y;\nC 2 T 0 5600;\nE\n",
    },
    Ported {
        modules: "",
        lines: "a I;\ny PO;\n",
        calls: "",
        printed: "cells 2\nnets 2\nrows 3\nfeeds 0\nchannel 0 tracks 0 extra 0 greedy\nchannel 1 tracks 0 extra 0 greedy\nchannel 2 tracks 0 extra 0 greedy\nchannel 3 tracks 0 extra 0 greedy\nsize 800 6500\ncost 0\n",
        text: "(cellroute 1);\n\
            DS 1 1 1;\n9 port_south;\nL XP;\nB 800 1100 400 550;\nL NP;\nB 300 400 400 900;\nDF;\n\
            DS 2 1 1;\n9 port_north;\nL XP;\nB 800 1100 400 550;\nL NP;\nB 300 400 400 200;\nDF;\n\
            91 port:a;\nC 1 T 0 800;\n91 port:y;\nC 2 T 0 4600;\nE\n",
    },
];

/// Whether the layout under `o` is found good for the design with its ports.
fn is_good(alloc: Global, shelf: &mut MemShelf) -> Result<bool, AllocError> {
    is_ended(alloc, CHECK_PORTS, shelf, 0, "findings 0\n")
}

/// Whether a design is laid out so with its ports.
fn is_ported(alloc: Global, case: &Ported) -> Result<bool, AllocError> {
    let mut shelf = lined_shelf(alloc, RULES, case.modules, case.lines, case.calls)?;
    Ok(
        is_ended(alloc, ROUTE_PORTS, &mut shelf, 0, case.printed)?
            && shelf.get("o") == Some(case.text.as_bytes())
            && is_good(alloc, &mut shelf)?,
    )
}

#[test]
fn designs_with_ports_and_their_texts(rt: HostRuntime) -> Result<(), Fail> {
    for case in &PORTED {
        assert!(rt;
            is_ported(rt.alloc(), case)?,
            "{} {}",
            case.lines,
            case.calls
        );
    }
    Ok(())
}

/// A module besides BUF, lines of the PARENT, calls, and the summary: ports at both edges and power; and cells of two heights, whose rows cost 1 without the port.
const WIRED: [(&str, &str, &str, &str); 2] = [
    (
        DRIVER,
        "VDD PWR;\na I;\ny O;\n",
        "u1 DRV VDD a y;\n",
        "cells 3\nnets 2\nrows 3\nfeeds 0\nchannel 0 tracks 0 extra 0 greedy\nchannel 1 tracks 0 extra 0 greedy\nchannel 2 tracks 1 extra 0 greedy\nchannel 3 tracks 0 extra 0 greedy\nsize 1600 10200\ncost 0\n",
    ),
    (
        TALL,
        "n O;\n",
        "u1 BUF n;\nu2 TAL n;\n",
        "cells 3\nnets 1\nrows 2\nfeeds 0\nchannel 0 tracks 0 extra 0 greedy\nchannel 1 tracks 1 extra 0 greedy\nchannel 2 tracks 0 extra 0 greedy\nsize 1600 12300\ncost 1\n",
    ),
];

/// Whether a design with ports has this summary and a good layout.
fn is_wired(alloc: Global, case: &(&str, &str, &str, &str)) -> Result<bool, AllocError> {
    let modules = format!(in alloc; "{BUFFER}{}", case.0)?;
    let mut shelf = lined_shelf(alloc, RULES, modules.as_str(), case.1, case.2)?;
    Ok(is_ended(alloc, ROUTE_PORTS, &mut shelf, 0, case.3)? && is_good(alloc, &mut shelf)?)
}

#[test]
fn ports_are_wired_to_their_nets(rt: HostRuntime) -> Result<(), Fail> {
    for case in &WIRED {
        assert!(rt; is_wired(rt.alloc(), case)?, "{}", case.2);
    }
    Ok(())
}

/// Modules besides INV, lines of the PARENT, calls, and why the design gets no ports.
const CLASHES: [(&str, &str, &str, &str); 5] = [
    (
        "",
        "n1 I;\n",
        "port:n1 INV n1;\n",
        "design PortClash port:n1\n",
    ),
    (
        SOUTH_MODULE,
        "n1 I;\n",
        "port:n1 INV n1;\n",
        "design PortClash port_south\n",
    ),
    (
        NORTH_MODULE,
        "y O;\n",
        "port:y INV n1;\n",
        "design PortClash port_north\n",
    ),
    (
        "",
        "y O;\nn1 I;\n",
        "port:y INV a;\nport:n1 INV b;\n",
        "design PortClash port:n1\n",
    ),
    (
        "",
        "n1 I;\n",
        "port:n1 INV n1;\nu2 AND n1;\n",
        "design UnknownModule u2\n",
    ),
];

/// Whether a design is refused so with its ports, by both commands, of which the one does not come to a layout.
fn is_clash(alloc: Global, case: &(&str, &str, &str, &str)) -> Result<bool, AllocError> {
    let modules = format!(in alloc; "{INVERTER}{}", case.0)?;
    let mut shelf = lined_shelf(alloc, RULES, modules.as_str(), case.1, case.2)?;
    Ok(
        is_refused_in(alloc, ROUTE_PORTS, &mut shelf, 5, case.3)?
            && is_refused_in(alloc, CHECK_PORTS, &mut shelf, 5, case.3)?,
    )
}

#[test]
fn names_that_ports_would_have(rt: HostRuntime) -> Result<(), Fail> {
    let alloc = rt.alloc();
    for case in &CLASHES {
        assert!(rt; is_clash(alloc, case)?, "{}", case.3);
    }
    // Without the wish for ports, and where no port is of the kind, the names are free.
    let mut shelf = lined_shelf(alloc, RULES, INVERTER, "n1 I;\n", "port:n1 INV n1;\n")?;
    assert!(rt; is_done(alloc, ROUTE, &mut shelf)?);
    let modules = format!(in alloc; "{INVERTER}{NORTH_MODULE}")?;
    let mut shelf = lined_shelf(alloc, RULES, modules.as_str(), "n1 I;\n", "u1 INV n1;\n")?;
    assert!(rt; is_done(alloc, ROUTE_PORTS, &mut shelf)?);
    Ok(())
}

/// The calls of so many inverters.
fn inverters(alloc: Global, count: u32) -> Result<String, AllocError> {
    let mut calls = String::new(alloc);
    for n in 0..count {
        write!(calls, "u{n} INV n{n};\n")?;
    }
    Ok(calls)
}

#[test]
fn limits_with_ports(rt: HostRuntime) -> Result<(), Fail> {
    let alloc = rt.alloc();
    let calls = inverters(alloc, 20_000)?;
    let mut shelf = lined_shelf(alloc, RULES, INVERTER, "a I;\n", calls.as_str())?;
    assert!(rt; is_refused_in(alloc, ROUTE_PORTS, &mut shelf, 6, "limit Instances 20001\n")?);
    assert!(rt; is_refused_in(alloc, CHECK_PORTS, &mut shelf, 6, "limit Instances 20001\n")?);
    // The cells that are no ports alone are annealed.
    let rules = rules_with(
        alloc,
        "stages = 0\nmoves = 4",
        "stages = 1000\nmoves = 1000",
    )?;
    let calls = inverters(alloc, 51)?;
    let mut shelf = lined_shelf(alloc, rules.as_str(), INVERTER, "n1 I;\n", calls.as_str())?;
    assert!(rt; is_refused_in(alloc, ROUTE_PORTS, &mut shelf, 6, "limit Moves 51000000\n")?);
    Ok(())
}

/// Two inverters below whose pins stand their ports, in the order of the names in the text.
const EXCHANGED: &str = "(cellroute 1);\n\
    DS 1 1 1;\n9 INV;\nL XP;\nB 800 4000 400 2000;\nL NP;\nB 300 400 400 200;\nDF;\n\
    DS 2 1 1;\n9 port_south;\nL XP;\nB 800 1100 400 550;\nL NP;\nB 300 400 400 900;\nDF;\n\
    91 port:b;\nC 2 T 0 800;\n91 port:a;\nC 2 T 800 800;\n\
    L NP;\nB 300 800 400 2300;\nB 300 800 1200 2300;\n\
    91 u1;\nC 1 T 0 2700;\n91 u2;\nC 1 T 800 2700;\nE\n";

#[test]
fn layouts_whose_ports_are_wrong(rt: HostRuntime) -> Result<(), Fail> {
    let alloc = rt.alloc();
    let mut shelf = lined_shelf(alloc, RULES, INVERTER, "n1 I;\n", "u1 INV n1;\n")?;
    shelf.set("o", ONE_INVERTER.as_bytes())?;
    assert!(rt;
        is_ended(
            alloc,
            CHECK_PORTS,
            &mut shelf,
            1,
            "Missing port:n1\nfindings 1\n"
        )?
    );
    shelf.set("o", PORTED[0].text.as_bytes())?;
    assert!(rt;
        is_ended(
            alloc,
            "check|d|r|o",
            &mut shelf,
            1,
            "Strange port:n1\nfindings 1\n"
        )?
    );
    let mut shelf = lined_shelf(
        alloc,
        RULES,
        INVERTER,
        "a I;\nb I;\n",
        "u1 INV a;\nu2 INV b;\n",
    )?;
    shelf.set("o", EXCHANGED.as_bytes())?;
    assert!(rt;
        is_ended(
            alloc,
            CHECK_PORTS,
            &mut shelf,
            1,
            "Open u1 a port:a p\nOpen u2 a port:b p\nShort u1 a port:b p\nShort u2 a port:a p\nfindings 4\n"
        )?
    );
    Ok(())
}

#[test]
fn without_the_wish_nothing_changes(rt: HostRuntime) -> Result<(), Fail> {
    let alloc = rt.alloc();
    let mut shelf = lined_shelf(alloc, RULES, INVERTER, "n1 I;\n", "u1 INV n1;\n")?;
    assert!(rt; begins_so(alloc, ROUTE, &mut shelf, "cells 1\nnets 1\nrows 1\n")?);
    assert!(rt; shelf.get("o") == Some(ONE_INVERTER.as_bytes()));
    Ok(())
}
