//! The command to make a design of a netlist.

use crate::support::{is_done, is_ended};
use samples::{COUNTER, COUNTER_CELLS, COUNTER_PARENT, RULES};
use shelf_io::MemShelf;
use std::alloc::{AllocError, Global};
use std::test::Fail;

// The cell INV, with terminals of which two are of power.
const INV: &str =
    "MODULE INV;\nTYPE STANDARD;\nDIMENSIONS 0 0 16 0 16 40 0 40;\nIOLIST;\nA I 4 0 3 POLY;\nY O 12 40 3 POLY;\nvdd PWR;\nvss GND;\nENDIOLIST;\nENDMODULE;\n";

// A shelf with this netlist under `b`, these cells under `k`, the sample rules under `r`, and an old text under `o`.
fn netlist_shelf(alloc: Global, netlist: &[u8], cells: &[u8]) -> Result<MemShelf, AllocError> {
    let mut shelf = MemShelf::new(alloc)?;
    shelf.set("b", netlist)?;
    shelf.set("k", cells)?;
    shelf.set("r", RULES.as_bytes())?;
    shelf.set("o", b"old")?;
    Ok(shelf)
}

#[test]
fn a_counter_comes_in_and_is_routed(rt: HostRuntime) -> Result<(), Fail> {
    let mut shelf = netlist_shelf(rt.alloc(), COUNTER, COUNTER_CELLS)?;
    assert!(rt; is_ended(rt.alloc(), "import|b|k|o", &mut shelf, 0, "")?);
    let mut whole = COUNTER_CELLS.to_vec(rt.alloc())?;
    whole.extend_from_slice(COUNTER_PARENT)?;
    assert!(rt; shelf.get("o") == Some(whole.as_slice()));
    assert!(rt; is_done(rt.alloc(), "route|o|r|p|--ports", &mut shelf)?);
    assert!(rt;
        is_ended(
            rt.alloc(),
            "check|o|r|p|--ports",
            &mut shelf,
            0,
            "findings 0\n"
        )?
    );
    Ok(())
}

// Lines of a netlist behind `.model top`, and the status and the line with which it is refused over the cell INV.
const REFUSED: &[(&str, u8, &str)] = &[
    (".latch a b re c 2\n.end\n", 3, "blif Directive 11\n"),
    (".names a b c\n", 3, "blif Table 11\n"),
    (".gate INV A=a Y\n.end\n", 3, "blif Pin 25\n"),
    (".cname u\n.end\n", 3, "blif Cname 11\n"),
    (".model b\n.end\n", 3, "blif Model 11\n"),
    ("a b\n.end\n", 3, "blif Word 11\n"),
    (".inputs a;\n.end\n", 3, "blif Byte 20\n"),
    (".inputs a\n", 3, "blif Ends 21\n"),
    (".gate BUF A=a Y=b\n.end\n", 5, "import Cell BUF 17\n"),
    (".gate INV A=a Q=b\n.end\n", 5, "import Pin Q 25\n"),
    (".gate INV A=a vss=b\n.end\n", 5, "import Pin vss 25\n"),
    (".gate INV A=a A=b\n.end\n", 5, "import Twice A 25\n"),
    (".gate INV A=a\n.end\n", 5, "import Missing Y 17\n"),
    (
        ".gate INV A=a Y=b\n.cname g1\n.gate INV A=b Y=c\n.end\n",
        5,
        "import Name g1 45\n",
    ),
    (".gate INV A=VDD Y=b\n.end\n", 5, "import Power VDD 21\n"),
    (
        ".gate INV A=$false Y=b\n.names $false\n.end\n",
        5,
        "import Constant $false 21\n",
    ),
    (".inputs a a\n.end\n", 5, "import Net a 21\n"),
    (
        ".outputs ENDIOLIST\n.end\n",
        5,
        "import Keyword ENDIOLIST 20\n",
    ),
    (
        ".gate INV A=a Y=b\n.cname ENDNETWORK\n.end\n",
        5,
        "import Keyword ENDNETWORK 36\n",
    ),
    (
        ".inputs a\n.outputs y\n.names a y\n1 1\n.end\n",
        5,
        "import Net y 30\n",
    ),
    (
        ".gate INV A=a Y=b\n.names GND a\n1 1\n.end\n",
        5,
        "import Power a 21\n",
    ),
];

// Whether a netlist of these lines is refused so, and leaves `o` as it was.
fn is_no_netlist(alloc: Global, lines: &str, status: u8, line: &str) -> Result<bool, AllocError> {
    let netlist = format!(in alloc; ".model top\n{lines}")?;
    let mut shelf = netlist_shelf(alloc, netlist.as_bytes(), INV.as_bytes())?;
    let ended = is_ended(alloc, "import|b|k|o", &mut shelf, status, line)?;
    Ok(ended && shelf.get("o") == Some(b"old"))
}

#[test]
fn netlists_that_are_refused(rt: HostRuntime) -> Result<(), Fail> {
    for (lines, status, line) in REFUSED {
        assert!(rt; is_no_netlist(rt.alloc(), lines, *status, line)?, "{lines}");
    }
    Ok(())
}

// Words, and the status and the line with which they are refused where `b` is a netlist without gates, `k` the cell INV, `p` a PARENT, `o` no netlist and `m` a cell in microns.
const WORDS: &[(&str, u8, &str)] = &[
    ("import|b|k", 2, "usage\n"),
    ("import|b|k|o|--box|0,0,1,1", 2, "usage\n"),
    ("import|b|k|o|--decimals|5", 2, "usage\n"),
    ("import|b|k|o|--decimals|", 2, "usage\n"),
    ("import|none|k|o", 8, "read fault\n"),
    ("import|b|none|o", 8, "read fault\n"),
    ("import|o|none|o", 3, "blif Word 0\n"),
    ("import|b|o|o", 3, "yal Word 0\n"),
    ("import|b|p|o", 5, "import Parent top 7\n"),
    ("import|b|m|o", 3, "yal Number 40\n"),
    ("import|b|m|o|--decimals|1", 0, ""),
];

// Whether these words end so over such a shelf, and leave `o` as it was, but for status 0.
fn is_ended_over(alloc: Global, words: &str, status: u8, line: &str) -> Result<bool, AllocError> {
    let mut shelf = netlist_shelf(alloc, b".model top\n.end\n", INV.as_bytes())?;
    shelf.set("p", b"MODULE top;\nTYPE PARENT;\nENDMODULE;\n")?;
    shelf.set(
        "m",
        b"MODULE INV;\nTYPE STANDARD;\nDIMENSIONS 0 1.6 0 4;\nENDMODULE;\n",
    )?;
    let ended = is_ended(alloc, words, &mut shelf, status, line)?;
    Ok(ended && (status == 0 || shelf.get("o") == Some(b"old")))
}

#[test]
fn words_and_files_that_give_no_design(rt: HostRuntime) -> Result<(), Fail> {
    for (words, status, line) in WORDS {
        assert!(rt; is_ended_over(rt.alloc(), words, *status, line)?, "{words}");
    }
    Ok(())
}
