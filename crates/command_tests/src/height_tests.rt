//! Designs with cells of several heights: a row is as high as its highest cell, cells stand on the row's lower edge, and risers lead from lower cells to its upper edge.

use crate::support::{ROUTE, begins_so, is_done, is_ended, rules_with, shelf_of, shelf_with};
use samples::{BUFFER, INVERTER, RULES, design_text};
use shelf_io::MemShelf;
use std::alloc::{AllocError, Global};
use std::test::Fail;

/// A cell of one column with a pin above, `TAL`, twice as high as the samples.
const TALL: &str =
    "MODULE TAL;\nTYPE STANDARD;\nDIMENSIONS 0 0 8 0 8 80 0 80;\nIOLIST;\ny O 4 80 3 POLY;\nENDIOLIST;\nENDMODULE;\n";

/// One with a pin below, `INT`.
const TALL_INVERTER: &str =
    "MODULE INT;\nTYPE STANDARD;\nDIMENSIONS 0 0 8 0 8 80 0 80;\nIOLIST;\na I 4 0 3 POLY;\nENDIOLIST;\nENDMODULE;\n";

/// One with a pin above, `MID`, higher than the samples by less than a wire is wide.
const MIDDLE: &str =
    "MODULE MID;\nTYPE STANDARD;\nDIMENSIONS 0 0 8 0 8 42 0 42;\nIOLIST;\ny O 4 42 3 POLY;\nENDIOLIST;\nENDMODULE;\n";

/// The symbols of BUF, and of TAL behind it.
const BUF_SYMBOL: &str =
    "DS 1 1 1;\n9 BUF;\nL XP;\nB 800 4000 400 2000;\nL NP;\nB 300 400 400 3800;\nDF;\n";

const TAL_SYMBOL: &str =
    "DS 2 1 1;\n9 TAL;\nL XP;\nB 800 8000 400 4000;\nL NP;\nB 300 400 400 7800;\nDF;\n";

/// A buffer beside a high cell in a row of 80 units from 8 to 88, joined on the track at 96: the riser goes from 44, 4 units below the buffer's top, to 88.
const JOINED: &str = "\
91 u1;\nC 1 T 0 800;\n91 u2;\nC 2 T 800 800;\n\
L NP;\nB 300 4400 400 6600;\n\
B 300 1000 400 9300;\nB 300 1000 1200 9300;\nL NM;\nB 1200 300 800 9600;\n\
B 400 400 400 9600;\nL NP;\nB 400 400 400 9600;\nL NC;\nB 200 200 400 9600;\n\
L NM;\nB 400 400 1200 9600;\nL NP;\nB 400 400 1200 9600;\nL NC;\nB 200 200 1200 9600;\nE\n";

/// The same cells where their nets have one pin each: no riser.
const UNJOINED: &str = "91 u1;\nC 1 T 0 800;\n91 u2;\nC 2 T 800 800;\nE\n";

/// Four rows of 40, 40, 80 and 40 units from 8, 56, 104 and 192 on, the inner two with feeds for a net from row 0 to row 3.
const FED: &str = "\
DS 1 1 1;\n9 INV;\nL XP;\nB 800 4000 400 2000;\nL NP;\nB 300 400 400 200;\nDF;\n\
DS 2 1 1;\n9 BUF;\nL XP;\nB 800 4000 400 2000;\nL NP;\nB 300 400 400 3800;\nDF;\n\
DS 3 1 1;\n9 INT;\nL XP;\nB 800 8000 400 4000;\nL NP;\nB 300 400 400 200;\nDF;\n\
DS 4 1 1;\nL XP;\nB 800 4000 400 2000;\nL NP;\nB 300 4000 400 2000;\nDF;\n\
DS 5 1 1;\nL XP;\nB 800 8000 400 4000;\nL NP;\nB 300 8000 400 4000;\nDF;\n\
91 u1;\nC 2 T 0 800;\nL NP;\nB 300 800 400 5200;\n\
C 4 T 0 5600;\n91 u2;\nC 1 T 800 5600;\nB 300 800 400 10000;\n\
C 5 T 0 10400;\n91 u3;\nC 3 T 800 10400;\nB 300 800 400 18800;\n\
91 u4;\nC 1 T 0 19200;\nE\n";

/// The summaries of the joined cells and of the four rows.
const JOINED_LINES: &str =
    "cells 2\nnets 1\nrows 1\nfeeds 0\nchannel 0 tracks 0 extra 0 greedy\nchannel 1 tracks 1 extra 0 greedy\nsize 1600 10400\ncost 1\n";

const FED_LINES: &str =
    "cells 4\nnets 3\nrows 4\nfeeds 2\nchannel 0 tracks 0 extra 0 greedy\nchannel 1 tracks 0 extra 0 greedy\nchannel 2 tracks 0 extra 0 greedy\nchannel 3 tracks 0 extra 0 greedy\nchannel 4 tracks 0 extra 0 greedy\nsize 1600 24000\ncost 12\n";

/// Whether the layout under `o` is found good.
fn is_good(alloc: Global, shelf: &mut MemShelf) -> Result<bool, AllocError> {
    is_ended(alloc, "check|d|r|o", shelf, 0, "findings 0\n")
}

/// Whether these words over the design of these modules and calls print these lines first and give a layout of these texts, which is found good.
fn is_laid(
    alloc: Global,
    words: &str,
    modules: &[&str],
    calls: &str,
    lines: &str,
    texts: &[&str],
) -> Result<bool, AllocError> {
    let mut all = String::new(alloc);
    for module in modules {
        all.push_str(module)?;
    }
    let mut want = String::from_str(alloc, "(cellroute 1);\n")?;
    for text in texts {
        want.push_str(text)?;
    }
    let mut shelf = shelf_of(alloc, RULES, all.as_str(), calls)?;
    Ok(
        begins_so(alloc, words, &mut shelf, lines)?
            && shelf.get("o") == Some(want.as_bytes())
            && is_good(alloc, &mut shelf)?,
    )
}

#[test]
fn a_lower_cell_in_a_row(rt: HostRuntime) -> Result<(), Fail> {
    let alloc = rt.alloc();
    let modules = [BUFFER, TALL];
    let joined = [BUF_SYMBOL, TAL_SYMBOL, JOINED];
    let alone = [BUF_SYMBOL, TAL_SYMBOL, UNJOINED];
    assert!(rt;
        is_laid(
            alloc,
            ROUTE,
            &modules,
            "u1 BUF n;\nu2 TAL n;\n",
            JOINED_LINES,
            &joined
        )?
    );
    assert!(rt;
        is_laid(
            alloc,
            ROUTE,
            &modules,
            "u1 BUF p;\nu2 TAL q;\n",
            "cells 2\nnets 2\n",
            &alone
        )?
    );
    Ok(())
}

#[test]
fn feeds_of_two_heights(rt: HostRuntime) -> Result<(), Fail> {
    let modules = [INVERTER, BUFFER, TALL_INVERTER];
    let calls = "u1 BUF n;\nu2 INV p;\nu3 INT q;\nu4 INV n;\n";
    assert!(rt;
        is_laid(
            rt.alloc(),
            "route|--rows|4|d|r|o",
            &modules,
            calls,
            FED_LINES,
            &[FED]
        )?
    );
    Ok(())
}

/// Words, a module besides BUF, calls, and the summary but for the cost: a difference in height below a wire's width, a low row below a high one, and a row without cells, as
/// high as the highest module.
const SIZES: [(&str, &str, &str, &str); 3] = [
    (
        ROUTE,
        MIDDLE,
        "u1 BUF n;\nu2 MID n;\n",
        "cells 2\nnets 1\nrows 1\nfeeds 0\nchannel 0 tracks 0 extra 0 greedy\nchannel 1 tracks 1 extra 0 greedy\nsize 1600 6600\n",
    ),
    (
        "route|--rows|2|d|r|o",
        TALL_INVERTER,
        "u1 BUF n;\nu2 INT n;\n",
        "cells 2\nnets 1\nrows 2\nfeeds 0\nchannel 0 tracks 0 extra 0 greedy\nchannel 1 tracks 0 extra 0 greedy\nchannel 2 tracks 0 extra 0 greedy\nsize 800 14400\n",
    ),
    (
        "route|--rows|3|d|r|o",
        TALL,
        "u1 BUF p;\nu2 TAL q;\n",
        "cells 2\nnets 2\nrows 3\nfeeds 0\nchannel 0 tracks 0 extra 0 greedy\nchannel 1 tracks 0 extra 0 greedy\nchannel 2 tracks 0 extra 0 greedy\nchannel 3 tracks 0 extra 0 greedy\nsize 800 23200\n",
    ),
];

/// Whether a case gives a good layout and prints its lines.
fn is_size(alloc: Global, case: &(&str, &str, &str, &str)) -> Result<bool, AllocError> {
    let modules = format!(in alloc; "{BUFFER}{}", case.1)?;
    let mut shelf = shelf_of(alloc, RULES, modules.as_str(), case.2)?;
    Ok(begins_so(alloc, case.0, &mut shelf, case.3)? && is_good(alloc, &mut shelf)?)
}

#[test]
fn rows_are_as_high_as_their_highest_cells(rt: HostRuntime) -> Result<(), Fail> {
    for case in &SIZES {
        assert!(rt; is_size(rt.alloc(), case)?, "{}", case.2);
    }
    Ok(())
}

/// The modules `H40`, `H44`, `H52`, `H66` and `H80`, named by their heights, of two columns with a pin below in the first and one above in the second.
fn five_modules(alloc: Global) -> Result<String, AllocError> {
    let mut modules = String::new(alloc);
    for height in [40, 44, 52, 66, 80] {
        let module = format!(in alloc;
            "MODULE H{height};\nTYPE STANDARD;\nDIMENSIONS 0 0 16 0 16 {height} 0 {height};\nIOLIST;\na I 4 0 3 POLY;\ny O 12 {height} 3 POLY;\nENDIOLIST;\nENDMODULE;\n"
        )?;
        modules.push_str(module.as_str())?;
    }
    Ok(modules)
}

/// Calls of these modules in turn, of which each drives the next but two.
fn five_calls(alloc: Global) -> Result<String, AllocError> {
    let mut calls = String::new(alloc);
    for round in 0..6u32 {
        for (place, height) in [40, 44, 52, 66, 80].into_iter().enumerate() {
            let number = 5 * round + place as u32;
            let next = number + 3;
            let call = format!(in alloc; "c{number} H{height} n{number} n{next};\n")?;
            calls.push_str(call.as_str())?;
        }
    }
    Ok(calls)
}

#[test]
fn five_heights_annealed(rt: HostRuntime) -> Result<(), Fail> {
    let alloc = rt.alloc();
    let modules = five_modules(alloc)?;
    let calls = five_calls(alloc)?;
    let rules = rules_with(alloc, "stages = 0\n", "stages = 20\n")?;
    let design = design_text(alloc, modules.as_str(), calls.as_str())?;
    let mut shelf = shelf_with(alloc, rules.as_str(), design.as_str())?;
    assert!(rt; is_done(alloc, ROUTE, &mut shelf)?);
    assert!(rt; is_good(alloc, &mut shelf)?);
    Ok(())
}
