//! The best of several placements.

ghost use Rattle.std.specs.Prelude.{◌≤◌};

use crate::support::{
    CHECK, ended, inverter_shelf, is_done, is_ended, is_refused_in, rules_with, shelf_of,
    shelf_with, shelf_with_bytes, wide,
};
use layout_report::make_design;
use samples::{INVERTER, RULES, sample_rules};
use shelf_io::{MemShelf, MemSink};
use std::alloc::{AllocError, Global};
use std::test::Fail;

// The calls of so many inverters, each on a net of its own.
fn inverters(alloc: Global, count: u32) -> Result<String, AllocError> {
    let mut calls = String::new(alloc);
    for n in 0..count {
        write!(calls, "u{n} INV n{n};\n")?;
    }
    Ok(calls)
}

// What these words print over a shelf where they end with 0.
fn lines_of(alloc: Global, words: &str, shelf: &mut MemShelf) -> Result<Vec<u8>, AllocError> {
    let mut out = MemSink::new(alloc)?;
    if ended(alloc, words, shelf, &mut out)?.status != 0 {
        return Ok(Vec::new(alloc));
    }
    out.bytes().to_vec(alloc)
}

/// So many inverters, words, and how the summary ends. No channel has a track, so K rows of W columns are estimated at 8 W (48 K + 8), and what is estimated is what comes.
/// 81 inverters stand in 5 rows (W = 17, 17 * 248 = 4216), or 4 (21 * 200 = 4200), 6 (14 * 296 = 4144), 3 (27 * 152 = 4104) or 2 (41 * 104 = 4264).
const TAKEN: &[(u32, &str, &str)] = &[
    (81, "route|d|r|o", "size 13600 24800\ncost 4\n"),
    (81, "route|d|r|o|--tries|1", "size 13600 24800\ncost 4\n"),
    (
        81,
        "route|d|r|o|--tries|2",
        "size 16800 20000\ncost 3\ntaken rows 4 seed 2\n",
    ),
    (
        81,
        "route|d|r|o|--tries|3",
        "size 11200 29600\ncost 3\ntaken rows 6 seed 3\n",
    ),
    (
        81,
        "route|d|r|o|--tries|4",
        "size 21600 15200\ncost 0\ntaken rows 3 seed 4\n",
    ),
    // Behind the last the list begins anew: 3 rows come again, and the first of the equal ones is taken.
    (
        81,
        "route|d|r|o|--tries|64",
        "size 21600 15200\ncost 0\ntaken rows 3 seed 4\n",
    ),
    (
        81,
        "route|--tries=4|d|r|o|--seed|18446744073709551615",
        "size 21600 15200\ncost 0\ntaken rows 3 seed 2\n",
    ),
    // Rows that are asked for stay, and nothing is annealed: all are equal.
    (
        81,
        "route|d|r|o|--rows|2|--tries|5",
        "size 32800 10400\ncost 1\ntaken rows 2 seed 1\n",
    ),
    // 2 rows or 1: 6 * 104 and 11 * 56, 6 * 104 and 12 * 56, 7 * 104 and 13 * 56, which are equal.
    (
        11,
        "route|d|r|o|--tries|2",
        "size 8800 5600\ncost 0\ntaken rows 1 seed 2\n",
    ),
    (
        12,
        "route|d|r|o|--tries|2",
        "size 4800 10400\ncost 0\ntaken rows 2 seed 1\n",
    ),
    (
        13,
        "route|d|r|o|--tries|2",
        "size 5600 10400\ncost 1\ntaken rows 2 seed 1\n",
    ),
    (
        1,
        "route|d|r|o|--tries|64",
        "size 800 5600\ncost 0\ntaken rows 1 seed 1\n",
    ),
    (
        0,
        "route|d|r|o|--tries|2",
        "size 0 1600\ncost 0\ntaken rows 1 seed 1\n",
    ),
];

// Whether the summary that these words print of so many inverters ends so.
fn is_taken(alloc: Global, count: u32, words: &str, end: &str) -> Result<bool, AllocError> {
    let modules = if count == 0 { "" } else { INVERTER };
    let calls = inverters(alloc, count)?;
    let mut shelf = shelf_of(alloc, RULES, modules, calls.as_str())?;
    let lines = lines_of(alloc, words, &mut shelf)?;
    Ok(lines.as_slice().ends_with(end.as_bytes()))
}

#[test]
fn the_first_of_least_estimate_is_taken(rt: HostRuntime) -> Result<(), Fail> {
    for (count, words, end) in TAKEN {
        assert!(rt;
            is_taken(rt.alloc(), *count, words, end)?,
            "{count} {words}"
        );
    }
    Ok(())
}

// The rules of a short annealing.
fn annealing(alloc: Global) -> Result<String, AllocError> {
    rules_with(
        alloc,
        "temperature = 1000\nstages = 0",
        "temperature = 20\nstages = 12",
    )
}

// A shelf with a design of so many instances that is made from this seed, and is annealed.
fn annealed_shelf(alloc: Global, seed: u64, instances: u32) -> Result<MemShelf, AllocError>
    requires some { 1 ≤ instances }
    requires few { instances ≤ 20000 }
{
    let sample = sample_rules(alloc)?;
    let design = make_design(alloc, &sample, seed, instances)?;
    let rules = annealing(alloc)?;
    shelf_with_bytes(alloc, rules.as_str(), design.as_slice())
}

// Whether a run of several tries with these words, which wrote `o` and ended with this line, gave what one try with these rows and this seed gives.
fn is_alone(
    alloc: Global,
    shelf: &mut MemShelf,
    lines: &[u8],
    rows: u32,
    seed: u64,
) -> Result<bool, AllocError> {
    let line = format!(in alloc; "taken rows {rows} seed {seed}\n")?;
    if !lines.ends_with(line.as_bytes()) {
        return Ok(false);
    }
    let words = format!(in alloc; "route|d|r|c|--rows|{rows}|--seed|{seed}")?;
    let alone = lines_of(alloc, words.as_str(), shelf)?;
    let front = lines.len().saturating_sub(line.len());
    Ok(shelf.get("o") == shelf.get("c") && lines.get(..front) == Some(alone.as_slice()))
}

/// With rows that are asked for the seeds alone differ, and what is taken is what its seed gives alone.
#[test]
fn tries_in_as_many_rows(rt: HostRuntime) -> Result<(), Fail> {
    let alloc = rt.alloc();
    let mut shelf = annealed_shelf(alloc, 7, 60)?;
    let lines = lines_of(alloc, "route|d|r|o|--rows|3|--seed|7|--tries|4", &mut shelf)?;
    let mut found = 0u32;
    for seed in 7..11u64 {
        if is_alone(alloc, &mut shelf, lines.as_slice(), 3, seed)? {
            found = found.saturating_add(1);
        }
    }
    assert!(rt; found == 1);
    assert!(rt; is_ended(alloc, CHECK, &mut shelf, 0, "findings 0\n")?);
    Ok(())
}

/// A made design is tried as one of a file.
#[test]
fn tries_of_a_made_design(rt: HostRuntime) -> Result<(), Fail> {
    let alloc = rt.alloc();
    let mut shelf = annealed_shelf(alloc, 7, 60)?;
    let made = lines_of(alloc, "make|7|60|r|o|--tries|4", &mut shelf)?;
    let routed = lines_of(alloc, "route|d|r|c|--seed|7|--tries|4", &mut shelf)?;
    assert!(rt; made.len() > 0);
    assert!(rt; made.as_slice() == routed.as_slice());
    assert!(rt; shelf.get("o") == shelf.get("c"));
    Ok(())
}

// The sample rules with these stages and moves.
fn rules_of(alloc: Global, stages: u32, moves: u32) -> Result<String, AllocError> {
    let with = format!(in alloc; "stages = {stages}\nmoves = {moves}")?;
    rules_with(alloc, "stages = 0\nmoves = 4", with.as_str())
}

/// The changes of all tries together are 50,000,000 at most.
#[test]
fn the_limit_of_moves_in_tries(rt: HostRuntime) -> Result<(), Fail> {
    let alloc = rt.alloc();
    let most = rules_of(alloc, 1000, 1000)?;
    let mut shelf = shelf_of(alloc, most.as_str(), INVERTER, "u1 INV n1;\n")?;
    assert!(rt; is_done(alloc, "route|d|r|o|--tries|50", &mut shelf)?);
    let line = "limit Moves 51000000\n";
    assert!(rt; is_ended(alloc, "route|d|r|c|--tries|51", &mut shelf, 6, line)?);
    // 19 * 739 * 1187 * 3
    let above = rules_of(alloc, 19, 739)?;
    let calls = inverters(alloc, 1187)?;
    let mut shelf = shelf_of(alloc, above.as_str(), INVERTER, calls.as_str())?;
    let line = "limit Moves 50000001\n";
    assert!(rt; is_refused_in(alloc, "route|d|r|o|--tries|3", &mut shelf, 6, line)?);
    Ok(())
}

// A shelf with the design of one cell of this width, in units.
fn shelf_of_wide(alloc: Global, width: u32) -> Result<MemShelf, AllocError> {
    let text = wide(alloc, width)?;
    shelf_with(alloc, RULES, text.as_str())
}

/// The limits of the layout are judged of the try that is taken. One that the limit of the grid refuses has no estimate: where none has one the first is taken, 500,000 columns in 318 channels;
/// and of 43,000 columns in 94 channels or in 82 the second.
#[test]
fn tries_of_a_layout_that_is_large(rt: HostRuntime) -> Result<(), Fail> {
    let alloc = rt.alloc();
    let mut shelf = shelf_of_wide(alloc, 4_000_000)?;
    let line = "limit Grid 159000000\n";
    assert!(rt; is_refused_in(alloc, "route|d|r|o", &mut shelf, 6, line)?);
    assert!(rt; is_refused_in(alloc, "route|d|r|o|--tries|7", &mut shelf, 6, line)?);
    let mut shelf = shelf_of_wide(alloc, 344_000)?;
    let line = "limit Grid 4042000\n";
    assert!(rt; is_refused_in(alloc, "route|d|r|o", &mut shelf, 6, line)?);
    let lines = lines_of(alloc, "route|d|r|o|--tries|2", &mut shelf)?;
    assert!(rt;
        lines
            .as_slice()
            .ends_with("taken rows 81 seed 2\n".as_bytes())
    );
    Ok(())
}

/// Whether these words are no command.
fn is_usage(alloc: Global, text: &str) -> Result<bool, AllocError> {
    let mut shelf = inverter_shelf(alloc)?;
    is_refused_in(alloc, text, &mut shelf, 2, "usage\n")
}

/// Words that are no command, one such in a line.
const NO_COMMANDS: &str = "\
route|d|r|o|--tries\n\
route|d|r|o|--tries|0\n\
route|d|r|o|--tries|65\n\
route|d|r|o|--tries|-1\n\
route|d|r|o|--tries|+1\n\
route|d|r|o|--tries|x\n\
route|d|r|o|--tries|\n\
route|d|r|o|--tries|000000000000000000001\n\
route|d|r|o|--tries|2|--tries|2\n\
make|1|2|r|o|--tries|0\n\
make|1|2|r|o|--tries|65\n\
check|d|r|o|--tries|2";

#[test]
fn words_of_no_tries(rt: HostRuntime) -> Result<(), Fail> {
    for text in NO_COMMANDS.split('\n') {
        assert!(rt; is_usage(rt.alloc(), text)?, "{text}");
    }
    Ok(())
}
