//! How far a job has come, as people are told.

use crate::support::{GATES, changed, noted, shelf_with, styled, words};
use commands::run;
use samples::RULES;
use shelf_io::{MemShelf, MemSink};
use std::alloc::{AllocError, Global};
use std::test::Fail;

/// A shelf with the gates, of whose nets one alone has two pins, both below, and the sample rules with so many stages.
fn shelf_of(alloc: Global, stages: u64) -> Result<MemShelf, AllocError> {
    let change = format!(in alloc; "stages = 0 => stages = {stages}")?;
    let rules = changed(alloc, RULES, change.as_str())?;
    let design = changed(alloc, GATES, "n2 n3 n4 => n2 n5 n4")?;
    shelf_with(alloc, rules.as_str(), design.as_str())
}

/// The words that route the gates in one row.
const PLAIN: &str = "route|my.yal|rules.toml|o.cif|--rows|1";

const WATCHED: &str = "route|my.yal|rules.toml|o.cif|--rows|1|--progress";

const QUIET: &str = "route|my.yal|rules.toml|o.cif|--rows|1|--progress|-q";

/// One net of two pins below the row: two pieces of wire across and one along, and two vias of three shapes each.
const LINES: &str = "\
annealing: stage 1 of 3
annealing: stage 2 of 3
annealing: stage 3 of 3
routing: channel 1 of 2
routing: channel 2 of 2
writing: 9 of 9 shapes of channels
";

/// Whether a line tells how far a job has come.
fn is_progress(line: &str) -> bool {
    line.starts_with("annealing: ")
        || line.starts_with("routing: ")
        || line.starts_with("writing: ")
}

/// How many lines tell how far a job has come.
fn progress_lines(text: &str) -> usize {
    text.split('\n').filter(|line| is_progress(line)).count()
}

#[test]
fn steps_are_told_where_that_is_wished_for(rt: HostRuntime) -> Result<(), Fail> {
    let alloc = rt.alloc();
    let watched = noted(alloc, WATCHED, &mut shelf_of(alloc, 3)?)?;
    let plain = noted(alloc, PLAIN, &mut shelf_of(alloc, 3)?)?;
    assert!(rt; watched.as_str().starts_with(LINES), "{watched}");
    let (_, rest) = watched
        .as_str()
        .split_once(" shapes of channels\n")
        .unwrap_or(("", ""));
    assert_eq!(rt; rest, plain.as_str());
    assert_eq!(rt; progress_lines(plain.as_str()), 0);
    // The net's pins stand two columns apart at first, and nearer in no order and under no mirroring.
    assert!(rt;
        plain
            .as_str()
            .ends_with("cost of the rows: 2, 2 before annealing\n"),
        "{plain}"
    );
    let quiet = noted(alloc, QUIET, &mut shelf_of(alloc, 3)?)?;
    assert_eq!(rt; quiet.as_str(), "");
    Ok(())
}

/// The same of two tries, of which the second is no better.
const TRIED: &str = "route|my.yal|rules.toml|o.cif|--rows|1|--progress|--tries|2";

const TRIED_LINES: &str = "\
annealing: stage 1 of 6
annealing: stage 2 of 6
annealing: stage 3 of 6
annealing: stage 4 of 6
annealing: stage 5 of 6
annealing: stage 6 of 6
routing: channel 1 of 2
routing: channel 2 of 2
writing: 9 of 9 shapes of channels
";

#[test]
fn the_stages_of_all_tries_are_told(rt: HostRuntime) -> Result<(), Fail> {
    let alloc = rt.alloc();
    let watched = noted(alloc, TRIED, &mut shelf_of(alloc, 3)?)?;
    assert!(rt; watched.as_str().starts_with(TRIED_LINES), "{watched}");
    assert!(rt;
        watched.as_str().ends_with(
            "cost of the rows: 2, 2 before annealing\ntaken of the tries: 1 rows, seed 1\n"
        ),
        "{watched}"
    );
    Ok(())
}

#[test]
fn there_are_at_most_a_hundred_lines(rt: HostRuntime) -> Result<(), Fail> {
    let alloc = rt.alloc();
    let watched = noted(alloc, WATCHED, &mut shelf_of(alloc, 1000)?)?;
    // 33 of the stages, two channels, and one line of shapes.
    assert_eq!(rt; progress_lines(watched.as_str()), 36);
    Ok(())
}

/// What becomes of a run whose sink for notes fails at this call: its status, its lines, its file, and its notes.
fn ended(alloc: Global, call: u64) -> Result<(u8, MemSink, MemShelf, MemSink), Fail> {
    let words = words(alloc, WATCHED)?;
    let mut shelf = shelf_of(alloc, 3)?;
    let mut out = MemSink::new(alloc)?;
    let mut notes = MemSink::new(alloc)?;
    notes.fail_at(call)?;
    let styles = styled(alloc)?;
    let ended = run(
        alloc,
        words.as_slice(),
        &mut shelf,
        &mut out,
        &mut notes,
        &styles,
    );
    Ok((ended.status, out, shelf, notes))
}

#[test]
fn nothing_follows_a_line_that_fails(rt: HostRuntime) -> Result<(), Fail> {
    let alloc = rt.alloc();
    let (status, out, shelf, _) = ended(alloc, 1000)?;
    assert_eq!(rt; status, 0);
    for call in 0..8 {
        let (other, lines, files, notes) = ended(alloc, call)?;
        assert_eq!(rt; other, 0);
        assert_eq!(rt; lines.bytes(), out.bytes());
        assert!(rt; files.get("o.cif") == shelf.get("o.cif"));
        let text = str::from_utf8(notes.bytes()).unwrap_or("no text");
        assert_eq!(rt; progress_lines(text) as u64, call.min(6));
    }
    Ok(())
}
