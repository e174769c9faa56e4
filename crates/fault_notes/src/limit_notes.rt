//! Notes on limits that are passed.

use crate::naming::{FileOf, tries_of, wants_part, wants_ports, wants_rows};
use crate::reached::Reached;
use command_ends::Limited;
use input_notes::rules_again;
use layout_picture::MOST_SHOWN;
use limits::{
    MOST_CHANGES, MOST_COLUMNS, MOST_DESIGN_BYTES, MOST_INSTANCES, MOST_LAYOUT_BYTES, MOST_PINS,
    MOST_RULES_BYTES, MOST_SIZE,
};
use std::alloc::{AllocError, Global};
use tech_rules::Key;
use text_places::{Told, place_of_key};

// A file that is too long.
fn too_long(alloc: Global, most: u64) -> Result<Told, AllocError> {
    Ok(Told::whole(format!(in alloc;
        "the file has more than {most} bytes, the most that it may have"
    )?))
}

// That ports are among what is counted, if they are.
fn with_ports(reached: &Reached<'_>) -> &'static str {
    if wants_ports(reached) {
        ", those of ports (--ports) among them"
    } else {
        ""
    }
}

// Too many instances or pins.
fn too_many(
    alloc: Global,
    reached: &Reached<'_>,
    what: &str,
    number: u64,
    most: usize,
) -> Result<Told, AllocError> {
    let ports = with_ports(reached);
    Ok(Told::whole(format!(in alloc;
        "the design has {number} {what}{ports}; {most} at most may be, so split it"
    )?))
}

// The tries among the factors of a number of changes, if there are several.
fn tries_factor(alloc: Global, tries: u32) -> Result<String, AllocError> {
    if tries == 1 {
        return Ok(String::new(alloc));
    }
    format!(in alloc; " * {tries} tries")
}

// Too many changes of annealing.
fn too_many_changes(alloc: Global, reached: &Reached<'_>, number: u64) -> Result<Told, AllocError> {
    let text = reached.rules.unwrap_or(&[]);
    let place = place_of_key(text, Key::AnnealMoves);
    let Some(rules) = rules_again(alloc, reached.read()) else {
        return Ok(Told::whole(format!(in alloc;
            "annealing would try {number} changes; {MOST_CHANGES} at most may be"
        )?));
    };
    let stages = rules.annealing.stages;
    let moves = rules.annealing.moves;
    let tries = tries_of(reached);
    let lasting = u64::from(stages).saturating_mul(u64::from(tries));
    let each = lasting.saturating_mul(u64::from(moves));
    let instances = number.checked_div(each).unwrap_or(0);
    let others = lasting.saturating_mul(instances);
    let most = MOST_CHANGES.checked_div(others).unwrap_or(0);
    let many = tries_factor(alloc, tries)?;
    let what = format!(in alloc;
        "annealing would try {number} changes (anneal.stages {stages} * anneal.moves {moves} * {instances} instances{many}); {MOST_CHANGES} at most may be, as with anneal.moves {most}"
    )?;
    Ok(Told::in_line(place, what))
}

// A layout with too many columns.
fn too_many_columns(alloc: Global, reached: &Reached<'_>, number: u64) -> Result<Told, AllocError> {
    let cure = if wants_rows(reached) {
        "fewer rows (--rows) or fewer instances have less"
    } else {
        "fewer rows than are chosen by themselves (--rows K) have less"
    };
    Ok(Told::whole(format!(in alloc;
        "all channels together have {number} columns; {MOST_COLUMNS} at most may be: {cure}"
    )?))
}

// A layout that is too wide or too high.
fn too_large(
    alloc: Global,
    reached: &Reached<'_>,
    side: &str,
    cure: &str,
    number: u64,
) -> Result<Told, AllocError> {
    let centi = match rules_again(alloc, reached.read()) {
        Some(rules) => rules.grid.centi,
        None => 0,
    };
    Ok(Told::whole(format!(in alloc;
        "the layout would be {number} centimicrons {side}; {MOST_SIZE} at most may be: {cure} (--rows K), or a smaller grid.centi, which is {centi}"
    )?))
}

// A picture with too many shapes.
fn too_many_shapes(alloc: Global, reached: &Reached<'_>, number: u64) -> Result<Told, AllocError> {
    let cure = if wants_part(reached) {
        "a smaller part (--box X0,Y0,X1,Y1) has less"
    } else {
        "--box X0,Y0,X1,Y1 shows a part of the layout"
    };
    Ok(Told::whole(format!(in alloc;
        "the picture would show {number} shapes; {MOST_SHOWN} at most may be: {cure}"
    )?))
}

/// Which file passes a limit, or makes the layout pass it.
pub(crate) fn file_of_limit(what: Limited) -> FileOf {
    match what {
        Limited::Rules | Limited::Moves => FileOf::Rules,
        Limited::Cif | Limited::Picture => FileOf::Layout,
        Limited::Blif => FileOf::Netlist,
        Limited::Cells => FileOf::Cells,
        _ => FileOf::Design,
    }
}

/// What passes a limit, and what would cure it.
pub(crate) fn told_of_limit(
    alloc: Global,
    reached: &Reached<'_>,
    what: Limited,
    number: u64,
) -> Result<Told, AllocError> {
    match what {
        Limited::Rules => too_long(alloc, MOST_RULES_BYTES),
        Limited::Design | Limited::Blif | Limited::Cells => too_long(alloc, MOST_DESIGN_BYTES),
        Limited::Cif => too_long(alloc, MOST_LAYOUT_BYTES),
        Limited::Instances => too_many(alloc, reached, "instances", number, MOST_INSTANCES),
        Limited::Pins => too_many(alloc, reached, "pins", number, MOST_PINS),
        Limited::Moves => too_many_changes(alloc, reached, number),
        Limited::Grid => too_many_columns(alloc, reached, number),
        Limited::Width => too_large(alloc, reached, "wide", "more rows", number),
        Limited::Height => too_large(alloc, reached, "high", "fewer rows", number),
        Limited::Picture => too_many_shapes(alloc, reached, number),
    }
}
