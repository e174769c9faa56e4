//! Channels that are routed by the left edges of their nets.

use crate::support::{TWO_JOINED, ended, is_ended, shelf_of};
use greedy_router::By;
use samples::{BUFFER, CELLS, RULES};
use shelf_io::MemSink;
use std::alloc::{AllocError, Global};
use std::test::Fail;

/// Two crossed nets in two rows: the channel between them has bottom 1, 2 and top 2, 1.
const CROSSED: &str = "u1 BUF b;\nu2 BUF a;\nu3 INV a;\nu4 INV b;\n";

#[test]
fn two_joined_cells_by_left_edges(rt: HostRuntime) -> Result<(), Fail> {
    let mut shelf = shelf_of(rt.alloc(), RULES, BUFFER, "u1 BUF n1;\nu2 BUF n1;\n")?;
    let summary =
        "cells 2\nnets 1\nrows 1\nfeeds 0\nchannel 0 tracks 0 extra 0 edge\nchannel 1 tracks 1 extra 0 edge\nsize 1600 6400\ncost 1\n";
    assert!(rt; is_ended(rt.alloc(), "route|d|r|o|--edge", &mut shelf, 0, summary)?);
    match shelf.get("o") {
        Some(text) => assert!(rt; text == TWO_JOINED.as_bytes()),
        None => assert!(rt; false),
    }
    Ok(())
}

/// A channel with a vertical constraint is routed by the style, beside two that have none.
#[test]
fn a_constrained_channel_by_the_style(rt: HostRuntime) -> Result<(), Fail> {
    let mut shelf = shelf_of(rt.alloc(), RULES, CELLS, CROSSED)?;
    let mut out = MemSink::new(rt.alloc())?;
    let done = ended(
        rt.alloc(),
        "route|d|r|o|--edge|--rows|2",
        &mut shelf,
        &mut out,
    )?;
    assert!(rt; done.status == 0 && done.kept.len() == 3);
    for (number, routed) in done.kept.as_slice().iter().enumerate() {
        let wanted = if number == 1 {
            (By::Greedy, 3, 3)
        } else {
            (By::Edge, 0, 2)
        };
        assert!(rt; routed.by == wanted.0);
        assert_eq!(rt; routed.wiring.tracks, wanted.1);
        assert_eq!(rt; routed.wiring.columns, wanted.2);
        assert!(rt; (number == 1) != routed.sweep.columns.is_empty());
    }
    Ok(())
}

/// Whether words are no command.
fn is_usage(alloc: Global, text: &str) -> Result<bool, AllocError> {
    let mut shelf = shelf_of(alloc, RULES, BUFFER, "u1 BUF n1;\nu2 BUF n1;\n")?;
    is_ended(alloc, text, &mut shelf, 2, "usage\n")
}

/// Words that are no command, one such in a line.
const NO_COMMANDS: &str = "\
route|d|r|o|--edge|--edge\n\
route|d|r|o|--edge=x\n\
route|d|r|o|--edge=true\n\
route|d|r|o|--edge|true\n\
check|d|r|o|--edge\n\
make|1|5|r|o|--edge";

#[test]
fn the_flag_is_given_once_and_bare(rt: HostRuntime) -> Result<(), Fail> {
    for words in NO_COMMANDS.split('\n') {
        assert!(rt; is_usage(rt.alloc(), words)?, "{words}");
    }
    Ok(())
}
