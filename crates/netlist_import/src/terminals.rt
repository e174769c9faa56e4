//! The terminals of the model, as lines of a PARENT.

ghost use Rattle.list_facts.specs.Texts.{texts};
ghost use Rattle.netlist_import.specs.Faults.{Answers};
ghost use Rattle.netlist_import.specs.Nets.{all_seen};
ghost use Rattle.netlist_import.specs.Parent.{fitting_terminal, fitting_terminals, line_of, lines_of};
ghost use Rattle.std.specs.Prelude.{◌≡◌, ◌++◌, map, IfOk, OnOk};
ghost use Rattle.yal_reader.specs.Words.{spells};

use crate::calls::check_net;
use crate::cells::is_among;
use crate::fault::{ImportFault, ImportKind, refused};
use crate::nets::{Renaming, renamed};
use blif_reader::{BlifFile, BlifWord};
use geom_core::Items;
use std::alloc::{AllocError, Global};
use yal_reader::{Flow, Line};

/// Whether a word spells a keyword of YAL.
pub(crate) fn spells(keyword: &[u8], text: &[u8]) -> bool
    ensures { result ≡ spells keyword.now text.now }
{
    text.eq_ignore_ascii_case(keyword)
}

/// Tests one terminal of the model, before which these words were taken.
#[tactic(auto, unfolding(crate::specs::Parent::fitting_terminal))]
fn check_terminal(
    alloc: Global,
    renamings: &[Renaming<'_>],
    undriven: &[&[u8]],
    seen: &[&[u8]],
    terminal: &BlifWord,
) -> Result<(), ImportFault>
    ensures { Answers (λ _. terminal.now.text) result (fitting_terminal (all_seen renamings.now) (texts undriven.now) (texts seen.now) terminal.now) }
{
    let word = terminal.text.items();
    if spells(b"ENDIOLIST", word) {
        return Err(refused(alloc, ImportKind::Keyword, word, terminal.at));
    }
    if is_among(seen, word) {
        return Err(refused(alloc, ImportKind::Net, word, terminal.at));
    }
    if renamed(renamings, word) != word {
        return Err(refused(alloc, ImportKind::Net, word, terminal.at));
    }
    check_net(alloc, undriven, word, word, terminal.at)
}

/// Tests terminals of the model, and puts their words behind those that were taken.
pub(crate) fn check_terminals<'a>(
    alloc: Global,
    renamings: &[Renaming<'_>],
    undriven: &[&[u8]],
    seen: Vec<&'a [u8]>,
    terminals: &'a [BlifWord],
) -> Result<Vec<&'a [u8]>, ImportFault>
    ensures { Answers (λ seen. texts seen.items) result (fitting_terminals (all_seen renamings.entry.now) (texts undriven.entry.now) (texts seen.entry.items) terminals.entry.now) }
{
    let mut seen = seen;
    for terminal in terminals {
        check_terminal(alloc, renamings, undriven, seen.as_slice(), terminal)?;
        seen.push(terminal.text.items())?;
    }
    Ok(seen)
}

/// Puts the lines of terminals behind others. The one error is want of memory.
fn push_lines(
    alloc: Global,
    lines: &mut Vec<Line>,
    flow: Flow,
    terminals: &[BlifWord],
) -> Result<(), AllocError>
    ensures { OnOk result (lines.new.items ≡ lines.old.items ++ map (line_of flow) terminals.now) }
{
    for terminal in terminals {
        let name = terminal.text.copied(alloc)?;
        lines.push(Line {
            name,
            flow,
            spot: None,
        })?;
    }
    Ok(())
}

/// The lines of the model's inputs and then of its outputs. The one error is want of memory.
pub(crate) fn lines_of(alloc: Global, netlist: &BlifFile) -> Result<Items<Line>, AllocError>
    ensures { IfOk result (λ lines. lines ≡ lines_of netlist.now) }
{
    let mut lines = Vec::new(alloc);
    push_lines(alloc, &mut lines, Flow::PI, netlist.inputs.items())?;
    push_lines(alloc, &mut lines, Flow::PO, netlist.outputs.items())?;
    Ok(Items::new(lines))
}
