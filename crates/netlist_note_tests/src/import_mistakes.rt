//! Netlists that do not fit their cells, and the notes on them.

use crate::support::{first_line, import_notes};
use blif_reader::read_blif;
use command_ends::{Refusal, Stop};
use netlist_import::{ImportFault, parent_of};
use std::alloc::{AllocError, Global};
use std::test::Fail;
use yal_reader::{Numbers, read_yal};

/// A cell, and a module that is none.
const CELLS: &[u8] =
    b"MODULE INV; TYPE STANDARD;\nDIMENSIONS 0 0 1.6 0 1.6 4 0 4;\nIOLIST;\nA I 0.4 0 3 POLY;\nY O 1.2 4 3 POLY;\nvdd PWR;\ngnd GND;\nENDIOLIST;\nENDMODULE;\nMODULE frame; TYPE PAD;\nENDMODULE;\n";

/// The netlist, and the note.
const MISTAKES: &[(&[u8], &str)] = &[
    // The model and its terminals.
    (
        b".model INV\n.end\n",
        "m.blif:1:8: the model is named INV, as is the module at line 1 of CELLS; another name is wanted, as rename -top of yosys gives one [import Model INV 7]",
    ),
    (
        b".model top\n.outputs endIOlist\n.end\n",
        "m.blif:2:10: a terminal named endIOlist would end the IOLIST of the PARENT in YAL; another name is wanted [import Keyword endIOlist 20]",
    ),
    (
        b".model top\n.inputs a a\n.end\n",
        "m.blif:2:11: terminal a stands at line 2 too; each terminal of the model stands once [import Net a 21]",
    ),
    (
        b".model top\n.inputs a\n.outputs y\n.names n y\n1 1\n.names a n\n1 1\n.end\n",
        "m.blif:3:10: terminal y is one net with terminal a of line 2, by .names; a net has one terminal at most, so a buffer between both is wanted, as insbuf of yosys puts one in [import Net y 30]",
    ),
    (
        b".model top\n.inputs VDD\n.end\n",
        "m.blif:2:9: VDD is the word that power terminals of cells get; a net wants another name [import Power VDD 19]",
    ),
    (
        b".model top\n.outputs y\n.names y\n.end\n",
        "m.blif:2:10: y is constant, and no gate drives it; a cell that drives it is wanted, as hilomap of yosys puts one in [import Constant y 20]",
    ),
    // Names of gates.
    (
        b".model top\n.gate INV A=a Y=b\n.cname EndNetwork\n.end\n",
        "m.blif:3:8: a gate named EndNetwork would end the NETWORK of the PARENT in YAL; another name is wanted [import Keyword EndNetwork 36]",
    ),
    (
        b".model top\n.gate INV A=a Y=b\n.cname g1\n.gate INV A=b Y=c\n.end\n",
        "m.blif:4:7: this gate has no .cname, and so is named g1 by its number, as the gate at line 2 is; each needs a name of its own [import Name g1 45]",
    ),
    (
        b".model top\n.gate INV A=a Y=b\n.cname u\n.gate INV A=b Y=c\n.cname u\n.end\n",
        "m.blif:5:8: the gate at line 2 is named u already; each needs a name of its own [import Name u 63]",
    ),
    // Gates and their pins.
    (
        b".model top\n.gate frame A=a Y=b\n.end\n",
        "m.blif:2:7: frame is of TYPE PAD in CELLS; gates are of modules of TYPE STANDARD [import Cell frame 17]",
    ),
    (
        b".model top\n.gate inv A=a Y=b\n.end\n",
        "m.blif:2:7: no module of CELLS has the name inv; did you mean INV? [import Cell inv 17]",
    ),
    (
        b".model top\n.gate XOR2 A=a Y=b\n.end\n",
        "m.blif:2:7: no module of CELLS has the name XOR2 [import Cell XOR2 17]",
    ),
    (
        b".model top\n.gate $_NOT_ A=a Y=b\n.end\n",
        "m.blif:2:7: $_NOT_ is no module of CELLS but a cell of yosys itself; dfflibmap and abc -liberty map such to cells of a library [import Cell $_NOT_ 17]",
    ),
    (
        b".model top\n.gate INV A=a Y=b\n.gate INV A=b Z=c\n.end\n",
        "m.blif:3:15: INV has no terminal Z; its terminals are A, Y [import Pin Z 43]",
    ),
    (
        b".model top\n.gate INV a=a Y=b\n.end\n",
        "m.blif:2:11: INV has no terminal a; its terminals are A, Y; did you mean A? [import Pin a 21]",
    ),
    (
        b".model top\n.gate INV A=a Y=b vdd=c\n.end\n",
        "m.blif:2:19: vdd is a power terminal of INV, which gets its word by itself; leave this pin out [import Pin vdd 29]",
    ),
    (
        b".model top\n.gate INV A=a A=b\n.end\n",
        "m.blif:2:15: this gate of INV has A=a already; each terminal has one pin [import Twice A 25]",
    ),
    (
        b".model top\n.gate INV A=a\n.end\n",
        "m.blif:2:7: terminal Y of INV has no pin in this gate; Y=NET is wanted, with a net of its own where nothing else is joined to it [import Missing Y 17]",
    ),
    // Nets at pins.
    (
        b".model top\n.gate INV A=a Y=b\n.names GND b\n1 1\n.end\n",
        "m.blif:2:15: b is one net with GND by .names, the word that power terminals of cells get; a net wants another name [import Power b 25]",
    ),
    (
        b".model top\n.gate INV A=a Y=b\n.names $false\n.names $false a\n1 1\n.end\n",
        "m.blif:2:11: a is one net with $false by .names, a constant that no gate drives; a cell that drives it is wanted, as hilomap of yosys puts one in [import Constant a 21]",
    ),
];

// The notes on a netlist that does not fit these cells, the numbers of which have up to one decimal.
fn notes_on(alloc: Global, netlist: &[u8], cells: &[u8]) -> Result<String, Fail> {
    let file = read_blif(alloc, netlist)?;
    let modules = read_yal(alloc, cells, Numbers::Decimal(1))?;
    match parent_of(alloc, &file, &modules) {
        Ok(_) => Ok(String::from_str(alloc, "a design")?),
        Err(ImportFault::Memory) => Err(Fail::from(AllocError)),
        Err(ImportFault::Bad(flaw)) => {
            let stop = Stop::Refused(Refusal::Import(flaw));
            Ok(import_notes(alloc, 1, Some(netlist), Some(cells), &stop)?)
        }
    }
}

#[test]
fn netlists_that_do_not_fit_have_notes(rt: HostRuntime) -> Result<(), Fail> {
    for (netlist, note) in MISTAKES {
        let notes = notes_on(rt.alloc(), *netlist, CELLS)?;
        assert_eq!(rt; first_line(notes.as_str()), *note);
    }
    Ok(())
}

#[test]
fn a_parent_among_the_cells_is_shown_there(rt: HostRuntime) -> Result<(), Fail> {
    let notes = notes_on(
        rt.alloc(),
        b".model top\n.end\n",
        b"MODULE p;\nTYPE PARENT;\nENDMODULE;\n",
    )?;
    assert_eq!(rt;
        notes.as_str(),
        "\
c.yal:2:6: p is of TYPE PARENT, which CELLS may not have, since the netlist becomes the PARENT; leave this module out [import Parent p 7]
TYPE PARENT;
     ^
"
    );
    Ok(())
}

/// A cell of ten inputs, of which eight are told.
#[test]
fn many_terminals_are_cut(rt: HostRuntime) -> Result<(), Fail> {
    let notes = notes_on(
        rt.alloc(),
        b".model top\n.gate W out=x\n.end\n",
        b"MODULE W; TYPE STANDARD;\nIOLIST;\nA I 0 0 3 P;\nB I 0 0 3 P;\nC I 0 0 3 P;\nD I 0 0 3 P;\nE I 0 0 3 P;\nF I 0 0 3 P;\nG I 0 0 3 P;\nH I 0 0 3 P;\nI I 0 0 3 P;\nJ I 0 0 3 P;\nENDIOLIST;\nENDMODULE;\nMODULE E; TYPE STANDARD;\nENDMODULE;\n",
    )?;
    assert_eq!(rt;
        first_line(notes.as_str()),
        "m.blif:2:9: W has no terminal out; its terminals are A, B, C, D, E, F, G, H .. [import Pin out 19]"
    );
    let notes = notes_on(
        rt.alloc(),
        b".model top\n.gate E A=x\n.end\n",
        b"MODULE E; TYPE STANDARD;\nENDMODULE;\n",
    )?;
    assert_eq!(rt;
        first_line(notes.as_str()),
        "m.blif:2:9: E has no terminal A, and no other for gates [import Pin A 19]"
    );
    Ok(())
}
