//! PARENTs that are made of netlists, and their texts.

use blif_reader::read_blif;
use netlist_import::{ImportFault, parent_of};
use samples::{COUNTER, COUNTER_CELLS, COUNTER_PARENT};
use shelf_io::MemSink;
use std::alloc::{AllocError, Global};
use std::test::Fail;
use yal_reader::{Module, Numbers, YalFile, read_yal};
use yal_writer::print_parent;

/// A cell, a module that is none, and nothing else.
const CELLS: &[u8] =
    b"MODULE INV; TYPE STANDARD; DIMENSIONS 0 0 16 0 16 40 0 40;\nIOLIST; A I 4 0 3 POLY; Y O 12 40 3 POLY; vdd PWR; gnd GND; ENDIOLIST; ENDMODULE;\nMODULE frame; TYPE PAD; ENDMODULE;";

/// The text of a PARENT, or what it can't be put for.
fn printed(alloc: Global, parent: &Module) -> Result<MemSink, Fail> {
    let mut sink = MemSink::new(alloc)?;
    print_parent(&mut sink, parent)?;
    Ok(sink)
}

/// Whether a netlist over cells becomes a PARENT of this text, or is refused with this kind, name and place.
fn is_answer(alloc: Global, cells: &YalFile, blif: &[u8], want: &[u8]) -> Result<bool, Fail> {
    let netlist = read_blif(alloc, blif)?;
    match parent_of(alloc, &netlist, cells) {
        Ok(parent) => Ok(printed(alloc, &parent)?.bytes() == want),
        Err(ImportFault::Bad(flaw)) => {
            let kind = flaw.kind;
            let at = flaw.at;
            let mut text = format!(in alloc; "{kind:?} ")?;
            for byte in flaw.name.items() {
                text.push(char::from(*byte))?;
            }
            write!(text, " {at}")?;
            Ok(text.as_bytes() == want)
        }
        Err(ImportFault::Memory) => Err(Fail::from(AllocError)),
    }
}

/// Lines of a netlist, behind `.model top` and before `.end`, and the PARENT's text or the refusal.
const NETLISTS: [(&[u8], &[u8]); 16] = [
    (
        b".model top\n.inputs a\n.outputs y\n.gate INV Y=n A=a\n.gate INV A=n Y=y\n.end\n",
        b"\nMODULE top;\nTYPE PARENT;\nIOLIST;\na PI;\ny PO;\nENDIOLIST;\nNETWORK;\ng0 INV a n VDD GND;\ng1 INV n y VDD GND;\nENDNETWORK;\nENDMODULE;\n",
    ),
    (
        b".model top\n.inputs a\n.outputs y\n.gate INV A=a Y=n\n.cname u\n.gate INV A=m Y=k\n.names n y\n1 1\n.names m n\n1 1\n.names $false\n.end\n",
        b"\nMODULE top;\nTYPE PARENT;\nIOLIST;\na PI;\ny PO;\nENDIOLIST;\nNETWORK;\nu INV a y VDD GND;\ng1 INV y k VDD GND;\nENDNETWORK;\nENDMODULE;\n",
    ),
    (b".model INV\n.end\n", b"Model INV 7"),
    (
        b".model top\n.outputs endIOlist\n.end\n",
        b"Keyword endIOlist 20",
    ),
    (b".model top\n.inputs a a\n.end\n", b"Net a 21"),
    (
        b".model top\n.inputs a\n.outputs y\n.names a y\n1 1\n.end\n",
        b"Net y 30",
    ),
    (b".model top\n.inputs VDD\n.end\n", b"Power VDD 19"),
    (
        b".model top\n.outputs y\n.names y\n.end\n",
        b"Constant y 20",
    ),
    (
        b".model top\n.gate INV A=a Y=b\n.cname EndNetwork\n.end\n",
        b"Keyword EndNetwork 36",
    ),
    (
        b".model top\n.gate INV A=a Y=b\n.cname g1\n.gate INV A=b Y=c\n.end\n",
        b"Name g1 45",
    ),
    (b".model top\n.gate frame A=a Y=b\n.end\n", b"Cell frame 17"),
    (
        b".model top\n.gate INV A=a Y=b vdd=c\n.end\n",
        b"Pin vdd 29",
    ),
    (b".model top\n.gate INV A=a A=b\n.end\n", b"Twice A 25"),
    (b".model top\n.gate INV A=a\n.end\n", b"Missing Y 17"),
    (
        b".model top\n.gate INV A=a Y=b\n.names GND b\n1 1\n.end\n",
        b"Power b 25",
    ),
    (
        b".model top\n.gate INV A=a Y=b\n.names $false\n.names $false a\n1 1\n.end\n",
        b"Constant a 21",
    ),
];

#[test]
fn netlists_become_parents(rt: HostRuntime) -> Result<(), Fail> {
    let cells = read_yal(rt.alloc(), CELLS, Numbers::Whole)?;
    for (blif, want) in NETLISTS {
        assert!(rt; is_answer(rt.alloc(), &cells, blif, want)?);
    }
    Ok(())
}

#[test]
fn cells_have_no_parent(rt: HostRuntime) -> Result<(), Fail> {
    let cells = read_yal(
        rt.alloc(),
        b"MODULE p; TYPE PARENT; ENDMODULE;",
        Numbers::Whole,
    )?;
    assert!(rt; is_answer(rt.alloc(), &cells, b".model top\n.end\n", b"Parent p 7")?);
    Ok(())
}

#[test]
fn a_counter_from_yosys_becomes_a_parent(rt: HostRuntime) -> Result<(), Fail> {
    let cells = read_yal(rt.alloc(), COUNTER_CELLS, Numbers::Whole)?;
    assert!(rt; is_answer(rt.alloc(), &cells, COUNTER, COUNTER_PARENT)?);
    Ok(())
}
