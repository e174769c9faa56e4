//! Texts that are no netlist in BLIF, and the notes on them.

use crate::support::{first_line, import_notes};
use blif_reader::{BlifFault, read_blif};
use command_ends::{Refusal, Stop};
use std::alloc::{AllocError, Global};
use std::test::Fail;

/// The text, and the note.
const MISTAKES: &[(&[u8], &str)] = &[
    // Bytes.
    (
        b".model m;\n",
        "m.blif:1:9: a ; may stand in comments alone, since it ends statements in YAL; a name without it is wanted [blif Byte 8]",
    ),
    (
        b".model a/*b\n",
        "m.blif:1:9: a / before a * may stand in comments alone, since both begin a comment in YAL; a comment of a netlist stands behind a # [blif Byte 8]",
    ),
    (
        b".model m\n.inputs a\x07\n",
        "m.blif:2:10: byte 7 is no character of ASCII that shows; outside of its comments a netlist has these alone [blif Byte 18]",
    ),
    // Files of another kind.
    (
        b"MODULE m;\n",
        "m.blif: this looks like a design or cells in YAL, and a netlist in BLIF is wanted; the words are import BLIF CELLS OUT [blif Byte 8]",
    ),
    (
        b"\nmodule top(a);\nendmodule\n",
        "m.blif: this looks like Verilog, and a netlist in BLIF is wanted, as yosys writes it by write_blif -gates [blif Byte 14]",
    ),
    // Words.
    (
        b".inputs a\n",
        "m.blif:1:1: .model is wanted here, not .inputs: a netlist begins .model NAME [blif Word 0]",
    ),
    (
        b"# m\n.mode m\n",
        "m.blif:2:1: .model is wanted here, not .mode: a netlist begins .model NAME; did you mean .model? [blif Word 4]",
    ),
    (
        b".model # m\n.end\n",
        "m.blif:1:11: .model wants the name of the model behind it, in the same line [blif Word 10]",
    ),
    (
        b".model m n\n",
        "m.blif:1:10: n is one word too many; .model has one word behind it [blif Word 9]",
    ),
    (
        b".model m\n.end x\n",
        "m.blif:2:6: x stands behind .end, where nothing may [blif Word 14]",
    ),
    (
        b".model m\n.end\nx\n",
        "m.blif:3:1: x stands behind .end, where nothing may [blif Word 14]",
    ),
    (
        b".model m\n.inputs \\\n a\nb c\n.end\n",
        "m.blif:4:1: b begins no line; .inputs, .outputs, .gate, .cname, .names and .end do; a \\ is perhaps missing at the end of line 3 [blif Word 22]",
    ),
    (
        b".model m\r\na b\r\n",
        "m.blif:2:1: a begins no line; .inputs, .outputs, .gate, .cname, .names and .end do [blif Word 10]",
    ),
    (
        b".model m\n.names a b\n1 1\n1 1\n",
        "m.blif:4:1: 1 begins one row too many; a table has one row at most, 1 for a constant net and 1 1 for two words that are one net [blif Word 24]",
    ),
    (
        b".model m\n.gate\n",
        "m.blif:2:6: .gate wants the name of its module behind it, in the same line [blif Word 14]",
    ),
    (
        b".model m\n.gate X A=a\n.cname\n",
        "m.blif:3:7: .cname wants the name of the gate behind it, in the same line [blif Word 27]",
    ),
    // The end.
    (
        b"",
        "m.blif: the file has no netlist, which begins .model NAME and ends .end [blif Ends 0]",
    ),
    (
        b".model m\n.inputs a",
        "m.blif:2:10: the text ends before .end, and is perhaps cut off [blif Ends 18]",
    ),
    // Directives.
    (
        b".model m\n.latch a b re c 2\n",
        "m.blif:2:1: .latch is no directive that is read; a netlist by write_blif -gates, all cells of which are in the library, has none such; dfflibmap of yosys maps flip-flops to cells [blif Directive 9]",
    ),
    (
        b".model m\n.subckt X A=a\n",
        "m.blif:2:1: .subckt is no directive that is read; a netlist by write_blif -gates, all cells of which are in the library, has none such; -gates writes .gate for cells, and flatten of yosys leaves no other modules [blif Directive 9]",
    ),
    (
        b".model m\n.input a\n",
        "m.blif:2:1: .input is no directive that is read; a netlist by write_blif -gates, all cells of which are in the library, has none such; did you mean .inputs? [blif Directive 9]",
    ),
    (
        b".model m\n.attr keep 1\n",
        "m.blif:2:1: .attr is no directive that is read; a netlist by write_blif -gates, all cells of which are in the library, has none such [blif Directive 9]",
    ),
    (
        b".model m\n.end\n.model n\n",
        "m.blif:3:1: a second model begins here, and the first at line 1; one alone may be: flatten of yosys makes one of all [blif Model 14]",
    ),
    (
        b".model m\n.cname u1\n",
        "m.blif:2:1: no gate stands in the line before this .cname, which gives that gate its name [blif Cname 9]",
    ),
    // Pins and tables.
    (
        b".model m\n.gate X A\n",
        "m.blif:2:9: A is no pin, since it lacks a = and its net; a pin of a gate is TERMINAL=NET, without blanks [blif Pin 17]",
    ),
    (
        b".model m\n.gate X =a\n",
        "m.blif:2:9: =a is no pin, since it lacks its terminal before the =; a pin of a gate is TERMINAL=NET, without blanks [blif Pin 17]",
    ),
    (
        b".model m\n.gate X A=\n",
        "m.blif:2:9: A= is no pin, since it lacks its net behind the =; a pin of a gate is TERMINAL=NET, without blanks [blif Pin 17]",
    ),
    (
        b".model m\n.names a b c\n11 1\n",
        "m.blif:2:1: .names of 3 words is logic, which abc -liberty of yosys maps to cells; one word may be, or two with the row 1 1 [blif Table 9]",
    ),
    (
        b".model m\n.names a b # an inverter\n0 1\n",
        "m.blif:2:1: the table of two words has the one row 1 1, which makes one net of them; another row is logic, which abc -liberty of yosys maps to cells [blif Table 9]",
    ),
    (
        b".model m\n.names a\n0\n",
        "m.blif:2:1: the table of a constant net has one row at most, which is 1 [blif Table 9]",
    ),
    (
        b".model m\n.names\n",
        "m.blif:2:1: .names wants words behind it: .names NET makes a net constant, and .names A B with the row 1 1 makes one net of two words [blif Table 9]",
    ),
];

// The notes on a text that is no netlist.
fn notes_on(alloc: Global, text: &[u8]) -> Result<String, AllocError> {
    match read_blif(alloc, text) {
        Ok(_) => String::from_str(alloc, "a netlist"),
        Err(BlifFault::Memory) => Err(AllocError),
        Err(BlifFault::Bad { kind, at }) => {
            let stop = Stop::Refused(Refusal::Blif(kind, at));
            import_notes(alloc, 0, Some(text), None, &stop)
        }
    }
}

#[test]
fn mistakes_in_a_netlist_have_notes(rt: HostRuntime) -> Result<(), Fail> {
    for (text, note) in MISTAKES {
        let notes = notes_on(rt.alloc(), *text)?;
        assert_eq!(rt; first_line(notes.as_str()), *note);
    }
    Ok(())
}

#[test]
fn the_line_follows_with_a_mark(rt: HostRuntime) -> Result<(), Fail> {
    let notes = notes_on(rt.alloc(), b".model m\n.gate X A=a B\n.end\n")?;
    assert_eq!(rt;
        notes.as_str(),
        "\
m.blif:2:13: B is no pin, since it lacks a = and its net; a pin of a gate is TERMINAL=NET, without blanks [blif Pin 21]
.gate X A=a B
            ^
"
    );
    Ok(())
}
