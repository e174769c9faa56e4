//! Texts of BLIF.

use blif_reader::{BlifFault, BlifFile, BlifWord, Gate, read_blif};
use std::alloc::{AllocError, Global};
use std::test::Fail;

/// Puts a word with its place, and a blank.
fn put_word(text: &mut String, word: &BlifWord) -> Result<(), AllocError> {
    for byte in word.text.items() {
        text.push(char::from(*byte))?;
    }
    write!(text, "@{} ", word.at)
}

/// Puts words with their places, and a semicolon.
fn put_words(text: &mut String, words: &[BlifWord]) -> Result<(), AllocError> {
    for word in words {
        put_word(text, word)?;
    }
    text.push_str("; ")
}

/// Puts a gate: its module's place and name, its own name, and its pins.
fn put_gate(text: &mut String, gate: &Gate) -> Result<(), AllocError> {
    write!(text, "{}:", gate.at)?;
    for byte in gate.module.items() {
        text.push(char::from(*byte))?;
    }
    text.push_str(" ")?;
    if let Some(name) = &gate.name {
        put_word(text, name)?;
    }
    for pin in gate.pins.items() {
        for byte in pin.terminal.items() {
            text.push(char::from(*byte))?;
        }
        text.push_str("=")?;
        for byte in pin.net.items() {
            text.push(char::from(*byte))?;
        }
        write!(text, "@{} ", pin.at)?;
    }
    text.push_str("; ")
}

/// A file in words.
fn shown(alloc: Global, file: &BlifFile) -> Result<String, AllocError> {
    let mut text = String::new(alloc);
    put_word(&mut text, &file.model)?;
    text.push_str("; ")?;
    put_words(&mut text, file.inputs.items())?;
    put_words(&mut text, file.outputs.items())?;
    for gate in file.gates.items() {
        put_gate(&mut text, gate)?;
    }
    for join in file.joins.items() {
        put_word(&mut text, &join.first)?;
        put_word(&mut text, &join.second)?;
    }
    text.push_str("; ")?;
    put_words(&mut text, file.constants.items())?;
    Ok(text)
}

/// How a text reads: as a file in words, or as the kind and the place of its fault.
fn answer(alloc: Global, text: &[u8]) -> Result<String, AllocError> {
    match read_blif(alloc, text) {
        Ok(file) => shown(alloc, &file),
        Err(BlifFault::Bad { kind, at }) => format!(in alloc; "{kind:?} {at}"),
        Err(BlifFault::Memory) => Err(AllocError),
    }
}

/// Texts and how they read.
const TEXTS: [(&[u8], &str); 36] = [
    (b".model m\n.end\n", "m@7 ; ; ; ; ; "),
    (b"\n\t.model m\r\n.end", "m@9 ; ; ; ; ; "),
    (
        b"# caf\xc3\xa9 ; /*\n.model m # n\n.end # \\\n",
        "m@20 ; ; ; ; ; ",
    ),
    (
        b".model m\n.inputs a \\\n b\n.outputs\n.inputs c\\\r\nd\n.outputs y\n.end\n",
        "m@7 ; a@17 b@22 c@41 d@45 ; y@56 ; ; ; ",
    ),
    (
        b".model m\n.gate X A=a[0] Y=$abc$2$auto$blifparse.cc:386:parse_blif$210\n\n.cname u\n.gate Z Q=b=c\n.end\n",
        "m@7 ; ; ; 15:X u@78 A=a[0]@17 Y=$abc$2$auto$blifparse.cc:386:parse_blif$210@24 ; 86:Z Q=b=c@88 ; ; ; ",
    ),
    (
        b".model m\n.names $false\n.names $true\n1\n.names a b\n1 1\n.end\n",
        "m@7 ; ; ; a@45 b@47 ; $false@16 $true@30 ; ",
    ),
    (b"", "Ends 0"),
    (b"# m\n", "Ends 4"),
    (b".inputs a\n", "Word 0"),
    (b".model\n.end\n", "Word 6"),
    (b".model m n\n", "Word 9"),
    (b".model m\n", "Ends 9"),
    (b".model m\n.end x\n", "Word 14"),
    (b".model m\n.end\n.model n\n", "Model 14"),
    (b".model m\n.end\nx\n", "Word 14"),
    (b".model m\n.model n\n", "Model 9"),
    (b".model m\n.latch a b re c 2\n", "Directive 9"),
    (b".model m\na b\n", "Word 9"),
    (b".model m\n.cname u1\n", "Cname 9"),
    (b".model m\n.gate X A=a\n.inputs b\n.cname u1\n", "Cname 31"),
    (b".model m\n.gate X A=a\n.cname u1\n.cname u2\n", "Cname 31"),
    (b".model m\n.gate X A=a\n.cname\n", "Word 27"),
    (b".model m\n.gate X A\n", "Pin 17"),
    (b".model m\n.gate X =a\n", "Pin 17"),
    (b".model m\n.gate X A=\n", "Pin 17"),
    (b".model m\n.gate\n", "Word 14"),
    (b".model m\n.names a b c\n", "Table 9"),
    (b".model m\n.names\n", "Table 9"),
    (b".model m\n.names a b\n0 1\n", "Table 9"),
    (b".model m\n.names a b\n.end\n", "Table 9"),
    (b".model m\n.names a\n0\n", "Table 9"),
    (b".model m\n.names a b\n1 1\n1 1\n", "Word 24"),
    (b".model m;\n", "Byte 8"),
    (b".model m\n.inputs a\x07\n", "Byte 18"),
    (b".model a/*b\n", "Byte 8"),
    (b".model m\r.end\n", "Byte 8"),
];

#[test]
fn texts_read_so(rt: HostRuntime) -> Result<(), Fail> {
    for (text, want) in TEXTS {
        assert_eq!(rt; answer(rt.alloc(), text)?.as_str(), want);
    }
    Ok(())
}
