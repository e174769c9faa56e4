//! Texts of YAL.

use crate::shown_files::shown;
use std::alloc::{AllocError, Global};
use std::test::Fail;
use yal_reader::{Numbers, YalFault, read_yal};

/// A design of one cell and one instance, of 220 bytes.
const DESIGN: &str =
    "MODULE INV;\nTYPE STANDARD;\nDIMENSIONS 0 0 8 0 8 40 0 40;\nIOLIST;\na I 4 0 3 POLY;\nENDIOLIST;\nENDMODULE;\nMODULE top;\nTYPE PARENT;\nDIMENSIONS 0 0 8 0 8 40 0 40;\nIOLIST;\nENDIOLIST;\nNETWORK;\nu1 INV n1;\nENDNETWORK;\nENDMODULE;\n";

/// How a text of whole numbers reads: the number of its modules, or the kind and the place of its fault.
fn answer(alloc: Global, text: &[u8]) -> Result<String, AllocError> {
    match read_yal(alloc, text, Numbers::Whole) {
        Ok(file) => format!(in alloc; "{}", file.modules.items().len()),
        Err(YalFault::Bad { kind, at }) => format!(in alloc; "{kind:?} {at}"),
        Err(YalFault::Memory) => Err(AllocError),
    }
}

/// Whether a text reads so.
fn is_answer(alloc: Global, text: &[u8], want: &str) -> Result<bool, AllocError> {
    Ok(answer(alloc, text)?.as_str() == want)
}

/// How the design reads when it is cut, from one length to another: as so many modules, as a word at fault, or as a text that ends in a module, after all of its bytes.
const CUTS: [(usize, usize, &str); 29] = [
    (0, 0, "0"),
    (1, 5, "Word 0"),
    (6, 12, "Ends"),
    (13, 15, "Word 12"),
    (16, 17, "Ends"),
    (18, 24, "Word 17"),
    (25, 27, "Ends"),
    (28, 36, "Word 27"),
    (37, 57, "Ends"),
    (58, 62, "Word 57"),
    (63, 92, "Ends"),
    (93, 100, "Word 92"),
    (101, 101, "Ends"),
    (102, 103, "1"),
    (104, 108, "Word 103"),
    (109, 115, "Ends"),
    (116, 118, "Word 115"),
    (119, 120, "Ends"),
    (121, 125, "Word 120"),
    (126, 128, "Ends"),
    (129, 137, "Word 128"),
    (138, 158, "Ends"),
    (159, 163, "Word 158"),
    (164, 177, "Ends"),
    (178, 183, "Word 177"),
    (184, 209, "Ends"),
    (210, 217, "Word 209"),
    (218, 218, "Ends"),
    (219, 220, "2"),
];

/// Whether the design reads so when it is cut after so many bytes.
fn is_cut(alloc: Global, length: usize, want: &str) -> Result<bool, AllocError> {
    let Some(text) = DESIGN.as_bytes().get(..length) else {
        return Ok(false);
    };
    if want == "Ends" {
        return is_answer(alloc, text, format!(in alloc; "Ends {length}")?.as_str());
    }
    is_answer(alloc, text, want)
}

/// Whether the design reads so when it is cut after each number of bytes from one to another.
fn are_cut(alloc: Global, first: usize, last: usize, want: &str) -> Result<bool, AllocError> {
    for length in first..=last {
        if !is_cut(alloc, length, want)? {
            return Ok(false);
        }
    }
    Ok(first <= last)
}

#[test]
fn the_design_is_cut_after_each_byte(rt: HostRuntime) -> Result<(), Fail> {
    let mut next = 0;
    for (first, last, want) in CUTS {
        assert!(rt; first == next && last < 1000 && are_cut(rt.alloc(), first, last, want)?);
        next = last + 1;
    }
    assert!(rt; next == DESIGN.len() + 1);
    Ok(())
}

/// A line for each text that is no file: the kind and the place of its fault, and the text.
const FAULTS: &str = "\
OpenComment 0 | /*/\n\
OpenComment 7 | a/**/b /*\n\
OpenComment 9 | MODULE a;/* b\n\
Word 0 | a\n\
Word 2 | ;;a\n\
Word 28 | MODULE a;TYPE PAD;ENDMODULE;b\n\
Ends 6 | MODULE\n\
Word 7 | MODULE ;\n\
Word 9 | MODULE a b;\n\
Ends 9 | MODULE a;\n\
Word 10 | MODULE a;;b;\n\
Word 13 | MODULE a;TYPE;\n\
Word 14 | MODULE a;TYPE CELL;\n\
Word 18 | MODULE a;TYPE PAD b;\n\
Twice 35 | MODULE a;TYPE PAD;ENDMODULE;MODULE a\n\
Word 0 | MO/**/DULE a;\n\
Word 23 | MODULE a;TYPE STANDARD;b;\n\
Ends 23 | MODULE a;TYPE STANDARD;\n\
Word 33 | MODULE a;TYPE STANDARD;ENDMODULE b;\n\
Ends 32 | MODULE a;TYPE STANDARD;ENDMODULE\n\
Word 23 | MODULE a;TYPE STANDARD;ENDIOLIST;\n\
Number 36 | MODULE a;TYPE STANDARD;DIMENSIONS 1 b;\n\
Number 34 | MODULE a;TYPE STANDARD;DIMENSIONS 100000001;\n\
Number 34 | MODULE a;TYPE STANDARD;DIMENSIONS -100000001;\n\
Number 34 | MODULE a;TYPE STANDARD;DIMENSIONS +1;\n\
Number 34 | MODULE a;TYPE STANDARD;DIMENSIONS 1.0;\n\
Number 34 | MODULE a;TYPE STANDARD;DIMENSIONS -;\n\
Ends 35 | MODULE a;TYPE STANDARD;DIMENSIONS 1\n\
Twice 34 | MODULE a;TYPE STANDARD;DIMENSIONS;DIMENSIONS b;\n\
Twice 35 | MODULE a;TYPE GENERAL;DIMENSIONS b;DIMENSIONS;\n\
Word 30 | MODULE a;TYPE STANDARD;IOLIST b;\n\
Word 31 | MODULE a;TYPE STANDARD;IOLIST;b;\n\
Word 32 | MODULE a;TYPE STANDARD;IOLIST;b X;\n\
Word 33 | MODULE a;TYPE STANDARD;IOLIST;b I;\n\
Number 36 | MODULE a;TYPE STANDARD;IOLIST;b I 1 c;\n\
Word 37 | MODULE a;TYPE STANDARD;IOLIST;b I 1 2;\n\
Word 39 | MODULE a;TYPE STANDARD;IOLIST;b I 1 2 3;\n\
Word 39 | MODULE a;TYPE STANDARD;IOLIST;ENDMODULE;\n\
Word 40 | MODULE a;TYPE STANDARD;IOLIST;ENDIOLIST b;\n\
Ends 35 | MODULE a;TYPE STANDARD;IOLIST;b PWR\n\
Twice 40 | MODULE a;TYPE STANDARD;IOLIST;ENDIOLIST;iolist\n\
Word 29 | MODULE a;TYPE PARENT;IOLIST;b;\n\
Word 30 | MODULE a;TYPE PARENT;IOLIST;b J;\n\
Ends 31 | MODULE a;TYPE GENERAL;IOLIST;b;\n\
Word 41 | MODULE a;TYPE GENERAL;IOLIST;b;ENDIOLIST c;\n\
Word 29 | MODULE a;TYPE PARENT;NETWORK b;\n\
Word 30 | MODULE a;TYPE PARENT;NETWORK;b;\n\
Ends 32 | MODULE a;TYPE PARENT;NETWORK;b c\n\
Twice 33 | MODULE a;TYPE PARENT;NETWORK;b c;b;\n\
Word 40 | MODULE a;TYPE PARENT;NETWORK;ENDNETWORK b;\n\
Twice 40 | MODULE a;TYPE PARENT;NETWORK;ENDNETWORK;NETWORK b\n\
Ends 35 | MODULE a;TYPE STANDARD;NETWORK;b;b;\n\
Twice 42 | MODULE a;TYPE STANDARD;NETWORK;ENDNETWORK;NETWORK;\n\
Ends 32 | MODULE a;TYPE STANDARD;PROFILE b\n\
Ends 30 | MODULE a;TYPE STANDARD;CURRENT\n\
Ends 30 | MODULE a;TYPE STANDARD;VOLTAGE\n\
Ends 46 | MODULE a;TYPE STANDARD;PLACEMENT ENDPLACEMENT;\n\
Ends 48 | MODULE a;TYPE STANDARD;PLACEMENT;b ENDPLACEMENT;\n\
Word 46 | MODULE a;TYPE STANDARD;PLACEMENT;ENDPLACEMENT b;\n\
Ends 49 | MODULE a;TYPE STANDARD;CRITICALNETS;ENDPLACEMENT;\n\
Ends 51 | MODULE a;TYPE STANDARD;CRITICALNETS;ENDCRITICALNETS";

/// Whether the design reads so behind these bytes.
fn is_answer_behind(alloc: Global, bytes: &[u8], want: &str) -> Result<bool, AllocError> {
    let mut text = bytes.to_vec(alloc)?;
    text.extend_from_slice(DESIGN.as_bytes())?;
    is_answer(alloc, text.as_slice(), want)
}

#[test]
fn each_fault_has_its_kind_and_place(rt: HostRuntime) -> Result<(), Fail> {
    for line in FAULTS.split('\n') {
        let (fault, text) = line.split_once(" | ").unwrap_or(("", line));
        assert!(rt; is_answer(rt.alloc(), text.as_bytes(), fault)?, "{line}");
    }
    // What stands before a design comes first.
    assert!(rt; is_answer_behind(rt.alloc(), b"/*", "OpenComment 0")?);
    assert!(rt; is_answer_behind(rt.alloc(), b"\xc8", "NotAscii 0")?);
    assert!(rt; is_answer(rt.alloc(), b"MODULE \xc8/*", "NotAscii 7")?);
    Ok(())
}

/// A line for each text that is a file: the text, and what it holds.
const FILES: &str = "\
;; /**/;\x7f | \n\
module Aa;;type standard;;Dimensions -0 007 -007 100000000 -100000000;;iolist;;a I 1 2 w L x y;A pwr;;A gnd 1;endIOLIST;EndModule; | Aa Standard 0 7 -7 100000000 -100000000 / a I 1 2 L , A PWR , A GND , / / \n\
MODULE MODULE;TYPE PAD;IOLIST;b;ENDMODULE;c ENDIOLIST;ENDIOLIST;NETWORK;b;b;ENDNETWORK;DIMENSIONS b;ENDMODULE; | MODULE Pad / / / \n\
MODULE a;TYPE PARENT;IOLIST;b f c;ENDIOLIST;NETWORK;ENDIOLIST m s s;B m;b m;ENDNETWORK;ENDMODULE;MODULE A;TYPE GENERAL;ENDMODULE;; | a Parent / b F , / ENDIOLIST m s s , B m , b m , / A General / / / \n\
MODULE a;TYPE PAD;PROFILE b c;CURRENT;VOLTAGE 1;PLACEMENT b;c ENDPLACEMENT;d;ENDPLACEMENT;CRITICALNETS;b;ENDCRITICALNETS;PROFILE;PLACEMENT;ENDPLACEMENT;CRITICALNETS;ENDCRITICALNETS;ENDMODULE; | a Pad / / / \n\
MODULE a;TYPE STANDARD;DIMENSIONS 1/**/2/***/3/*/*/4/* /* */5;ENDMODULE;/*;*/ | a Standard 1 2 3 4 5 / / / \n\
MODULE a;TYPE STANDARD;IOLIST;a i 0 0 0 l;b o 0 0 0 l;c b 0 0 0 l;d pi 0 0 0 l;e po 0 0 0 l;f pb 0 0 0 l;g f 0 0 0 l;h pwr b;i gnd;ENDIOLIST;ENDMODULE; | a Standard / a I 0 0 l , b O 0 0 l , c B 0 0 l , d PI 0 0 l , e PO 0 0 l , f PB 0 0 l , g F 0 0 l , h PWR , i GND , / / ";

/// Whether a text is a file that holds this.
fn is_file(alloc: Global, text: &str, want: &str) -> Result<bool, Fail> {
    let file = read_yal(alloc, text.as_bytes(), Numbers::Whole)?;
    Ok(shown(alloc, &file)?.as_slice() == want.as_bytes())
}

#[test]
fn files_hold_what_their_texts_say(rt: HostRuntime) -> Result<(), Fail> {
    for line in FILES.split('\n') {
        let (text, want) = line.split_once(" | ").unwrap_or((line, ""));
        assert!(rt; is_file(rt.alloc(), text, want)?, "{line}");
    }
    assert!(rt; is_file(rt.alloc(), "", "")?);
    let want = "INV Standard 0 0 8 0 8 40 0 40 / a I 4 0 POLY , / / top Parent / / u1 INV n1 , / ";
    assert!(rt; is_file(rt.alloc(), DESIGN, want)?);
    Ok(())
}
