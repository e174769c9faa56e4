//! Layouts of which no picture is drawn, and the notes on them.

use crate::support::{Drawn, draw_notes, first_line};
use cif_text::CifKind;
use command_ends::{Limited, Refusal, Stop};
use geom_core::Rect;
use std::test::Fail;

/// All of a layout without rules, of which nothing is read.
const ALL: Drawn<'static> = Drawn {
    part: None,
    rules: None,
    rules_text: None,
    cif_text: None,
};

/// The same with rules.
const RULED: Drawn<'static> = Drawn {
    part: None,
    rules: Some("r.toml"),
    rules_text: None,
    cif_text: None,
};

#[test]
fn pictures_of_too_many_shapes_have_notes(rt: HostRuntime) -> Result<(), Fail> {
    let stop = Stop::Refused(Refusal::Limit(Limited::Picture, 200_001));
    let notes = draw_notes(rt.alloc(), &ALL, &stop)?;
    assert_eq!(rt;
        notes.as_str(),
        "l.cif: the picture would show 200001 shapes; 200000 at most may be: --box X0,Y0,X1,Y1 shows a part of the layout [limit Picture 200001]\n"
    );
    let part = Rect {
        x0: 0,
        y0: 0,
        x1: 200,
        y1: 200,
    };
    let drawn = Drawn {
        part: Some(part),
        rules: None,
        rules_text: None,
        cif_text: None,
    };
    let notes = draw_notes(rt.alloc(), &drawn, &stop)?;
    assert_eq!(rt;
        notes.as_str(),
        "l.cif: the picture would show 200001 shapes; 200000 at most may be: a smaller part (--box X0,Y0,X1,Y1) has less [limit Picture 200001]\n"
    );
    Ok(())
}

#[test]
fn files_that_are_not_read_or_written_have_notes(rt: HostRuntime) -> Result<(), Fail> {
    let notes = draw_notes(rt.alloc(), &RULED, &Stop::ReadFault)?;
    assert_eq!(rt;
        notes.as_str(),
        "r.toml: no such file, or not readable [read fault]\n"
    );
    let drawn = Drawn {
        part: None,
        rules: Some("r.toml"),
        rules_text: Some(b""),
        cif_text: None,
    };
    let notes = draw_notes(rt.alloc(), &drawn, &Stop::ReadFault)?;
    assert_eq!(rt;
        notes.as_str(),
        "l.cif: no such file, or not readable [read fault]\n"
    );
    let notes = draw_notes(rt.alloc(), &ALL, &Stop::ReadFault)?;
    assert_eq!(rt;
        notes.as_str(),
        "l.cif: no such file, or not readable [read fault]\n"
    );
    let notes = draw_notes(rt.alloc(), &ALL, &Stop::WriteFault)?;
    assert_eq!(rt;
        notes.as_str(),
        "o.svg: not writable, or the disk is full [write fault]\n"
    );
    Ok(())
}

#[test]
fn files_that_are_exchanged_have_notes(rt: HostRuntime) -> Result<(), Fail> {
    let drawn = Drawn {
        part: None,
        rules: Some("r.toml"),
        rules_text: Some(b"MODULE m;\n"),
        cif_text: None,
    };
    let notes = draw_notes(rt.alloc(), &drawn, &Stop::Refused(Refusal::Toml))?;
    assert_eq!(rt;
        notes.as_str(),
        "r.toml: this looks like a design, and rules are wanted; the words are draw CIF OUT --rules RULES [rules Toml]\n"
    );
    let drawn = Drawn {
        part: None,
        rules: Some("r.toml"),
        rules_text: Some(b"MODULE m;\n"),
        cif_text: Some(b"MODULE m;\n"),
    };
    let stop = Stop::Refused(Refusal::Cif(CifKind::BadCommand, 0));
    let notes = draw_notes(rt.alloc(), &drawn, &stop)?;
    assert_eq!(rt;
        first_line(notes.as_str()),
        "l.cif:1:1: this looks like a design, and a layout in CIF is wanted; the words are draw CIF OUT [cif BadCommand 0]"
    );
    Ok(())
}
