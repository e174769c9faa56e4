//! The command to draw a layout.

use crate::support::{TWO_JOINED, ended, is_ended};
use samples::{JOINED_PICTURE, RULES};
use shelf_io::{MemShelf, MemSink};
use std::alloc::{AllocError, Global};
use std::test::Fail;

// A shelf with the sample rules under `r`, this layout under `c`, a comment that is not closed under `u`, and an old text under `o`.
fn drawn_shelf(alloc: Global, layout: &[u8]) -> Result<MemShelf, AllocError> {
    let mut shelf = MemShelf::new(alloc)?;
    shelf.set("r", RULES.as_bytes())?;
    shelf.set("c", layout)?;
    shelf.set("u", b"(a comment")?;
    shelf.set("o", b"old")?;
    Ok(shelf)
}

// The text that a file of a shelf holds from this piece of it on, or none.
fn text_from<'s>(shelf: &'s MemShelf, piece: &str) -> Option<&'s str> {
    let text = str::from_utf8(shelf.get("o")?).ok()?;
    let at = text.find(piece)?;
    text.get(at..)
}

#[test]
fn two_joined_cells_are_drawn(rt: HostRuntime) -> Result<(), Fail> {
    let mut shelf = drawn_shelf(rt.alloc(), TWO_JOINED.as_bytes())?;
    assert!(rt; is_ended(rt.alloc(), "draw|c|o|--rules|r", &mut shelf, 0, "")?);
    assert!(rt; shelf.get("o") == Some(JOINED_PICTURE.as_bytes()));
    assert!(rt;
        shelf.get("c") == Some(TWO_JOINED.as_bytes()) && shelf.get("r") == Some(RULES.as_bytes())
    );
    Ok(())
}

// The shapes of the part from 0, 40 to 8, 50 microns: those of the first cell and of its via, and the wire between them.
const PART: &str = "   <g class=\"shapes\">
    <rect class=\"layer-XP\" x=\"0.000\" y=\"2.000\" width=\"8.000\" height=\"40.000\"/>
    <rect class=\"layer-NP\" x=\"2.500\" y=\"2.000\" width=\"3.000\" height=\"4.000\"/>
    <rect class=\"layer-XP\" x=\"8.000\" y=\"2.000\" width=\"8.000\" height=\"40.000\"/>
    <rect class=\"layer-NP\" x=\"2.500\" y=\"-8.000\" width=\"3.000\" height=\"10.000\"/>
   </g>
";

#[test]
fn a_part_is_drawn(rt: HostRuntime) -> Result<(), Fail> {
    let mut shelf = drawn_shelf(rt.alloc(), TWO_JOINED.as_bytes())?;
    assert!(rt; is_ended(rt.alloc(), "draw|--box|0,40,8,50.0|c|o", &mut shelf, 0, "")?);
    let shapes = text_from(&shelf, "   <g class=\"shapes\">");
    assert!(rt; matches!(shapes, Some(text) if text.starts_with(PART)));
    // Without rules nothing is known of the layers.
    let legend = text_from(&shelf, "</tspan> XP");
    assert!(rt; matches!(legend, Some(text) if text.starts_with("</tspan> XP\n")));
    Ok(())
}

// Words that are refused over such a shelf, with the status and the line; `o` stays as it was.
const REFUSED: &[(&str, u8, &str)] = &[
    ("draw|c", 2, "usage\n"),
    ("draw|c|o|o", 2, "usage\n"),
    ("draw|c|o|--seed|1", 2, "usage\n"),
    ("draw|c|o|--box|0,0,8", 2, "usage\n"),
    ("draw|c|o|--box|0,0,8,8,8", 2, "usage\n"),
    ("draw|c|o|--box|0,0,0,8", 2, "usage\n"),
    ("draw|c|o|--box|0,8,8,8", 2, "usage\n"),
    ("draw|c|o|--box|0,0,8,8.125", 2, "usage\n"),
    ("draw|c|o|--box|0,0,8,10000000.01", 2, "usage\n"),
    ("draw|c|o|--rules|o", 4, "rules Toml\n"),
    ("draw|c|o|--rules|none", 8, "read fault\n"),
    ("draw|none|o", 8, "read fault\n"),
    ("draw|u|o", 7, "cif Unclosed 0\n"),
    ("draw|c|-q|o|-q", 2, "usage\n"),
];

// Whether these words end so over such a shelf, and leave `o` as it was.
fn is_no_picture(alloc: Global, words: &str, status: u8, line: &str) -> Result<bool, AllocError> {
    let mut shelf = drawn_shelf(alloc, TWO_JOINED.as_bytes())?;
    Ok(is_ended(alloc, words, &mut shelf, status, line)? && shelf.get("o") == Some(b"old"))
}

#[test]
fn words_and_files_that_give_no_picture(rt: HostRuntime) -> Result<(), Fail> {
    for (words, status, line) in REFUSED {
        assert!(rt; is_no_picture(rt.alloc(), words, *status, line)?, "{words}");
    }
    Ok(())
}

// A layout of so many squares of a micron: a thousand in a symbol, which is called so often, each call 2 microns to the right of the one before.
fn many_squares(alloc: Global, calls: u32) -> Result<String, AllocError> {
    let mut text = String::from_str(alloc, "DS 1;\nL NM;\n")?;
    for i in 0..1000u32 {
        let up = i * 200 + 50;
        write!(text, "B 100 100 50 {up};\n")?;
    }
    text.push_str("DF;\n")?;
    for i in 0..calls {
        let right = u64::from(i) * 200;
        write!(text, "C 1 T {right} 0;\n")?;
    }
    text.push_str("E\n")?;
    Ok(text)
}

#[test]
fn a_picture_of_too_many_shapes(rt: HostRuntime) -> Result<(), Fail> {
    let layout = many_squares(rt.alloc(), 201)?;
    let mut shelf = drawn_shelf(rt.alloc(), layout.as_bytes())?;
    assert!(rt;
        is_ended(
            rt.alloc(),
            "draw|c|o",
            &mut shelf,
            6,
            "limit Picture 201000\n"
        )?
    );
    assert!(rt; shelf.get("o") == Some(b"old"));
    // A part that has fewer of them is drawn.
    assert!(rt; is_ended(rt.alloc(), "draw|c|o|--box=-1,0,398,10", &mut shelf, 0, "")?);
    let mut out = MemSink::new(rt.alloc())?;
    assert!(rt;
        ended(
            rt.alloc(),
            "draw|c|o|--box=-1,0,400,5000",
            &mut shelf,
            &mut out
        )?
        .status
            == 6
    );
    Ok(())
}
