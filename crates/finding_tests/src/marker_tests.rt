//! The report database of a layout's findings.

use crate::telling::{CELLS, ONE_NET, SYMBOL, TWO_NETS, WIRE, layout_of, sampled};
use finding_markers::write_markers;
use layout_check::check;
use samples::{BUFFER, sample_rules};
use shelf_io::{Failed, MemShelf};
use std::alloc::{AllocError, Global};
use std::test::Fail;

/// How the file begins.
const HEAD: &str = "\
<?xml version=\"1.0\" encoding=\"utf-8\"?>
<report-database>
 <description>Findings of cellroute check</description>
 <original-file/>
 <generator>cellroute</generator>
 <top-cell>CIF_TOP</top-cell>
 <tags>
 </tags>
 <categories>
";

/// The categories, with a stroke between name and description.
const CATEGORIES: &str = "\
Missing/no cell has this instance's name
Doubled/a cell has the name of an earlier one
Strange/no instance has this cell's name
Drawing/the cell is not its module's drawing under its turn
Overlap/two outlines share an inner point
OutOfRow/two outlines have different lower edges and share an inner height
Narrow/a wire is narrower than its layer's width, or a cut is no square of the cut's size
Close/two shapes of one layer that are not joined are closer than the layer's space
BareCut/a cut, with what has to enclose it, does not lie in one shape of each wiring layer
Open/two pins of one net are not joined
Short/two pins of different nets are joined";

/// What stands between the categories and the items.
const CELL: &str = " </categories>
 <cells>
  <cell>
   <name>CIF_TOP</name>
   <variant/>
   <references>
   </references>
  </cell>
 </cells>
 <items>
";

/// A name, the calls of buffers, the pieces of a text of CIF before its end, and the items, a line for each: its category, its text and its boxes, with strokes between them.
type Case = (
    &'static str,
    &'static str,
    &'static [&'static str],
    &'static str,
);

/// The wire of the two buffers without its last cut.
const CUTLESS: &str =
    "L NP; B 300 1000 400 5300; B 300 1000 1200 5300; L NM; B 1200 300 800 5600; B 400 400 400 5600; L NP; B 400 400 400 5600; L NC; B 200 200 400 5600; L NM; B 400 400 1200 5600; L NP; B 400 400 1200 5600;\n";

const CASES: [Case; 13] = [
    (
        "no item of a good layout",
        ONE_NET,
        &[SYMBOL, CELLS, WIRE],
        "",
    ),
    (
        "no box of a missing cell",
        ONE_NET,
        &[SYMBOL, "91 u1; C 1 T 0 800; C 1 T 800 800;\n", WIRE],
        "Missing/Missing u2",
    ),
    (
        "both cells of a name",
        ONE_NET,
        &[SYMBOL, CELLS, "91 u1; C 1 T 1600 800;\n", WIRE],
        "Doubled/Doubled u1/(0.000,8.000;8.000,48.000)/(16.000,8.000;24.000,48.000)",
    ),
    (
        "a strange cell, whose name is escaped",
        ONE_NET,
        &[SYMBOL, CELLS, "91 <&'\\\">; C 1 T 1600 800;\n", WIRE],
        "Strange/Strange &lt;&amp;\\&apos;\\\\&quot;&gt;/(16.000,8.000;24.000,48.000)",
    ),
    (
        "a cell that is larger than its outline",
        ONE_NET,
        &[
            SYMBOL,
            "DS 2 1 1; 9 BUF; L XP; B 800 4000 400 2000; L NP; B 300 400 400 4000; DF;\n",
            "91 u1; C 1 T 0 800;\n91 u2; C 2 T 800 800;\n",
            WIRE,
        ],
        "Drawing/Drawing u2/(8.000,8.000;16.000,50.000)",
    ),
    (
        "two outlines that overlap",
        ONE_NET,
        &[SYMBOL, CELLS, WIRE, "L XP; B 800 4000 400 2800;\n"],
        "Overlap/Overlap 0 13/(0.000,8.000;8.000,48.000)/(0.000,8.000;8.000,48.000)",
    ),
    (
        "outlines out of row",
        ONE_NET,
        &[SYMBOL, CELLS, WIRE, "L XP; B 200 200 3000 2000;\n"],
        "OutOfRow/OutOfRow 0 13/(0.000,8.000;8.000,48.000)/(29.000,19.000;31.000,21.000)
OutOfRow/OutOfRow 2 13/(8.000,8.000;16.000,48.000)/(29.000,19.000;31.000,21.000)",
    ),
    (
        "a narrow wire left of 0 and below it, by half centimicrons",
        ONE_NET,
        &[SYMBOL, CELLS, WIRE, "L NM; B 301 299 -5000 0;\n"],
        "Narrow/Narrow 13/(-51.505,-1.495;-48.495,1.495)",
    ),
    (
        "a side half a centimicron left of 0",
        ONE_NET,
        &[SYMBOL, CELLS, WIRE, "L NM; B 299 300 149 9000;\n"],
        "Narrow/Narrow 13/(-0.005,88.500;2.985,91.500)",
    ),
    (
        "wires that are too close",
        ONE_NET,
        &[SYMBOL, CELLS, WIRE, "L NM; B 300 300 800 6100;\n"],
        "Close/Close 6 13/(2.000,54.500;14.000,57.500)/(6.500,59.500;9.500,62.500)
Close/Close 7 13/(2.000,54.000;6.000,58.000)/(6.500,59.500;9.500,62.500)
Close/Close 10 13/(10.000,54.000;14.000,58.000)/(6.500,59.500;9.500,62.500)",
    ),
    (
        "a cut that is not in its pads",
        ONE_NET,
        &[SYMBOL, CELLS, CUTLESS, "L NC; B 200 200 1300 5600;\n"],
        "BareCut/BareCut 12/(12.000,55.000;14.000,57.000)",
    ),
    (
        "the pins of an open net",
        ONE_NET,
        &[SYMBOL, CELLS, CUTLESS],
        "Open/Open u1 y u2 y/(2.500,44.000;5.500,48.000)/(10.500,44.000;13.500,48.000)",
    ),
    (
        "the pins of two nets that are joined",
        TWO_NETS,
        &[SYMBOL, CELLS, WIRE],
        "Short/Short u1 y u2 y/(2.500,44.000;5.500,48.000)/(10.500,44.000;13.500,48.000)",
    ),
];

// Puts the item of a line behind a text.
fn push_item(text: &mut String, line: &str) -> Result<(), AllocError> {
    for (n, part) in line.split('/').enumerate() {
        match n {
            0 => {
                text.push_str("  <item>\n   <tags/>\n   <category>")?;
                text.push_str(part)?;
                text.push_str(
                    "</category>\n   <cell>CIF_TOP</cell>\n   <visited>false</visited>\n   <multiplicity>1</multiplicity>\n   <image/>\n   <values>\n",
                )?;
            }
            1 => {
                text.push_str("    <value>text: '")?;
                text.push_str(part)?;
                text.push_str("'</value>\n")?;
            }
            _ => {
                text.push_str("    <value>box: ")?;
                text.push_str(part)?;
                text.push_str("</value>\n")?;
            }
        }
    }
    text.push_str("   </values>\n  </item>\n")
}

// The file with the items of these lines.
fn database(alloc: Global, items: &str) -> Result<String, AllocError> {
    let mut text = String::from_str(alloc, HEAD)?;
    for line in CATEGORIES.lines() {
        if let Some((name, description)) = line.split_once("/") {
            text.push_str("  <category>\n   <name>")?;
            text.push_str(name)?;
            text.push_str("</name>\n   <description>")?;
            text.push_str(description)?;
            text.push_str("</description>\n   <categories>\n   </categories>\n  </category>\n")?;
        }
    }
    text.push_str(CELL)?;
    for line in items.lines() {
        push_item(&mut text, line)?;
    }
    text.push_str(" </items>\n</report-database>\n")?;
    Ok(text)
}

// Writes the findings of a layout as `m` on a shelf, and says whether there is such a layout, and whether it was written.
fn write_case(
    alloc: Global,
    shelf: &mut MemShelf,
    calls: &str,
    pieces: &[&str],
) -> Result<Option<Result<(), Failed>>, AllocError> {
    let mut text = String::new(alloc);
    for piece in pieces {
        text.push_str(piece)?;
    }
    text.push_str("E")?;
    let rules = sample_rules(alloc)?;
    let Some(design) = sampled(alloc, BUFFER, calls)? else {
        return Ok(None);
    };
    let Some(layout) = layout_of(alloc, text.as_bytes())? else {
        return Ok(None);
    };
    let findings = check(alloc, &layout, &design, &rules)?;
    Ok(Some(write_markers(shelf, "m", &design, &layout, findings.as_slice())))
}

#[test]
fn each_kind_of_finding(rt: HostRuntime) -> Result<(), Fail> {
    for (name, calls, pieces, items) in CASES {
        let mut shelf = MemShelf::new(rt.alloc())?;
        shelf.set("m", b"before")?;
        let written = write_case(rt.alloc(), &mut shelf, calls, pieces)?;
        assert_eq!(rt; written, Some(Ok(())), "{name}");
        let want = database(rt.alloc(), items)?;
        assert!(rt; shelf.get("m") == Some(want.as_bytes()), "{name}");
    }
    Ok(())
}

/// The file's beginning fails, its first piece, or the rest behind it.
const FAILING: [(u64, usize); 3] = [(0, 6), (1, 0), (2, 1000)];

#[test]
fn a_file_that_cannot_be_written_whole(rt: HostRuntime) -> Result<(), Fail> {
    let (_, calls, pieces, items) = CASES[2];
    let want = database(rt.alloc(), items)?;
    for (call, length) in FAILING {
        let mut shelf = MemShelf::new(rt.alloc())?;
        shelf.set("m", b"before")?;
        shelf.most(1000);
        shelf.fail_at(call)?;
        let written = write_case(rt.alloc(), &mut shelf, calls, pieces)?;
        assert_eq!(rt; written, Some(Err(Failed)));
        let held = shelf.get("m").unwrap_or(b"");
        assert_eq!(rt; held.len(), length);
        assert!(rt; held == b"before".as_slice() || want.as_bytes().starts_with(held));
    }
    Ok(())
}
