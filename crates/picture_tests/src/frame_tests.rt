//! What is in a picture: nothing, one shape, and parts of a layout.

use crate::drawn::{Drawn, Named, Parts, layout_of, picture_text, rect_of, text_of};
use layout_picture::View;
use std::test::Fail;

/// A name, the shapes and the cells of a layout, the part that is shown, and the parts of the picture.
type Case = (
    &'static str,
    &'static [Drawn],
    &'static [Named<'static>],
    Option<[i64; 4]>,
    Parts,
);

/// A shape left of 0 and below it, one at its upper right corner, and one that lies far from both.
const THREE: [Drawn; 3] = [
    ("NM", [-2000, -1000, 0, 0]),
    ("NP", [0, 0, 1000, 1000]),
    ("NM", [3000, 2000, 3001, 2001]),
];

/// A cell of the first, one of the last, one without shapes, and one whose shapes would begin behind the last.
const FOUR: [Named<'static>; 4] = [
    (b"a", 0, 1),
    (b"tiny", 2, 1),
    (b"none", 1, 0),
    (b"past", 3, 1),
];

const TWO_RULES: &str = "  .layer-NM { fill: #e69f00; }\n  .layer-NP { fill: #56b4e9; }\n";

const TWO_ENTRIES: &str = "  <tspan class=\"layer-NM\" x=\"1010\" dy=\"20\">&#9632;</tspan> NM
  <tspan class=\"layer-NP\" x=\"1010\" dy=\"20\">&#9632;</tspan> NP
";

const CASES: [Case; 6] = [
    (
        "nothing, in a square of a micron",
        &[],
        &[],
        None,
        Parts {
            rules: "",
            frame: " <svg width=\"1000\" height=\"1000\" viewBox=\"0.000 0 1.000 1.000\">
  <svg x=\"0.000\" width=\"1.000\" height=\"1.000\" viewBox=\"0.000 0 1.000 1.000\">
",
            shapes: "",
            cells: "",
            scale: " <svg class=\"scale\" y=\"1010\" width=\"1000\" height=\"1000\" viewBox=\"0 0 1.000 1.000\">
  <rect width=\"0.200\" height=\"0.015\"/>
 </svg>
 <text y=\"1045\" font-size=\"20\">0.200 &#181;m</text>
",
            legend: "",
        },
    ),
    (
        "one shape, too narrow for a scale bar",
        &[("7", [-3, -5, 4, 2])],
        &[],
        None,
        Parts {
            rules: "  .layer-7 { fill: #e69f00; }\n",
            frame: " <svg width=\"1000\" height=\"1000\" viewBox=\"-0.015 0 0.035 0.035\">
  <svg x=\"-0.015\" width=\"0.035\" height=\"0.035\" viewBox=\"-0.015 0 0.035 0.035\">
",
            shapes: "    <rect class=\"layer-7\" x=\"-0.015\" y=\"0.000\" width=\"0.035\" height=\"0.035\"/>\n",
            cells: "",
            scale: "",
            legend: "  <tspan class=\"layer-7\" x=\"1010\" dy=\"20\">&#9632;</tspan> 7\n",
        },
    ),
    (
        "all of a layout, with a name that does not fit, and cells without shapes",
        &THREE,
        &FOUR,
        None,
        Parts {
            rules: TWO_RULES,
            frame: " <svg width=\"1000\" height=\"1000\" viewBox=\"-10.000 0 25.005 15.005\">
  <svg x=\"-10.000\" width=\"25.005\" height=\"15.005\" viewBox=\"-10.000 0 25.005 15.005\">
",
            shapes: "    <rect class=\"layer-NM\" x=\"-10.000\" y=\"10.005\" width=\"10.000\" height=\"5.000\"/>
    <rect class=\"layer-NP\" x=\"0.000\" y=\"5.005\" width=\"5.000\" height=\"5.000\"/>
    <rect class=\"layer-NM\" x=\"15.000\" y=\"0.000\" width=\"0.005\" height=\"0.005\"/>
",
            cells: "    <g>
     <title>a</title>
     <rect x=\"-10.000\" y=\"10.005\" width=\"10.000\" height=\"5.000\"/>
     <text x=\"-10.000\" y=\"15.005\" dy=\"-0.25em\" font-size=\"0.420\">a</text>
    </g>
    <g>
     <title>tiny</title>
     <rect x=\"15.000\" y=\"0.000\" width=\"0.005\" height=\"0.005\"/>
    </g>
",
            scale: " <svg class=\"scale\" y=\"1010\" width=\"1000\" height=\"1000\" viewBox=\"0 0 25.005 25.005\">
  <rect width=\"5.000\" height=\"0.255\"/>
 </svg>
 <text y=\"1045\" font-size=\"20\">5.000 &#181;m</text>
",
            legend: TWO_ENTRIES,
        },
    ),
    (
        "a part that touches two shapes at a corner of each, above its top and below its bottom",
        &THREE,
        &FOUR,
        Some([-10, -10, 10, 10]),
        Parts {
            rules: TWO_RULES,
            frame: " <svg width=\"1000\" height=\"1000\" viewBox=\"-0.050 0 0.100 0.100\">
  <svg x=\"-0.050\" width=\"0.100\" height=\"0.100\" viewBox=\"-0.050 0 0.100 0.100\">
",
            shapes: "    <rect class=\"layer-NM\" x=\"-10.000\" y=\"0.050\" width=\"10.000\" height=\"5.000\"/>
    <rect class=\"layer-NP\" x=\"0.000\" y=\"-4.950\" width=\"5.000\" height=\"5.000\"/>
",
            cells: "    <g>
     <title>a</title>
     <rect x=\"-10.000\" y=\"0.050\" width=\"10.000\" height=\"5.000\"/>
     <text x=\"-10.000\" y=\"5.050\" dy=\"-0.25em\" font-size=\"0.420\">a</text>
    </g>
",
            scale: " <svg class=\"scale\" y=\"1010\" width=\"1000\" height=\"1000\" viewBox=\"0 0 0.100 0.100\">
  <rect width=\"0.020\" height=\"0.005\"/>
 </svg>
 <text y=\"1045\" font-size=\"20\">0.020 &#181;m</text>
",
            legend: TWO_ENTRIES,
        },
    ),
    (
        "a part at whose corner a shape ends",
        &THREE,
        &[],
        Some([1000, 1000, 9000, 2000]),
        Parts {
            rules: TWO_RULES,
            frame: " <svg width=\"1000\" height=\"1000\" viewBox=\"5.000 0 40.000 5.000\">
  <svg x=\"5.000\" width=\"40.000\" height=\"5.000\" viewBox=\"5.000 0 40.000 5.000\">
",
            shapes: "    <rect class=\"layer-NP\" x=\"0.000\" y=\"5.000\" width=\"5.000\" height=\"5.000\"/>
    <rect class=\"layer-NM\" x=\"15.000\" y=\"-0.005\" width=\"0.005\" height=\"0.005\"/>
",
            cells: "",
            scale: " <svg class=\"scale\" y=\"1010\" width=\"1000\" height=\"1000\" viewBox=\"0 0 40.000 40.000\">
  <rect width=\"10.000\" height=\"0.405\"/>
 </svg>
 <text y=\"1045\" font-size=\"20\">10.000 &#181;m</text>
",
            legend: TWO_ENTRIES,
        },
    ),
    (
        "a part that shows none",
        &THREE,
        &FOUR,
        Some([1001, -2000, 2999, 9000]),
        Parts {
            rules: TWO_RULES,
            frame: " <svg width=\"1000\" height=\"1000\" viewBox=\"5.005 0 9.990 55.000\">
  <svg x=\"5.005\" width=\"9.990\" height=\"55.000\" viewBox=\"5.005 0 9.990 55.000\">
",
            shapes: "",
            cells: "",
            scale: " <svg class=\"scale\" y=\"1010\" width=\"1000\" height=\"1000\" viewBox=\"0 0 55.000 55.000\">
  <rect width=\"2.000\" height=\"0.555\"/>
 </svg>
 <text y=\"1045\" font-size=\"20\">2.000 &#181;m</text>
",
            legend: TWO_ENTRIES,
        },
    ),
];

#[test]
fn what_is_shown(rt: HostRuntime) -> Result<(), Fail> {
    for (name, shapes, cells, sides, parts) in &CASES {
        let layout = layout_of(rt.alloc(), shapes, cells)?;
        let part = match sides {
            Some(sides) => Some(rect_of(*sides)?),
            None => None,
        };
        let text = picture_text(rt.alloc(), &layout, View { part, roles: None })?;
        let want = text_of(rt.alloc(), parts)?;
        assert_eq!(rt; text.as_str(), want.as_str(), "{name}");
    }
    Ok(())
}
