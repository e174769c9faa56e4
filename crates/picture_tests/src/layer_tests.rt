//! More layers than there are colours.

use crate::drawn::{Drawn, PLAIN, layout_of, picture_text, sample_roles};
use layout_picture::View;
use std::test::Fail;

/// Shapes of ten layers, two of them twice.
const TEN: [Drawn; 12] = [
    ("A", [0, 0, 1, 1]),
    ("B", [0, 0, 1, 1]),
    ("A", [0, 0, 1, 1]),
    ("C", [0, 0, 1, 1]),
    ("D", [0, 0, 1, 1]),
    ("E", [0, 0, 1, 1]),
    ("F", [0, 0, 1, 1]),
    ("G", [0, 0, 1, 1]),
    ("H", [0, 0, 1, 1]),
    ("B", [0, 0, 1, 1]),
    ("NC", [0, 0, 1, 1]),
    ("0NC9", [0, 0, 1, 1]),
];

/// Their rules: the ninth layer has the first colour again.
const RULES: &str = "  .layer-A { fill: #e69f00; }
  .layer-B { fill: #56b4e9; }
  .layer-C { fill: #009e73; }
  .layer-D { fill: #f0e442; }
  .layer-E { fill: #0072b2; }
  .layer-F { fill: #d55e00; }
  .layer-G { fill: #cc79a7; }
  .layer-H { fill: #000000; }
  .layer-NC { fill: #e69f00; }
  .layer-0NC9 { fill: #56b4e9; }
 </style>
";

/// How their legend ends: one of them is the process's.
const ENTRIES: &str = "&#9632;</tspan> H
  <tspan class=\"layer-NC\" x=\"1010\" dy=\"20\">&#9632;</tspan> NC via
  <tspan class=\"layer-0NC9\" x=\"1010\" dy=\"20\">&#9632;</tspan> 0NC9
 </text>
";

#[test]
fn colours_begin_anew(rt: HostRuntime) -> Result<(), Fail> {
    let layout = layout_of(rt.alloc(), &TEN, &[])?;
    let view = View {
        part: None,
        roles: Some(sample_roles()?),
    };
    let text = picture_text(rt.alloc(), &layout, view)?;
    assert!(rt; text.as_str().contains(RULES));
    assert!(rt; text.as_str().contains(ENTRIES));
    let plain = picture_text(rt.alloc(), &layout, PLAIN)?;
    assert!(rt; plain.as_str().contains(RULES));
    Ok(())
}
