//! The parts of a picture that are the same for all layouts.

ghost use Rattle.layout_picture.specs.Parts.{part_text};
ghost use Rattle.std.specs.Prelude.{◌≡◌};

/// How a picture begins, up to the rules of layers.
pub const BEGIN: &str = "\
<?xml version=\"1.0\" encoding=\"utf-8\"?>
<svg xmlns=\"http://www.w3.org/2000/svg\" version=\"1.1\" viewBox=\"0 0 1300 1060\">
 <style type=\"text/css\">
  text { font-family: monospace; }
  .shapes rect { fill-opacity: 0.6; }
  .cells rect { fill: none; pointer-events: all; }
";

/// How the style sheet ends.
pub const STYLES_END: &str = " </style>
";

/// How the shapes begin.
pub const SHAPES: &str = "   <g class=\"shapes\">
";

/// What stands between shapes and cells.
pub const CELLS: &str = "   </g>
   <g class=\"cells\">
";

/// What stands behind the cells.
pub const CELLS_END: &str = "   </g>
  </svg>
 </svg>
";

/// How the legend begins.
pub const LEGEND: &str = " <text class=\"legend\" font-size=\"16\">
";

/// How legend and picture end.
pub const END: &str = " </text>
</svg>
";

/// A part of a picture that is the same for all layouts.
#[derive(Clone, Copy, Debug)]
pub enum Part {
    Begin,
    StylesEnd,
    Shapes,
    Cells,
    CellsEnd,
    Legend,
    End,
}

/// The text of a part.
#[tactic(auto, unfolding(crate::specs::Parts::part_text))]
pub(crate) fn text_of_part(part: Part) -> &'static [u8]
    ensures { result.now ≡ part_text part }
{
    match part {
        Part::Begin => BEGIN.as_bytes(),
        Part::StylesEnd => STYLES_END.as_bytes(),
        Part::Shapes => SHAPES.as_bytes(),
        Part::Cells => CELLS.as_bytes(),
        Part::CellsEnd => CELLS_END.as_bytes(),
        Part::Legend => LEGEND.as_bytes(),
        Part::End => END.as_bytes(),
    }
}
