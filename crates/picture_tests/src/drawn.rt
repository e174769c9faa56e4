//! Layouts of tables, and the texts of their pictures.

use geom_core::{Cell, Items, LayerName, Layout, Name, Rect, Shape, Turn};
use layout_picture::{Picture, Roles, View, put_picture};
use shelf_io::MemSink;
use std::alloc::{AllocError, Global};
use std::test::Fail;

/// A shape: its layer, and its left, lower, right and upper side in half centimicrons.
pub(crate) type Drawn = (&'static str, [i64; 4]);

/// A cell: its name, the number of its first shape, and how many it has.
pub(crate) type Named<'n> = (&'n [u8], u32, u32);

/// All of a layout, whose layers are not known.
pub(crate) const PLAIN: View = View {
    part: None,
    roles: None,
};

/// The rectangle of these sides.
pub(crate) fn rect_of(sides: [i64; 4]) -> Result<Rect, Fail> {
    let [x0, y0, x1, y1] = sides;
    if x0 >= x1 || y0 >= y1 {
        return Err(Fail::from("no rectangle"));
    }
    Ok(Rect { x0, y0, x1, y1 })
}

/// The layer of this name.
pub(crate) fn layer_of(name: &str) -> Result<LayerName, Fail> {
    Ok(LayerName::new(name.as_bytes()).ok_or("no layer")?)
}

fn cell_of(alloc: Global, named: &Named<'_>) -> Result<Cell, AllocError> {
    Ok(Cell {
        name: Name::new(named.0.to_vec(alloc)?),
        symbol: Name::new(Vec::new(alloc)),
        turn: Turn {
            flip: false,
            quarters: 0,
            dx: 0,
            dy: 0,
        },
        first: named.1,
        count: named.2,
    })
}

/// The layout of these shapes and cells.
pub(crate) fn layout_of(
    alloc: Global,
    drawn: &[Drawn],
    named: &[Named<'_>],
) -> Result<Layout, Fail> {
    let mut shapes = Vec::new(alloc);
    for (layer, sides) in drawn {
        shapes.push(Shape {
            layer: layer_of(layer)?,
            rect: rect_of(*sides)?,
        })?;
    }
    let mut cells = Vec::new(alloc);
    for cell in named {
        cells.push(cell_of(alloc, cell)?)?;
    }
    Ok(Layout {
        cells: Items::new(cells),
        shapes: Items::new(shapes),
    })
}

/// The layers of the sample process by what they are for.
pub(crate) fn sample_roles() -> Result<Roles, Fail> {
    Ok(Roles {
        horizontal: layer_of("NM")?,
        vertical: layer_of("NP")?,
        cut: layer_of("NC")?,
        outline: layer_of("XP")?,
    })
}

/// The text of a picture.
pub(crate) fn picture_text(alloc: Global, layout: &Layout, view: View) -> Result<String, Fail> {
    let picture = Picture::new(alloc, layout, view)?;
    let mut sink = MemSink::new(alloc)?;
    put_picture(&mut sink, &picture).map_err(|_| "the sink failed")?;
    let text = str::from_utf8(sink.bytes()).map_err(|_| "no text")?;
    Ok(String::from_str(alloc, text)?)
}

/// The parts of a picture that differ: the rules of its layers, its frame, the rectangles of shapes, the groups of cells, the scale bar and the legend.
pub(crate) struct Parts {
    pub(crate) rules: &'static str,
    pub(crate) frame: &'static str,
    pub(crate) shapes: &'static str,
    pub(crate) cells: &'static str,
    pub(crate) scale: &'static str,
    pub(crate) legend: &'static str,
}

/// The text of a picture with these parts.
pub(crate) fn text_of(alloc: Global, parts: &Parts) -> Result<String, AllocError> {
    let mut text = String::new(alloc);
    text.push_str("<?xml version=\"1.0\" encoding=\"utf-8\"?>\n")?;
    text.push_str(
        "<svg xmlns=\"http://www.w3.org/2000/svg\" version=\"1.1\" viewBox=\"0 0 1300 1060\">\n",
    )?;
    text.push_str(" <style type=\"text/css\">\n  text { font-family: monospace; }\n")?;
    text.push_str("  .shapes rect { fill-opacity: 0.6; }\n")?;
    text.push_str("  .cells rect { fill: none; pointer-events: all; }\n")?;
    text.push_str(parts.rules)?;
    text.push_str(" </style>\n")?;
    text.push_str(parts.frame)?;
    text.push_str("   <g class=\"shapes\">\n")?;
    text.push_str(parts.shapes)?;
    text.push_str("   </g>\n   <g class=\"cells\">\n")?;
    text.push_str(parts.cells)?;
    text.push_str("   </g>\n  </svg>\n </svg>\n")?;
    text.push_str(parts.scale)?;
    text.push_str(" <text class=\"legend\" font-size=\"16\">\n")?;
    text.push_str(parts.legend)?;
    text.push_str(" </text>\n</svg>\n")?;
    Ok(text)
}
