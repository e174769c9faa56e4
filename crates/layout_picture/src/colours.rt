//! The style sheet: a colour for each layer.

ghost use Rattle.layout_picture.specs.Styles.{colour, colour_after, style_text, styles_text};
ghost use Rattle.shelf_io.specs.Wrote.{Writes};
ghost use Rattle.std.specs.Prelude.{◌≡◌};

use crate::pieces::Piece::Text;
use crate::pieces::append_pieces;
use geom_core::LayerName;
use shelf_io::{Buffer, Failed, Sink};

// The colour of a number: the eight of Okabe and Ito, which people without one kind of cones tell apart too.
#[tactic(auto, unfolding(crate::specs::Styles::colour))]
fn colour(number: u8) -> &'static [u8]
    ensures { result.now ≡ colour number }
{
    match number {
        0 => b"#e69f00",
        1 => b"#56b4e9",
        2 => b"#009e73",
        3 => b"#f0e442",
        4 => b"#0072b2",
        5 => b"#d55e00",
        6 => b"#cc79a7",
        _ => b"#000000",
    }
}

// The number of the next colour: the first behind the last.
fn colour_after(number: u8) -> u8
    ensures { result ≡ colour_after number }
{
    if number < 7 { number + 1 } else { 0 }
}

// Puts the rule of a layer behind what is buffered.
fn append_style<K: Sink>(
    buffer: &mut Buffer,
    out: &mut K,
    number: u8,
    layer: &[u8],
) -> Result<(), Failed>
    ensures { Writes result (style_text number layer.now) buffer.old buffer.new (K.written out.old) (K.written out.new) (K.faults out.old) (K.faults out.new) (K.same_place out.old out.new) (K.else_same out.old out.new) }
{
    let rule = [
        Text(b"  .layer-"),
        Text(layer),
        Text(b" { fill: "),
        Text(colour(number)),
        Text(b"; }\n"),
    ];
    append_pieces(buffer, out, &rule)
}

/// Puts a rule for each layer behind what is buffered.
pub(crate) fn append_styles<K: Sink>(
    buffer: &mut Buffer,
    out: &mut K,
    layers: &[LayerName],
) -> Result<(), Failed>
    ensures { Writes result (styles_text 0 (layers.now)) buffer.old buffer.new (K.written out.old) (K.written out.new) (K.faults out.old) (K.faults out.new) (K.same_place out.old out.new) (K.else_same out.old out.new) }
{
    let mut number = 0;
    let mut rest = layers;
    while let Some((layer, after)) = rest.split_first() {
        append_style(buffer, out, number, layer.text())?;
        number = colour_after(number);
        rest = after;
    }
    Ok(())
}
