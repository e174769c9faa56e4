//! The legend: the layers, and what they are for.

ghost use Rattle.layout_picture.specs.Legend.{entries_text, entry_text, role_text, word_of};
ghost use Rattle.shelf_io.specs.Wrote.{Writes};
ghost use Rattle.std.specs.Prelude.{◌≡◌};

use crate::pieces::Piece::Text;
use crate::pieces::append_pieces;
use crate::view::Roles;
use geom_core::LayerName;
use shelf_io::{Buffer, Failed, Sink};

// What a layer is for.
fn role_text(roles: &Roles, layer: &[u8]) -> &'static [u8]
    ensures { result.now ≡ role_text roles.now layer.now }
{
    if layer == roles.horizontal.text() {
        b" horizontal"
    } else if layer == roles.vertical.text() {
        b" vertical"
    } else if layer == roles.cut.text() {
        b" via"
    } else if layer == roles.outline.text() {
        b" outline"
    } else {
        b""
    }
}

// What it is for, where that is known.
fn word_of(roles: &Option<Roles>, layer: &[u8]) -> &'static [u8]
    ensures { result.now ≡ word_of roles.now layer.now }
{
    match roles {
        Some(roles) => role_text(roles, layer),
        None => b"",
    }
}

// Puts the entry of a layer behind what is buffered.
fn append_entry<K: Sink>(
    buffer: &mut Buffer,
    out: &mut K,
    roles: &Option<Roles>,
    layer: &[u8],
) -> Result<(), Failed>
    ensures { Writes result (entry_text roles.now layer.now) buffer.old buffer.new (K.written out.old) (K.written out.new) (K.faults out.old) (K.faults out.new) (K.same_place out.old out.new) (K.else_same out.old out.new) }
{
    let entry = [
        Text(b"  <tspan class=\"layer-"),
        Text(layer),
        Text(b"\" x=\"1010\" dy=\"20\">&#9632;</tspan> "),
        Text(layer),
        Text(word_of(roles, layer)),
        Text(b"\n"),
    ];
    append_pieces(buffer, out, &entry)
}

/// Puts an entry for each layer behind what is buffered.
pub(crate) fn append_entries<K: Sink>(
    buffer: &mut Buffer,
    out: &mut K,
    roles: &Option<Roles>,
    layers: &[LayerName],
) -> Result<(), Failed>
    ensures { Writes result (entries_text roles.now (layers.now)) buffer.old buffer.new (K.written out.old) (K.written out.new) (K.faults out.old) (K.faults out.new) (K.same_place out.old out.new) (K.else_same out.old out.new) }
{
    let mut rest = layers;
    while let Some((layer, after)) = rest.split_first() {
        append_entry(buffer, out, roles, layer.text())?;
        rest = after;
    }
    Ok(())
}
