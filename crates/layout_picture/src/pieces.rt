//! Pieces of text, of which the elements of a picture are made.

ghost use Rattle.layout_picture.specs.Pieces.{piece_text};
ghost use Rattle.marker_text.specs.Microns.{microns, sign};
ghost use Rattle.shelf_io.specs.Wrote.{Writes};
ghost use Rattle.std.specs.List.{concat};
ghost use Rattle.std.specs.Prelude.{◌≡◌, ◌-ℤ◌, map};

use crate::escaping::append_entities;
use marker_text::{append_length, append_size};
use shelf_io::{Buffer, Failed, Sink};

/// A piece of text: bytes as they are; a name, as text of XML; or a length in half centimicrons, which is written in microns: a place, a size, or how far it is from
/// one place to another.
#[derive(Clone, Copy, Debug)]
pub(crate) enum Piece<'p> {
    Text(&'p [u8]),
    Name(&'p [u8]),
    Place(i64),
    Size(u64),
    Way(i64, i64),
}

// The sign of how far it is from one place to another.
fn way_sign(from: i64, to: i64) -> &'static [u8]
    ensures { result.now ≡ sign (to -ℤ from) }
{
    if to < from { b"-" } else { b"" }
}

// Puts how far it is from one place to another behind what is buffered.
#[tactic(auto, unfolding(marker_text::specs::Microns::microns))]
fn append_way<K: Sink>(buffer: &mut Buffer, out: &mut K, from: i64, to: i64) -> Result<(), Failed>
    ensures { Writes result (microns (to -ℤ from)) buffer.old buffer.new (K.written out.old) (K.written out.new) (K.faults out.old) (K.faults out.new) (K.same_place out.old out.new) (K.else_same out.old out.new) }
{
    append_size(buffer, out, way_sign(from, to), to.abs_diff(from))
}

// Puts a piece behind what is buffered.
fn append_piece<K: Sink>(buffer: &mut Buffer, out: &mut K, piece: Piece<'_>) -> Result<(), Failed>
    ensures { Writes result (piece_text piece.entry) buffer.old buffer.new (K.written out.old) (K.written out.new) (K.faults out.old) (K.faults out.new) (K.same_place out.old out.new) (K.else_same out.old out.new) }
{
    match piece {
        Piece::Text(bytes) => buffer.append(out, bytes),
        Piece::Name(bytes) => append_entities(buffer, out, bytes),
        Piece::Place(at) => append_length(buffer, out, at),
        Piece::Size(size) => append_size(buffer, out, b"", size),
        Piece::Way(from, to) => append_way(buffer, out, from, to),
    }
}

/// Puts pieces, one behind the other, behind what is buffered.
pub(crate) fn append_pieces<K: Sink>(
    buffer: &mut Buffer,
    out: &mut K,
    pieces: &[Piece<'_>],
) -> Result<(), Failed>
    ensures { Writes result (concat (map piece_text pieces.now)) buffer.old buffer.new (K.written out.old) (K.written out.new) (K.faults out.old) (K.faults out.new) (K.same_place out.old out.new) (K.else_same out.old out.new) }
{
    let Some((piece, after)) = pieces.split_first() else {
        return Ok(());
    };
    append_piece(buffer, out, *piece)?;
    append_pieces(buffer, out, after)
}
