//! The scale bar.

ghost use Rattle.layout_picture.specs.Scale.{IsRound, bar_below, bar_text, greater_side, scale_bar, scale_text};
ghost use Rattle.shelf_io.specs.Wrote.{Writes};
ghost use Rattle.std.specs.Prelude.{◌≡◌, ◌≤◌, ◌*◌, ◌-ℤ◌, ℕ, unsigned_abs};

use crate::pieces::Piece::{Size, Text};
use crate::pieces::append_pieces;
use geom_core::Rect;
use shelf_io::{Buffer, Failed, Sink};

// The longer side of a rectangle.
fn greater_side(rect: &Rect) -> u64
    ensures { result ≡ greater_side rect.now }
{
    rect.x1.abs_diff(rect.x0).max(rect.y1.abs_diff(rect.y0))
}

// The greatest of 1, 2 and 5 times a power of ten below this one that is at most the room; 0 where none is.
fn bar_below(power: u32, room: u64) -> u64
    requires { power ≤ 18 }
    ensures is { result ≡ bar_below power room }
    ensures within { result ≤ room }
{
    if power == 0 {
        return 0;
    }
    let ten = 10u64.pow(power - 1);
    if 5 * ten <= room {
        5 * ten
    } else if 2 * ten <= room {
        2 * ten
    } else if ten <= room {
        ten
    } else {
        bar_below(power - 1, room)
    }
}

// The length of the scale bar of a frame, in half centimicrons: at most a quarter of its width, and whole centimicrons.
fn scale_bar(frame: &Rect) -> u64
    ensures is { result ≡ scale_bar frame.now }
    ensures within { 4 * result ≤ unsigned_abs (frame.now.x1 -ℤ frame.now.x0) }
    ensures largest { (n : ℕ) → IsRound n → 8 * n ≤ unsigned_abs (frame.now.x1 -ℤ frame.now.x0) → 2 * n ≤ result }
{
    2 * bar_below(18, frame.x1.abs_diff(frame.x0) / 8)
}

// Puts a bar of so many half centimicrons and its length behind what is buffered.
fn append_bar<K: Sink>(
    buffer: &mut Buffer,
    out: &mut K,
    side: u64,
    length: u64,
) -> Result<(), Failed>
    ensures { Writes result (bar_text side length) buffer.old buffer.new (K.written out.old) (K.written out.new) (K.faults out.old) (K.faults out.new) (K.same_place out.old out.new) (K.else_same out.old out.new) }
{
    let bar = [
        Text(b" <svg class=\"scale\" y=\"1010\" width=\"1000\" height=\"1000\" viewBox=\"0 0 "),
        Size(side),
        Text(b" "),
        Size(side),
        Text(b"\">\n  <rect width=\""),
        Size(length),
        Text(b"\" height=\""),
        Size(side / 100 + 1),
        Text(b"\"/>\n </svg>\n <text y=\"1045\" font-size=\"20\">"),
        Size(length),
        Text(b" &#181;m</text>\n"),
    ];
    append_pieces(buffer, out, &bar)
}

/// Puts the scale bar of a frame, where it is wide enough for one, behind what is buffered.
pub(crate) fn append_scale<K: Sink>(
    buffer: &mut Buffer,
    out: &mut K,
    frame: &Rect,
) -> Result<(), Failed>
    ensures { Writes result (scale_text frame.now) buffer.old buffer.new (K.written out.old) (K.written out.new) (K.faults out.old) (K.faults out.new) (K.same_place out.old out.new) (K.else_same out.old out.new) }
{
    let bar = scale_bar(frame);
    if bar == 0 {
        return Ok(());
    }
    append_bar(buffer, out, greater_side(frame), bar)
}
