//! The line of a command, and the end of a label's, printed into a buffer of 192 bytes from its end to its first byte, as digits come.

ghost use Rattle.cif_text.specs.Printing.{blanked, line, flip_parts, quarter_parts, upright_parts, HasLine};
ghost use Rattle.cif_text.specs.declared.command.CifCommand.TheVariants as commands;
ghost use Rattle.std.specs.Fmt.{signed_decimal};
ghost use Rattle.std.specs.Prelude.{◌≡◌, ◌+◌, ◌≤◌, ◌++◌, ◌∷◌, [], length, drop, decimal};

use crate::command::CifCommand;
use geom_core::LayerName;
use itoa::write_digits;

/// Writes the command's line so that it ends at `end`, from 91 to 192, and gives where the line starts, at most 91 bytes before. What stands from `end` on
/// stays. Takes no memory.
///
/// It needs a command that is no wire, no polygon and no user command, and a call with at most three quarters.
pub fn print_command(command: &CifCommand, into: &mut [u8; 192], end: usize) -> usize
    requires line { HasLine command.now }
    requires room { 91 ≤ end }
    requires inside { end ≤ 192 }
    ensures line { drop result into.new ≡ line command.now ++ drop end into.old }
    ensures short { end ≤ result + 91 }
    ensures start { result ≤ end }
{
    match command {
        CifCommand::Box {
            length,
            width,
            cx,
            cy,
            upright,
        } => print_box(*length, *width, *cx, *cy, *upright, into, end),
        CifCommand::Layer(layer) => print_layer(layer, into, end),
        CifCommand::Start { n, a, b } => print_start(*n, *a, *b, into, end),
        CifCommand::Finish => put(into, end, b"DF;\n"),
        CifCommand::Call {
            n,
            flip,
            quarters,
            dx,
            dy,
        } => print_call(*n, *flip, *quarters, *dx, *dy, into, end),
        CifCommand::Comment => put(into, end, b"(cellroute 1);\n"),
        CifCommand::Wire { .. } | CifCommand::Polygon { .. } | CifCommand::User { .. } => {
            unreachable!()
        }
        CifCommand::End => put(into, end, b"E\n"),
    }
}

fn print_box(
    length: i64,
    width: i64,
    cx: i64,
    cy: i64,
    upright: bool,
    into: &mut [u8; 192],
    end: usize,
) -> usize
    requires room { 91 ≤ end }
    requires inside { end ≤ 192 }
    ensures line { drop result into.new ≡ line (commands.Box length width cx cy upright) ++ drop end into.old }
    ensures short { end ≤ result + 91 }
    ensures start { result ≤ end }
{
    let start = put(into, end, b";\n");
    let start = put(into, start, upright_text(upright));
    let start = put_number(into, start, cy);
    let start = put_number(into, start, cx);
    let start = put_number(into, start, width);
    let start = put_number(into, start, length);
    put(into, start, b"B")
}

fn print_layer(layer: &LayerName, into: &mut [u8; 192], end: usize) -> usize
    requires room { 91 ≤ end }
    requires inside { end ≤ 192 }
    ensures line { drop result into.new ≡ line (commands.Layer layer.now) ++ drop end into.old }
    ensures short { end ≤ result + 91 }
    ensures start { result ≤ end }
{
    let start = put(into, end, b";\n");
    let start = put(into, start, layer.text());
    put(into, start, b"L ")
}

fn print_start(n: u64, a: u64, b: u64, into: &mut [u8; 192], end: usize) -> usize
    requires room { 91 ≤ end }
    requires inside { end ≤ 192 }
    ensures line { drop result into.new ≡ line (commands.Start n a b) ++ drop end into.old }
    ensures short { end ≤ result + 91 }
    ensures start { result ≤ end }
{
    let start = put(into, end, b";\n");
    let start = put_natural(into, start, b);
    let start = put_natural(into, start, a);
    let start = put_natural(into, start, n);
    put(into, start, b"DS")
}

fn print_call(
    n: u64,
    flip: bool,
    quarters: u8,
    dx: i64,
    dy: i64,
    into: &mut [u8; 192],
    end: usize,
) -> usize
    requires room { 91 ≤ end }
    requires inside { end ≤ 192 }
    ensures line { drop result into.new ≡ line (commands.Call n flip quarters dx dy) ++ drop end into.old }
    ensures short { end ≤ result + 91 }
    ensures start { result ≤ end }
{
    let start = put(into, end, b";\n");
    let start = put_number(into, start, dy);
    let start = put_number(into, start, dx);
    let start = put(into, start, b" T");
    let start = put(into, start, quarters_text(quarters));
    let start = put(into, start, flip_text(flip));
    let start = put_natural(into, start, n);
    put(into, start, b"C")
}

/// Writes what stands behind a label's name to the end of `into`: its place in centimicrons, the semicolon and a line feed. Gives where this starts.
/// Takes no memory.
pub fn print_label_end(x: i64, y: i64, into: &mut [u8; 192]) -> usize
    ensures text { drop result into.new ≡ blanked (signed_decimal x ∷ signed_decimal y ∷ []) ++ (59 ∷ 10 ∷ []) }
    ensures start { result ≤ 192 }
{
    let start = put(into, 192, b";\n");
    let start = put_number(into, start, y);
    put_number(into, start, x)
}

// The direction of a box whose length lies along y.
fn upright_text(upright: bool) -> &'static [u8]
    ensures text { result.now ≡ blanked (upright_parts upright) }
    ensures short { length result.now ≤ 4 }
{
    if upright { b" 0 1" } else { b"" }
}

// The mirroring of a call.
fn flip_text(flip: bool) -> &'static [u8]
    ensures text { result.now ≡ blanked (flip_parts flip []) }
    ensures short { length result.now ≤ 4 }
{
    if flip { b" M X" } else { b"" }
}

// The rotation of a call.
fn quarters_text(quarters: u8) -> &'static [u8]
    ensures text { result.now ≡ blanked (quarter_parts quarters []) }
    ensures short { length result.now ≤ 7 }
{
    match quarters {
        0 => b"",
        1 => b" R 0 1",
        2 => b" R -1 0",
        _ => b" R 0 -1",
    }
}

// A blank and the number, which end at `end`.
fn put_natural(into: &mut [u8; 192], end: usize, n: u64) -> usize
    requires room { 21 ≤ end }
    requires inside { end ≤ 192 }
    ensures text { drop result into.new ≡ 32 ∷ decimal n ++ drop end into.old }
    ensures short { end ≤ result + 21 }
    ensures start { result ≤ end }
{
    let start = write_digits(n, into, end);
    put(into, start, b" ")
}

// A blank and the number, which end at `end`.
fn put_number(into: &mut [u8; 192], end: usize, n: i64) -> usize
    requires room { 21 ≤ end }
    requires inside { end ≤ 192 }
    ensures text { drop result into.new ≡ 32 ∷ signed_decimal n ++ drop end into.old }
    ensures short { end ≤ result + 21 }
    ensures start { result ≤ end }
{
    let start = write_digits(n.unsigned_abs(), into, end);
    if n < 0 {
        return put(into, start, b" -");
    }
    put(into, start, b" ")
}

// A piece that ends at `end`.
fn put(into: &mut [u8; 192], end: usize, piece: &[u8]) -> usize
    requires room { length piece.now ≤ end }
    requires inside { end ≤ 192 }
    ensures text { drop result into.new ≡ piece.now ++ drop end into.old }
    ensures start { result + length piece.now ≡ end }
{
    let start = end - piece.len();
    into[start..end].copy_from_slice(piece);
    start
}
