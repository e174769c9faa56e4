//! Lengths in microns.

ghost use Rattle.marker_text.specs.Microns.{digit, fraction, microns, sign, size_text};
ghost use Rattle.shelf_io.specs.Wrote.{Writes};
ghost use Rattle.std.specs.Prelude.{◌≡◌, ◌++◌};

use crate::three::append_three;
use itoa::Buffer as Digits;
use shelf_io::{Buffer, Failed, Sink};

// The last digit of a number.
fn digit(n: u64) -> u8
    ensures { result ≡ digit n }
{
    b'0' + (n % 10) as u8
}

// A point and three decimals.
fn fraction(thousandths: u64) -> [u8; 4]
    ensures { result ≡ fraction thousandths }
{
    [
        b'.',
        digit(thousandths / 100),
        digit(thousandths / 10),
        digit(thousandths),
    ]
}

// The sign of a length.
fn sign(length: i64) -> &'static [u8]
    ensures { result.now ≡ sign length }
{
    if length < 0 { b"-" } else { b"" }
}

/// Puts bytes and then a size of half centimicrons in microns, with three decimals, behind what is buffered. Takes no memory.
#[tactic(auto, unfolding(crate::specs::Microns::size_text))]
pub fn append_size<K: Sink>(
    buffer: &mut Buffer,
    out: &mut K,
    before: &[u8],
    size: u64,
) -> Result<(), Failed>
    ensures { Writes result (before.now ++ size_text size) buffer.old buffer.new (K.written out.old) (K.written out.new) (K.faults out.old) (K.faults out.new) (K.same_place out.old out.new) (K.else_same out.old out.new) }
{
    let mut digits = Digits::new();
    let whole = digits.format(size / 200);
    let decimals = fraction(size % 200 * 5);
    append_three(buffer, out, before, whole.as_bytes(), &decimals)
}

/// Puts a length of half centimicrons in microns behind what is buffered, with three decimals. Takes no memory.
#[tactic(auto, unfolding(crate::specs::Microns::microns))]
pub fn append_length<K: Sink>(buffer: &mut Buffer, out: &mut K, length: i64) -> Result<(), Failed>
    ensures { Writes result (microns length) buffer.old buffer.new (K.written out.old) (K.written out.new) (K.faults out.old) (K.faults out.new) (K.same_place out.old out.new) (K.else_same out.old out.new) }
{
    append_size(buffer, out, sign(length), length.unsigned_abs())
}
