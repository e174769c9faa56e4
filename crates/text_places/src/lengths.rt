//! Lengths as a design writes them.

ghost use Rattle.std.specs.Prelude.{◌<◌};

use std::alloc::{AllocError, Global};

// How many units are one where numbers have so many decimals.
fn scale(decimals: u32) -> u64
    ensures { 0 < result }
{
    match decimals {
        0 => 1,
        1 => 10,
        2 => 100,
        3 => 1000,
        _ => 10_000,
    }
}

// Puts the digits of a fraction behind a number, up to the last that is not 0.
fn push_fraction(text: &mut String, fraction: u64, scale: u64) -> Result<(), AllocError> {
    let mut left = fraction;
    let mut step = scale;
    text.push('.')?;
    for _ in 0..4u8 {
        step /= 10;
        if left == 0 || step == 0 {
            return Ok(());
        }
        let digit = (left / step) % 10;
        text.push((b'0' + digit as u8) as char)?;
        left %= step;
    }
    Ok(())
}

/// So many units as a number of a design with so many decimals writes them.
pub fn units(alloc: Global, n: i64, decimals: u32) -> Result<String, AllocError> {
    let scale = scale(decimals);
    let size = n.unsigned_abs();
    let whole = size / scale;
    let fraction = size % scale;
    let sign = if n < 0 { "-" } else { "" };
    let mut text = format!(in alloc; "{sign}{whole}")?;
    if fraction > 0 {
        push_fraction(&mut text, fraction, scale)?;
    }
    Ok(text)
}
