//! Polygons of 2,000 points and of one more.

use crate::expansion_tests::{BOX, is_nested, shown};
use crate::shown::is_shown;
use std::alloc::{AllocError, Global};
use std::test::Fail;

/// Puts a tooth of a comb, two high, one wide and one apart, which begins and ends at these heights.
fn put_tooth(
    alloc: Global,
    text: &mut String,
    tooth: u16,
    from: u8,
    to: u8,
) -> Result<(), AllocError> {
    let left = 2 * u32::from(tooth);
    let right = left + 1;
    text.push_str(format!(in alloc; " {left} {from} {left} 2 {right} 2 {right} {to}")?.as_str())
}

/// The polygon of a comb of so many teeth on a back one high, and of more points behind these.
fn comb(alloc: Global, teeth: u16, more: &str) -> Result<String, AllocError> {
    let mut text = String::new(alloc);
    text.push_str("L NM;P")?;
    for tooth in 0..teeth {
        let from = if tooth == 0 { 0 } else { 1 };
        let to = if tooth + 1 == teeth { 0 } else { 1 };
        put_tooth(alloc, &mut text, tooth, from, to)?;
    }
    text.push_str(more)?;
    text.push_str(";E")?;
    Ok(text)
}

/// The shapes of a comb of 500 teeth, in half centimicrons: the back, and then the teeth.
fn comb_shapes(alloc: Global) -> Result<String, AllocError> {
    let mut text = String::new(alloc);
    text.push_str("NM 0 0 1998 2;")?;
    for tooth in 0..500u16 {
        let left = 4 * u32::from(tooth);
        text.push_str(format!(in alloc; "NM {left} 0 {} 4;", left + 2)?.as_str())?;
    }
    Ok(text)
}

/// Whether a text of wires, polygons and layers reads as it is written, and gives this.
fn is_given(alloc: Global, text: &str, want: &str) -> Result<bool, AllocError> {
    Ok(
        is_shown(alloc, text.as_bytes(), text.as_bytes())?
            && shown(alloc, text.as_bytes())?.as_slice() == want.as_bytes(),
    )
}

#[test]
fn a_comb_of_2_000_points_is_read(rt: HostRuntime) -> Result<(), Fail> {
    let shapes = comb_shapes(rt.alloc())?;
    let text = comb(rt.alloc(), 500, "")?;
    assert!(rt; is_given(rt.alloc(), text.as_str(), shapes.as_str())?);
    let longer = comb(rt.alloc(), 500, " 0 0")?;
    assert!(rt; is_given(rt.alloc(), longer.as_str(), "LongPath 1")?);
    Ok(())
}

/// What stands behind 22 definitions, of which the last has 2^21 boxes: so many calls give 3,999,999 shapes. Then there is a polygon of two maximal blocks and six
/// points, without a layer.
const FULL: &str =
    "DS 99;C 22;C 21;C 20;C 19;C 17;C 12;C 8;C 7;C 6;C 5;C 4;C 3;C 2;C 1;P 0 0 4 0 4 2 2 2 2 4 0 4";

/// Whether this is what comes where the last point is written so many times more.
fn is_full(alloc: Global, times: u16, want: &str) -> Result<bool, AllocError> {
    let mut text = String::from_str(alloc, FULL)?;
    for _ in 0..times {
        text.push_str(" 0 4")?;
    }
    text.push_str(";DF;E")?;
    is_nested(alloc, BOX, 22, true, text.as_str(), want)
}

#[test]
fn a_long_path_is_refused_before_too_many_shapes(rt: HostRuntime) -> Result<(), Fail> {
    assert!(rt; is_full(rt.alloc(), 1_994, "TooMany 103")?);
    assert!(rt; is_full(rt.alloc(), 1_995, "LongPath 103")?);
    Ok(())
}
