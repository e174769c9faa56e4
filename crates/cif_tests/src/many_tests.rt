//! 100,000 definitions whose numbers descend, and as many calls.

use crate::expansion_tests::expanded;
use geom_core::Layout;
use std::alloc::{AllocError, Global};
use std::test::Fail;

/// Puts a definition of a box, which calls the definition with the next number where its own is odd.
fn put_definition(alloc: Global, text: &mut String, n: u32) -> Result<(), AllocError> {
    text.push_str(format!(in alloc; "DS {n};L NM;B 2 2 0 0;")?.as_str())?;
    if n % 2 == 1 {
        text.push_str(format!(in alloc; "C {};", n.saturating_add(1))?.as_str())?;
    }
    text.push_str("DF;")
}

/// Puts the call of a definition, as many units to the right as its number says.
fn put_call(alloc: Global, text: &mut String, n: u32) -> Result<(), AllocError> {
    text.push_str(format!(in alloc; "C {n} T {n} 0;")?.as_str())
}

/// Such definitions from number 100,000 down, and then a call of each, from number 1 on.
fn long_text(alloc: Global) -> Result<String, AllocError> {
    let mut text = String::new(alloc);
    for k in 0..100_000u32 {
        put_definition(alloc, &mut text, 100_000 - k)?;
    }
    for n in 1..=100_000u32 {
        put_call(alloc, &mut text, n)?;
    }
    text.push_str("E")?;
    Ok(text)
}

/// Whether the shape of this number begins so far right.
fn begins_at(layout: &Layout, number: usize, x0: i64) -> bool {
    match layout.shapes.items().get(number) {
        Some(shape) => shape.rect.x0 == x0,
        None => false,
    }
}

// Numbers 2k + 1 and 2k + 2 show three shapes, of which each begins two half centimicrons left of its call's offset.
#[test]
fn many_symbols_are_found(rt: HostRuntime) -> Result<(), Fail> {
    let text = long_text(rt.alloc())?;
    let Some(Ok(layout)) = expanded(rt.alloc(), text.as_bytes())? else {
        assert!(rt; false);
        return Ok(());
    };
    assert_eq!(rt; layout.shapes.items().len(), 150_000);
    assert_eq!(rt; layout.cells.items().len(), 0);
    for k in 0..50_000u32 {
        let first = 3 * k as usize;
        let x0 = 4 * i64::from(k);
        assert!(rt; begins_at(&layout, first, x0));
        assert!(rt; begins_at(&layout, first + 1, x0));
        assert!(rt; begins_at(&layout, first + 2, x0 + 2));
    }
    Ok(())
}
