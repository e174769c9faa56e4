//! Lists, names and layers.

use geom_core::{Items, LayerName, Name, Rect, Turn, gap, inside, moved, touch};
use std::test::Fail;

/// Whether a list of 3, 1 and 2 lends each of them to be written.
fn are_lent(items: &mut Items<u32>) -> bool {
    let kept = items.items() == [3, 1, 2].as_slice();
    for n in items.items_mut() {
        *n = 7;
    }
    kept && items.items() == [7, 7, 7].as_slice()
}

/// Whether a name is equal to its copy until its bytes are written.
fn is_lent(name: &mut Name, copy: &Name) -> bool {
    let equal = *name == *copy;
    for byte in name.items_mut() {
        *byte = b'x';
    }
    equal && name.items() == b"xx".as_slice() && copy.items() == b"u1".as_slice() && *name != *copy
}

#[test]
fn lists_and_names_keep_and_lend_their_items(rt: HostRuntime) -> Result<(), Fail> {
    let mut items = Items::new([3u32, 1, 2].to_vec(rt.alloc())?);
    assert!(rt; are_lent(&mut items));
    let mut name = Name::new(b"u1".to_vec(rt.alloc())?);
    let copy = name.copied(rt.alloc())?;
    assert!(rt; is_lent(&mut name, &copy));
    Ok(())
}

/// Bytes, and whether they are a layer name.
const LAYER_NAMES: [(&[u8], bool); 9] = [
    (b"NM", true),
    (b"N", true),
    (b"0AZ9", true),
    (b"", false),
    (b"NMNPX", false),
    (b"nm", false),
    (b"N ", false),
    (b"N-", false),
    (b"\xc4", false),
];

/// Whether bytes are the text of a layer name, or are none, as is wanted.
fn is_layer_name(bytes: &[u8], wanted: bool) -> bool {
    match LayerName::new(bytes) {
        Some(layer) => wanted && layer.text() == bytes,
        None => !wanted,
    }
}

#[test]
fn layer_names_are_one_to_four_digits_or_capitals(rt: HostRuntime) {
    for (bytes, wanted) in LAYER_NAMES {
        assert!(rt; is_layer_name(bytes, wanted));
    }
}

/// Whether two rectangles that share a corner touch, and one that is far from the first does not.
fn have_gaps() -> bool {
    let first = Rect {
        x0: 0,
        y0: 0,
        x1: 2,
        y1: 2,
    };
    let corner = Rect {
        x0: 2,
        y0: 2,
        x1: 4,
        y1: 4,
    };
    let far = Rect {
        x0: 3,
        y0: 5,
        x1: 4,
        y1: 6,
    };
    touch(&first, &corner)
        && !touch(&first, &far)
        && gap(&first, &corner) == (0, 0)
        && gap(&first, &far) == (1, 3)
        && !inside(&first, &corner)
        && inside(&first, &first)
}

#[test]
fn rectangles_touch_and_have_gaps(rt: HostRuntime) {
    assert!(rt; have_gaps());
}

/// Whether the box of `B 2 4 5 2` lies where the calls `C 1 M X T 12 0` and `C 1 R 0 1` move it.
fn is_moved() -> bool {
    let rect = Rect {
        x0: 8,
        y0: 0,
        x1: 12,
        y1: 8,
    };
    let flipped = Turn {
        flip: true,
        quarters: 0,
        dx: 24,
        dy: 0,
    };
    let right = Rect {
        x0: 12,
        y0: 0,
        x1: 16,
        y1: 8,
    };
    let turned = Turn {
        flip: false,
        quarters: 1,
        dx: 0,
        dy: 0,
    };
    let left = Rect {
        x0: -8,
        y0: 8,
        x1: 0,
        y1: 12,
    };
    moved(&rect, &flipped) == right && moved(&rect, &turned) == left
}

#[test]
fn a_rectangle_is_moved(rt: HostRuntime) {
    assert!(rt; is_moved());
}
