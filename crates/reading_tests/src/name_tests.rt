//! Names in the order of their first mention.

use indexmap::IndexSet;
use list_facts::{is_among, is_new, number, place_of};
use std::test::Fail;

/// Whether names are numbered by their first mention.
fn are_numbered(names: &mut IndexSet<&[u8]>) -> bool {
    number(names, b"b") == Ok(0)
        && number(names, b"a") == Ok(1)
        && number(names, b"b") == Ok(0)
        && number(names, b"ab") == Ok(2)
        && number(names, b"") == Ok(3)
        && number(names, b"a") == Ok(1)
        && is_new(names, b"ab") == Ok(false)
        && is_new(names, b"abc") == Ok(true)
}

/// Whether the names b, a, ab, the empty one and abc have their places.
fn are_placed(names: &IndexSet<&[u8]>) -> bool {
    place_of(names, b"abc") == 4
        && place_of(names, b"c") == 5
        && is_among(names, b"")
        && !is_among(names, b"c")
}

#[test]
fn names_are_numbered_by_their_first_mention(rt: HostRuntime) -> Result<(), Fail> {
    let mut names = IndexSet::new(rt.alloc());
    assert!(rt; are_numbered(&mut names));
    assert!(rt; are_placed(&names));
    Ok(())
}
