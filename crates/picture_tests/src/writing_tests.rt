//! Pictures that are written into files.

use crate::drawn::{PLAIN, layout_of, picture_text};
use crate::whole_tests::{CELLS, SHAPES};
use layout_picture::{Picture, write_picture};
use shelf_io::{Failed, MemShelf};
use std::test::Fail;

#[test]
fn a_file_holds_its_picture(rt: HostRuntime) -> Result<(), Fail> {
    let layout = layout_of(rt.alloc(), &SHAPES, &CELLS)?;
    let picture = Picture::new(rt.alloc(), &layout, PLAIN)?;
    let want = picture_text(rt.alloc(), &layout, PLAIN)?;
    let mut shelf = MemShelf::new(rt.alloc())?;
    shelf.set("p.svg", b"before")?;
    shelf.set("other", b"kept")?;
    assert_eq!(rt; write_picture(&mut shelf, "p.svg", &picture), Ok(()));
    assert!(rt; shelf.get("p.svg") == Some(want.as_bytes()));
    assert!(rt; shelf.get("other") == Some(b"kept".as_slice()));
    Ok(())
}

/// The call that fails: the file's beginning, its first piece, or the rest behind it; and how many bytes the file holds then.
const FAILING: [(u64, usize); 3] = [(0, 6), (1, 0), (2, 1000)];

#[test]
fn a_file_that_cannot_be_written_whole(rt: HostRuntime) -> Result<(), Fail> {
    let layout = layout_of(rt.alloc(), &SHAPES, &CELLS)?;
    let picture = Picture::new(rt.alloc(), &layout, PLAIN)?;
    let want = picture_text(rt.alloc(), &layout, PLAIN)?;
    for (call, length) in FAILING {
        let mut shelf = MemShelf::new(rt.alloc())?;
        shelf.set("p.svg", b"before")?;
        shelf.most(1000);
        shelf.fail_at(call)?;
        assert_eq!(rt; write_picture(&mut shelf, "p.svg", &picture), Err(Failed));
        let held = shelf.get("p.svg").unwrap_or(b"");
        assert_eq!(rt; held.len(), length);
        assert!(rt; held == b"before".as_slice() || want.as_bytes().starts_with(held));
    }
    Ok(())
}
