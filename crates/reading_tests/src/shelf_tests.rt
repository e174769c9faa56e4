//! Each maker and call once on its happy path, and what no clause says: which calls are counted.

use shelf_io::{
    Buffer, Failed, FileSink, LineWord, LoadFault, MemShelf, MemSink, NeverShelf, NeverSink, Shelf,
    Sink, load, put_line,
};
use std::alloc::{AllocError, Global};
use std::test::Fail;

/// Bytes that tell their places apart.
pub(crate) fn numbered(alloc: Global, count: usize) -> Result<Vec<u8>, AllocError> {
    let mut bytes = Vec::new(alloc);
    for i in 0..count {
        bytes.push((i % 251) as u8)?;
    }
    Ok(bytes)
}

/// A shelf with this file.
fn design_shelf(alloc: Global, text: &[u8]) -> Result<MemShelf, AllocError> {
    let mut shelf = MemShelf::new(alloc)?;
    shelf.set("design", text)?;
    Ok(shelf)
}

/// A shelf with this file, whose call of this number fails.
fn marked_shelf(alloc: Global, text: &[u8], mark: u64) -> Result<MemShelf, AllocError> {
    let mut shelf = design_shelf(alloc, text)?;
    shelf.fail_at(mark)?;
    Ok(shelf)
}

/// How a file of at most so many bytes is loaded.
pub(crate) fn loading<S: Shelf>(
    alloc: Global,
    shelf: &mut S,
    name: &str,
    limit: u32,
    text: &[u8],
) -> &'static str {
    match load(alloc, shelf, name, u64::from(limit)) {
        Ok(loaded) => if loaded.as_slice() == text {
            "this text"
        } else {
            "another text"
        },
        Err(LoadFault::ReadFault) => "read fault",
        Err(LoadFault::TooLong) => "too long",
        Err(LoadFault::Memory) => "no memory",
    }
}

/// Whether this text is loaded.
pub(crate) fn is_loaded<S: Shelf>(alloc: Global, shelf: &mut S, name: &str, text: &[u8]) -> bool {
    loading(alloc, shelf, name, 5000, text) == "this text"
}

/// How a shelf with a file of 5,000 bytes under "design" answers where the call of this number fails. It is taken in pieces of 4,096, 904 and 0 bytes.
const LOADS: [(u64, &str, u32, &str); 6] = [
    (0, "design", 5000, "read fault"),
    (1, "design", 5000, "read fault"),
    (2, "design", 5000, "read fault"),
    (3, "design", 5000, "this text"),
    (9, "rules", 5000, "read fault"),
    (9, "design", 4999, "too long"),
];

/// Whether such a shelf answers so.
fn is_loading(
    alloc: Global,
    mark: u64,
    name: &str,
    limit: u32,
    want: &str,
) -> Result<bool, AllocError> {
    let text = numbered(alloc, 5000)?;
    let mut shelf = marked_shelf(alloc, text.as_slice(), mark)?;
    Ok(loading(alloc, &mut shelf, name, limit, text.as_slice()) == want)
}

#[test]
fn load_gives_a_file_or_says_why_not(rt: HostRuntime) -> Result<(), Fail> {
    for (mark, name, limit, want) in LOADS {
        assert!(rt;
            is_loading(rt.alloc(), mark, name, limit, want)?,
            "{name} at {mark}"
        );
    }
    Ok(())
}

/// Puts all of some bytes at the end of a file, through a buffer.
pub(crate) fn put_all<S: Shelf>(shelf: &mut S, name: &str, bytes: &[u8]) -> Result<(), Failed> {
    let mut file = FileSink::new(shelf, name);
    let mut buffer = Buffer::new();
    buffer.append(&mut file, bytes)?;
    buffer.flush(&mut file)
}

/// Whether `begin` and then `put_all` leave so many bytes of a text under "out", and fail where these are not all.
fn is_put(shelf: &mut MemShelf, text: &[u8], put: usize) -> bool {
    if shelf.begin("out").is_err() {
        return false;
    }
    let whole = put_all(shelf, "out", text).is_ok();
    whole == (put == text.len()) && shelf.get("out") == text.get(..put)
}

/// A shelf with an old "out" that takes at most 100 bytes at once, and whose calls of this number and of number 9 fail.
fn short_shelf(alloc: Global, mark: u64) -> Result<MemShelf, AllocError> {
    let mut shelf = MemShelf::new(alloc)?;
    shelf.set("out", b"old")?;
    shelf.most(100);
    shelf.fail_at(mark)?;
    shelf.fail_at(9)?;
    Ok(shelf)
}

/// Whether so many of 250 bytes are put on such a shelf.
fn is_short_put(alloc: Global, mark: u64, put: usize) -> Result<bool, AllocError> {
    let text = numbered(alloc, 250)?;
    let mut shelf = short_shelf(alloc, mark)?;
    Ok(is_put(&mut shelf, text.as_slice(), put))
}

/// An empty shelf whose call of this number fails.
fn empty_shelf(alloc: Global, mark: u64) -> Result<MemShelf, AllocError> {
    let mut shelf = MemShelf::new(alloc)?;
    shelf.fail_at(mark)?;
    Ok(shelf)
}

/// Whether so many of 5,000 bytes are put on such a shelf.
fn is_long_put(alloc: Global, mark: u64, put: usize) -> Result<bool, AllocError> {
    let text = numbered(alloc, 5000)?;
    let mut shelf = empty_shelf(alloc, mark)?;
    Ok(is_put(&mut shelf, text.as_slice(), put))
}

/// `begin` is call 0. The puts of 250 bytes, at most 100 at once, are calls 1 to 3; 5,000 bytes are put in pieces of 4,096 and 904 bytes, calls 1 and 2.
#[test]
fn put_all_puts_a_front_where_a_put_is_marked(rt: HostRuntime) -> Result<(), Fail> {
    for (mark, put) in [(1, 0), (2, 100), (3, 200), (4, 250)] {
        assert!(rt; is_short_put(rt.alloc(), mark, put)?, "at {mark}");
    }
    for (mark, put) in [(1, 0), (2, 4096), (3, 5000)] {
        assert!(rt; is_long_put(rt.alloc(), mark, put)?, "at {mark}");
    }
    Ok(())
}

/// A line is put in one piece: where a sink fails at its second put, it holds the first of two lines, with its words and numbers.
#[test]
fn a_line_is_one_piece(rt: HostRuntime) -> Result<(), Fail> {
    let mut sink = MemSink::new(rt.alloc())?;
    sink.fail_at(1)?;
    let words = [
        LineWord::Text(b"channel"),
        LineWord::Number(0),
        LineWord::Text(b"tracks"),
        LineWord::Number(18446744073709551615),
    ];
    assert!(rt; put_line(&mut sink, &words) == Ok(()));
    assert!(rt; put_line(&mut sink, &words) == Err(Failed));
    assert!(rt; sink.bytes() == b"channel 0 tracks 18446744073709551615\n".as_slice());
    Ok(())
}

/// Whether the third call fails, where a put before `begin` is one.
fn is_third_failed(shelf: &mut MemShelf) -> bool {
    shelf.put("a", b"xyz") == Err(Failed)
        && shelf.begin("a") == Ok(())
        && shelf.begin("a") == Err(Failed)
        && shelf.put("a", b"xyz") == Ok(3)
        && shelf.get("a") == Some(b"xyz".as_slice())
}

/// Whether pieces of "xyz" are taken from where they are asked for.
fn gives_pieces(shelf: &mut MemShelf) -> bool {
    let mut into = [0u8; 2];
    shelf.take("design", 1, &mut into) == Ok(2)
        && into == *b"yz"
        && shelf.take("design", 3, &mut into) == Ok(0)
        && shelf.get("a").is_none()
}

#[test]
fn a_shelf_in_memory_counts_its_calls_and_gives_pieces(rt: HostRuntime) -> Result<(), Fail> {
    let mut shelf = empty_shelf(rt.alloc(), 2)?;
    assert!(rt; is_third_failed(&mut shelf));
    let mut shelf = design_shelf(rt.alloc(), b"xyz")?;
    assert!(rt; gives_pieces(&mut shelf));
    Ok(())
}

/// Whether a sink whose second call fails keeps the first line, and three bytes of the last.
fn keeps_lines(sink: &mut MemSink) -> bool {
    let first = sink.put(b"one\n") == Ok(4) && sink.put(b"two\n") == Err(Failed);
    sink.most(3);
    first && sink.put(b"three\n") == Ok(3) && sink.bytes() == b"one\nthr".as_slice()
}

#[test]
fn a_sink_in_memory_keeps_what_is_put(rt: HostRuntime) -> Result<(), Fail> {
    let mut sink = MemSink::new(rt.alloc())?;
    sink.fail_at(1)?;
    assert!(rt; keeps_lines(&mut sink));
    Ok(())
}

/// A shelf that never fails, with a file "a".
fn never_shelf(alloc: Global) -> Result<NeverShelf, AllocError> {
    let mut shelf = NeverShelf::new(alloc)?;
    shelf.set("a", b"xyz")?;
    Ok(shelf)
}

/// Whether a shelf gives "xyz" once under its one name, and nothing under another.
fn gives_once(alloc: Global, shelf: &mut NeverShelf) -> bool {
    is_loaded(alloc, shelf, "a", b"xyz") && is_loaded(alloc, shelf, "b", b"")
}

/// Whether a shelf takes what is put under its one name and gives nothing of it.
fn drops_puts(alloc: Global, shelf: &mut NeverShelf) -> bool {
    put_all(shelf, "a", b"more") == Ok(())
        && is_loaded(alloc, shelf, "a", b"")
        && shelf.begin("b") == Ok(())
}

#[test]
fn what_never_fails_gives_a_file_once_and_drops_what_is_put(rt: HostRuntime) -> Result<(), Fail> {
    assert!(rt; NeverSink::new().put(b"line\n") == Ok(5));
    let mut shelf = never_shelf(rt.alloc())?;
    assert!(rt; gives_once(rt.alloc(), &mut shelf));
    let mut shelf = never_shelf(rt.alloc())?;
    assert!(rt; drops_puts(rt.alloc(), &mut shelf));
    Ok(())
}
