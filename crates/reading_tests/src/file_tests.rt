//! What no clause says of real files and standard output: what they hold after what is put.

use crate::shelf_tests::{is_loaded, loading, numbered, put_all};
use shelf_io::{Failed, HostShelf, HostSink, Shelf, Sink};
use std::alloc::{AllocError, Global};
use std::path::PathBuf;
use std::test::Fail;
use std::{env, fs, io, process};

/// A path for this process alone, which ends with this word.
fn own_path(rt: &HostRuntime, word: &str) -> io::Result<PathBuf> {
    let name = format!(in rt.alloc(); "shelf_io-test-{}-{word}", process::id(rt.process()))?;
    Ok(env::temp_dir(rt)?.join(rt.alloc(), name.as_str())?)
}

/// Whether nothing is loaded from a path or put there.
fn is_lacking<S: Shelf>(alloc: Global, shelf: &mut S, path: &str) -> bool {
    loading(alloc, shelf, path, 5000, b"") == "read fault" && shelf.put(path, b"x") == Err(Failed)
}

/// Whether a path is begun and a text put there.
fn is_written<S: Shelf>(shelf: &mut S, path: &str, text: &[u8]) -> bool {
    shelf.begin(path) == Ok(()) && put_all(shelf, path, text) == Ok(())
}

/// Whether a path that lacks a file holds the text that was put last.
fn holds_the_last<S: Shelf>(alloc: Global, shelf: &mut S, path: &str) -> Result<bool, AllocError> {
    let text = numbered(alloc, 5000)?;
    Ok(
        is_lacking(alloc, shelf, path)
            && is_written(shelf, path, b"old")
            && is_written(shelf, path, text.as_slice())
            && is_loaded(alloc, shelf, path, text.as_slice()),
    )
}

/// Whether each of two begun files holds what was put to it, where they are put to in turn, a byte
/// to the first and two to the second.
fn hold_their_turns<S: Shelf>(
    alloc: Global,
    shelf: &mut S,
    first: &str,
    second: &str,
) -> Result<bool, AllocError> {
    let ones = numbered(alloc, 100)?;
    let twos = numbered(alloc, 200)?;
    for (one, two) in ones.as_slice().chunks(1).zip(twos.as_slice().chunks(2)) {
        if shelf.put(first, one) != Ok(1) || shelf.put(second, two) != Ok(2) {
            return Ok(false);
        }
    }
    Ok(
        is_loaded(alloc, shelf, first, ones.as_slice())
            && is_loaded(alloc, shelf, second, twos.as_slice()),
    )
}

/// Whether all of some bytes are put one by one.
fn are_put<S: Shelf>(shelf: &mut S, path: &str, bytes: &[u8]) -> bool {
    for byte in bytes.chunks(1) {
        if shelf.put(path, byte) != Ok(1) {
            return false;
        }
    }
    true
}

/// Whether a begun file holds what is put to it byte by byte, and what is put behind it once it was
/// loaded. Numbered bytes begin anew after 251.
fn holds_each_byte<S: Shelf>(alloc: Global, shelf: &mut S, path: &str) -> Result<bool, AllocError> {
    let half = numbered(alloc, 8 * 251)?;
    let whole = numbered(alloc, 16 * 251)?;
    Ok(
        are_put(shelf, path, half.as_slice())
            && is_loaded(alloc, shelf, path, half.as_slice())
            && are_put(shelf, path, half.as_slice())
            && is_loaded(alloc, shelf, path, whole.as_slice()),
    )
}

/// Whether two paths that lack files hold what is put to them in turn, and one of them, begun anew, byte by byte.
fn hold_puts<S: Shelf>(
    alloc: Global,
    shelf: &mut S,
    first: &str,
    second: &str,
) -> Result<bool, AllocError> {
    Ok(
        shelf.begin(first) == Ok(())
            && shelf.begin(second) == Ok(())
            && hold_their_turns(alloc, shelf, first, second)?
            && shelf.begin(first) == Ok(())
            && holds_each_byte(alloc, shelf, first)?,
    )
}

#[test]
fn real_files_hold_what_is_put(rt: HostRuntime) -> Result<(), Fail> {
    assert!(rt; HostSink::new(&rt).put(b"a line\n") == Ok(7));
    let path = own_path(&rt, "file")?;
    let holds = holds_the_last(
        rt.alloc(),
        &mut HostShelf::new(rt.alloc(), &rt),
        path.as_str(),
    );
    fs::remove_file(&rt, path.as_path())?;
    assert!(rt; holds?);
    Ok(())
}

#[test]
fn real_files_hold_what_is_put_in_turn(rt: HostRuntime) -> Result<(), Fail> {
    let first = own_path(&rt, "first")?;
    let second = own_path(&rt, "second")?;
    let hold = hold_puts(
        rt.alloc(),
        &mut HostShelf::new(rt.alloc(), &rt),
        first.as_str(),
        second.as_str(),
    );
    fs::remove_file(&rt, first.as_path())?;
    fs::remove_file(&rt, second.as_path())?;
    assert!(rt; hold?);
    Ok(())
}
