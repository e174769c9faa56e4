//! Layouts that are checked with a file for markers.

use crate::check_tests::{JOINED, checked_shelf};
use crate::support::{TWO_JOINED, ended, is_ended, is_ended_in, text_with};
use shelf_io::{MemShelf, MemSink};
use std::alloc::{AllocError, Global};
use std::test::Fail;

/// The words that check with a file for markers.
const MARK: &str = "check|d|r|c|--markers|m";

/// How the file begins.
const FRONT: &str =
    "<?xml version=\"1.0\" encoding=\"utf-8\"?>\n<report-database>\n <description>Findings of cellroute check</description>\n";

/// How it ends where there is nothing wrong.
const NO_ITEMS: &str = "  </cell>\n </cells>\n <items>\n </items>\n</report-database>\n";

/// How it ends where the wire of the two buffers is narrow.
const NARROW: &str = "\
  </cell>
 </cells>
 <items>
  <item>
   <tags/>
   <category>Narrow</category>
   <cell>CIF_TOP</cell>
   <visited>false</visited>
   <multiplicity>1</multiplicity>
   <image/>
   <values>
    <value>text: 'Narrow 6'</value>
    <value>box: (2.000,55.000;14.000,57.000)</value>
   </values>
  </item>
 </items>
</report-database>
";

// The layout of two joined buffers whose wire is too narrow.
fn narrow(alloc: Global) -> Result<String, AllocError> {
    text_with(
        alloc,
        TWO_JOINED,
        "B 1200 300 800 5600",
        "B 1200 200 800 5600",
    )
}

// Whether the file for markers holds a text that ends so.
fn holds_end(shelf: &MemShelf, end: &str) -> bool {
    match shelf.get("m") {
        Some(held) => held.starts_with(FRONT.as_bytes()) && held.ends_with(end.as_bytes()),
        None => false,
    }
}

#[test]
fn what_is_found_is_written_and_printed(rt: HostRuntime) -> Result<(), Fail> {
    let alloc = rt.alloc();
    let mut shelf = checked_shelf(alloc, JOINED, TWO_JOINED)?;
    shelf.set("m", b"before")?;
    assert!(rt; is_ended(alloc, MARK, &mut shelf, 0, "findings 0\n")?);
    assert!(rt; holds_end(&shelf, NO_ITEMS));
    let text = narrow(alloc)?;
    let mut shelf = checked_shelf(alloc, JOINED, text.as_str())?;
    assert!(rt; is_ended(alloc, MARK, &mut shelf, 1, "Narrow 6\nfindings 1\n")?);
    assert!(rt; holds_end(&shelf, NARROW));
    assert!(rt; shelf.get("c") == Some(text.as_bytes()));
    Ok(())
}

#[test]
fn without_the_option_nothing_is_written(rt: HostRuntime) -> Result<(), Fail> {
    let text = narrow(rt.alloc())?;
    let mut shelf = checked_shelf(rt.alloc(), JOINED, text.as_str())?;
    assert!(rt;
        is_ended(
            rt.alloc(),
            "check|d|r|c",
            &mut shelf,
            1,
            "Narrow 6\nfindings 1\n"
        )?
    );
    assert!(rt; shelf.get("m").is_none());
    Ok(())
}

/// Words with a file for markers, and the status and the line with which they are refused.
const REFUSED: [(&str, u8, &str); 6] = [
    ("check|d|r|c|--markers", 2, "usage\n"),
    ("check|d|r|c|--markers|m|--markers|n", 2, "usage\n"),
    ("check|d|r|--markers|m", 2, "usage\n"),
    ("route|d|r|o|--markers|m", 2, "usage\n"),
    ("check|d|d|c|--markers|m", 4, "rules Toml\n"),
    ("check|d|r|d|--markers|m", 7, "cif BadCommand 0\n"),
];

#[test]
fn a_command_that_is_refused_leaves_the_file(rt: HostRuntime) -> Result<(), Fail> {
    for (words, status, line) in REFUSED {
        let mut shelf = checked_shelf(rt.alloc(), JOINED, TWO_JOINED)?;
        shelf.set("m", b"before")?;
        assert!(rt;
            is_ended(rt.alloc(), words, &mut shelf, status, line)?,
            "{words}"
        );
        assert!(rt; shelf.get("m") == Some(b"before".as_slice()), "{words}");
    }
    Ok(())
}

#[test]
fn a_file_that_cannot_be_written(rt: HostRuntime) -> Result<(), Fail> {
    let alloc = rt.alloc();
    let text = narrow(alloc)?;
    let mut whole = checked_shelf(alloc, JOINED, text.as_str())?;
    assert!(rt; is_ended(alloc, MARK, &mut whole, 1, "Narrow 6\nfindings 1\n")?);
    let want = whole.get("m").unwrap_or(b"");
    let mut unread = 0u32;
    let mut unwritten = 0u32;
    for call in 0..40u64 {
        let mut shelf = checked_shelf(alloc, JOINED, text.as_str())?;
        shelf.set("m", b"before")?;
        shelf.most(1000);
        shelf.fail_at(call)?;
        let mut out = MemSink::new(alloc)?;
        let status = ended(alloc, MARK, &mut shelf, &mut out)?.status;
        let held = shelf.get("m").unwrap_or(b"");
        match status {
            1 => assert!(rt; held == want && out.bytes() == b"Narrow 6\nfindings 1\n".as_slice()),
            8 => {
                unread = unread.saturating_add(1);
                assert!(rt;
                    held == b"before".as_slice() && out.bytes() == b"read fault\n".as_slice()
                );
            }
            9 => {
                unwritten = unwritten.saturating_add(1);
                assert!(rt; held == b"before".as_slice() || want.starts_with(held));
                assert!(rt; out.bytes() == b"write fault\n".as_slice());
            }
            _ => assert!(rt; false, "{status}"),
        }
    }
    assert!(rt; unread > 0 && unwritten > 1, "{unread} {unwritten}");
    Ok(())
}

#[test]
fn a_sink_that_fails_leaves_the_file_whole(rt: HostRuntime) -> Result<(), Fail> {
    let alloc = rt.alloc();
    let text = narrow(alloc)?;
    let mut shelf = checked_shelf(alloc, JOINED, text.as_str())?;
    let mut out = MemSink::new(alloc)?;
    out.fail_at(0)?;
    assert!(rt; is_ended_in(alloc, MARK, &mut shelf, &mut out, 9, "write fault\n")?);
    assert!(rt; holds_end(&shelf, NARROW));
    Ok(())
}
