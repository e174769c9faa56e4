//! Names with bytes that mean something in XML, or that do not show.

use crate::drawn::{Drawn, Named, PLAIN, layout_of, picture_text};
use std::test::Fail;

/// A shape that is wide enough for names of up to 99 letters.
const WIDE: [Drawn; 1] = [("NM", [0, 0, 10_000, 1000])];

/// A name, and how it stands in the picture.
const NAMES: [(&[u8], &str); 8] = [
    (b"u1", "u1"),
    (b"<", "&lt;"),
    (b">", "&gt;"),
    (b"&amp;", "&amp;amp;"),
    (b"\"'", "&quot;&apos;"),
    (b"]]></title><script>", "]]&gt;&lt;/title&gt;&lt;script&gt;"),
    (b"\x00\x01\x08\n\x0b\r\x1f", "???????"),
    (b"\t ~\\\x7f\x80\xc2\xb5\xff", "  ~\\?????"),
];

#[test]
fn names_are_escaped(rt: HostRuntime) -> Result<(), Fail> {
    for (name, shown) in NAMES {
        let cells: [Named<'_>; 1] = [(name, 0, 1)];
        let layout = layout_of(rt.alloc(), &WIDE, &cells)?;
        let text = picture_text(rt.alloc(), &layout, PLAIN)?;
        let title = format!(in rt.alloc(); "     <title>{shown}</title>\n")?;
        let within = format!(in rt.alloc(); " font-size=\"0.420\">{shown}</text>\n    </g>\n")?;
        assert!(rt; text.as_str().contains(title.as_str()), "{shown}");
        assert!(rt; text.as_str().contains(within.as_str()), "{shown}");
    }
    Ok(())
}

/// How high a cell of 12,000 half centimicrons' width is, in half centimicrons, and whether it has room for ten letters.
const HEIGHTS: [(i64, bool); 4] = [
    (1, true),
    (23_999, true),
    (24_000, false),
    (1_000_000, false),
];

#[test]
fn a_name_that_just_fits(rt: HostRuntime) -> Result<(), Fail> {
    for (height, fits) in HEIGHTS {
        let shapes: [Drawn; 1] = [("NM", [0, 0, 12_000, height])];
        let cells: [Named<'_>; 1] = [(b"0123456789", 0, 1)];
        let layout = layout_of(rt.alloc(), &shapes, &cells)?;
        let text = picture_text(rt.alloc(), &layout, PLAIN)?;
        assert_eq!(rt;
            text.as_str().contains(">0123456789</text>"),
            fits,
            "{height}"
        );
        assert!(rt; text.as_str().contains("<title>0123456789</title>"));
    }
    Ok(())
}
