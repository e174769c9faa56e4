//! The picture of two cells that a wire joins, byte for byte.

use crate::drawn::{Drawn, Named, PLAIN, layout_of, picture_text, sample_roles};
use layout_picture::View;
use samples::JOINED_PICTURE;
use std::test::Fail;

/// Two cells of 8 by 40 microns that stand side by side 8 microns above 0, each with a pin at its upper edge, and the wire above them that joins the pins.
pub(crate) const SHAPES: [Drawn; 13] = [
    ("XP", [0, 1600, 1600, 9600]),
    ("NP", [500, 8800, 1100, 9600]),
    ("XP", [1600, 1600, 3200, 9600]),
    ("NP", [2100, 8800, 2700, 9600]),
    ("NP", [500, 9600, 1100, 11600]),
    ("NP", [2100, 9600, 2700, 11600]),
    ("NM", [400, 10900, 2800, 11500]),
    ("NM", [400, 10800, 1200, 11600]),
    ("NP", [400, 10800, 1200, 11600]),
    ("NC", [600, 11000, 1000, 11400]),
    ("NM", [2000, 10800, 2800, 11600]),
    ("NP", [2000, 10800, 2800, 11600]),
    ("NC", [2200, 11000, 2600, 11400]),
];

pub(crate) const CELLS: [Named<'static>; 2] = [(b"u1", 0, 2), (b"u2", 2, 2)];

#[test]
fn two_joined_cells(rt: HostRuntime) -> Result<(), Fail> {
    let layout = layout_of(rt.alloc(), &SHAPES, &CELLS)?;
    let view = View {
        part: None,
        roles: Some(sample_roles()?),
    };
    let text = picture_text(rt.alloc(), &layout, view)?;
    assert_eq!(rt; text.as_str(), JOINED_PICTURE);
    Ok(())
}

/// How the legend names the first two layers where nothing is known of them.
const UNKNOWN: &str = "&#9632;</tspan> XP
  <tspan class=\"layer-NP\" x=\"1010\" dy=\"20\">&#9632;</tspan> NP
";

#[test]
fn layers_of_which_nothing_is_known(rt: HostRuntime) -> Result<(), Fail> {
    let layout = layout_of(rt.alloc(), &SHAPES, &CELLS)?;
    let text = picture_text(rt.alloc(), &layout, PLAIN)?;
    assert!(rt; text.as_str().contains(UNKNOWN));
    Ok(())
}
