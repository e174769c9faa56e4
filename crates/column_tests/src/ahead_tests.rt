//! Records of small channels under `deft` in the manner that looks ahead, column by column, from no track and from as many free ones as
//! nets cross one place.

use crate::chooser_tests::deft_chooser;
use crate::column_tables::{Case, NOTHING, Wanted, first_unlike};
use crate::long_channel::{FOURTEEN_BOTTOM, FOURTEEN_FROM_FIVE, FOURTEEN_FROM_NONE, FOURTEEN_TOP};
use choose_core::Manner;
use std::test::Fail;

// A channel of two columns.
const CROSSED_TOP: &[u32] = &[2, 1];

const CROSSED_BOTTOM: &[u32] = &[1, 2];

const CROSSED_FROM_NONE: [Wanted<'static>; 3] = [
    Wanted {
        made: &[(1, 0), (2, 1)],
        top: 2,
        bottom: 1,
        ..NOTHING
    },
    Wanted {
        made: &[(3, 2)],
        top: 3,
        bottom: 2,
        ended: &[2],
        ..NOTHING
    },
    Wanted {
        joins: &[(1, 3)],
        ended: &[1, 3],
        ..NOTHING
    },
];

const CROSSED_FROM_TWO: [Wanted<'static>; 3] = [
    Wanted {
        top: 2,
        bottom: 1,
        ..NOTHING
    },
    Wanted {
        made: &[(3, 2)],
        top: 3,
        bottom: 2,
        ended: &[2],
        ..NOTHING
    },
    Wanted {
        joins: &[(1, 3)],
        ended: &[1, 3],
        ..NOTHING
    },
];

// A channel of ten columns.
const TEN_TOP: &[u32] = &[1, 3, 5, 4, 0, 2, 2, 5, 0, 2];

const TEN_BOTTOM: &[u32] = &[0, 3, 2, 5, 2, 5, 5, 4, 2, 1];

const TEN_FROM_NONE: [Wanted<'static>; 11] = [
    Wanted {
        made: &[(1, 0)],
        top: 1,
        ..NOTHING
    },
    Wanted {
        straight: true,
        ..NOTHING
    },
    Wanted {
        made: &[(2, 0), (3, 1)],
        top: 3,
        bottom: 2,
        ..NOTHING
    },
    Wanted {
        made: &[(4, 2)],
        top: 4,
        bottom: 3,
        ..NOTHING
    },
    Wanted {
        bottom: 2,
        ..NOTHING
    },
    Wanted {
        made: &[(5, 4)],
        top: 5,
        bottom: 3,
        ..NOTHING
    },
    Wanted {
        top: 5,
        bottom: 3,
        ..NOTHING
    },
    Wanted {
        made: &[(6, 5)],
        top: 6,
        bottom: 4,
        ended: &[4],
        ..NOTHING
    },
    Wanted {
        bottom: 5,
        ended: &[2],
        ..NOTHING
    },
    Wanted {
        top: 5,
        bottom: 1,
        ended: &[1, 5],
        ..NOTHING
    },
    Wanted {
        joins: &[(3, 6)],
        ended: &[3, 6],
        ..NOTHING
    },
];

const TEN_FROM_FOUR: [Wanted<'static>; 11] = [
    Wanted {
        top: 4,
        moves: &[(4, 1)],
        ..NOTHING
    },
    Wanted {
        straight: true,
        ..NOTHING
    },
    Wanted {
        top: 4,
        bottom: 2,
        moves: &[(4, 3)],
        ..NOTHING
    },
    Wanted {
        top: 4,
        bottom: 3,
        ..NOTHING
    },
    Wanted {
        bottom: 2,
        ..NOTHING
    },
    Wanted {
        made: &[(5, 4)],
        top: 5,
        bottom: 3,
        ..NOTHING
    },
    Wanted {
        top: 5,
        bottom: 3,
        ..NOTHING
    },
    Wanted {
        made: &[(6, 5)],
        top: 6,
        bottom: 4,
        ended: &[4],
        ..NOTHING
    },
    Wanted {
        bottom: 5,
        ended: &[2],
        ..NOTHING
    },
    Wanted {
        top: 5,
        bottom: 1,
        ended: &[1, 5],
        ..NOTHING
    },
    Wanted {
        joins: &[(3, 6)],
        ended: &[3, 6],
        ..NOTHING
    },
];

const LOOKING_AHEAD: [Case<'static>; 6] = [
    Case {
        top: CROSSED_TOP,
        bottom: CROSSED_BOTTOM,
        begun: 0,
        wanted: &CROSSED_FROM_NONE,
    },
    Case {
        top: CROSSED_TOP,
        bottom: CROSSED_BOTTOM,
        begun: 2,
        wanted: &CROSSED_FROM_TWO,
    },
    Case {
        top: TEN_TOP,
        bottom: TEN_BOTTOM,
        begun: 0,
        wanted: &TEN_FROM_NONE,
    },
    Case {
        top: TEN_TOP,
        bottom: TEN_BOTTOM,
        begun: 4,
        wanted: &TEN_FROM_FOUR,
    },
    Case {
        top: FOURTEEN_TOP,
        bottom: FOURTEEN_BOTTOM,
        begun: 0,
        wanted: &FOURTEEN_FROM_NONE,
    },
    Case {
        top: FOURTEEN_TOP,
        bottom: FOURTEEN_BOTTOM,
        begun: 5,
        wanted: &FOURTEEN_FROM_FIVE,
    },
];

#[test]
fn channels_from_no_track_and_from_free_ones(rt: HostRuntime) -> Result<(), Fail> {
    let chooser = deft_chooser(rt.alloc())?;
    assert_eq!(rt;
        first_unlike(rt.alloc(), Manner::LookingAhead, &chooser, &LOOKING_AHEAD)?,
        6
    );
    Ok(())
}
