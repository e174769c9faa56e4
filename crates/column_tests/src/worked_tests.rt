//! Records of small channels under the nearest and the last candidate, column by column.

use crate::chooser_tests::{last_chooser, nearest_chooser};
use crate::column_tables::{Case, NOTHING, Wanted, first_other_counted, first_unlike};
use choose_core::Manner;
use std::cell::Cell;
use std::rc::Rc;
use std::test::Fail;

// The channel with bottom pins 1, 2 and top pins 2, 1: two columns and one past the end.
const CROSSED: [Wanted<'static>; 3] = [
    CROSSED_FIRST,
    CROSSED_SECOND,
    Wanted {
        joins: &[(1, 3)],
        ended: &[1, 3],
        ..NOTHING
    },
];

const CROSSED_FIRST: Wanted<'static> = Wanted {
    made: &[(1, 0), (2, 1)],
    top: 2,
    bottom: 1,
    ..NOTHING
};

const CROSSED_SECOND: Wanted<'static> = Wanted {
    made: &[(3, 2)],
    top: 3,
    bottom: 2,
    ended: &[2],
    ..NOTHING
};

// Two equal pins, with a later pin of their net: it enters a track.
const EQUAL: [Wanted<'static>; 2] = [
    Wanted {
        made: &[(1, 0)],
        top: 1,
        straight: true,
        ..NOTHING
    },
    Wanted {
        top: 1,
        ended: &[1],
        ..NOTHING
    },
];

// The same with no later pin and without a track: it takes none.
const EQUAL_ALONE: [Wanted<'static>; 1] = [Wanted {
    straight: true,
    ..NOTHING
}];

// Two equal pins of a net that is split join all its tracks, and no join is picked.
const EQUAL_OF_A_SPLIT_NET: [Wanted<'static>; 3] = [
    CROSSED_FIRST,
    CROSSED_SECOND,
    Wanted {
        straight: true,
        ended: &[1, 3],
        ..NOTHING
    },
];

// The top pin gets a new track above the one that the bottom pin enters; then it takes its own, which is the nearest.
const NEW_FOR_THE_TOP: [Wanted<'static>; 3] = [
    Wanted {
        made: &[(1, 0)],
        bottom: 1,
        ..NOTHING
    },
    Wanted {
        made: &[(2, 1)],
        top: 2,
        bottom: 1,
        ended: &[1],
        ..NOTHING
    },
    Wanted {
        top: 2,
        ended: &[2],
        ..NOTHING
    },
];

// The bottom pin gets a new track below the one that the top pin enters. Then, under the last candidate, it crosses its own
// track to the free one above it, and both end: track 2 lies below track 1, and they are told by their ids.
const NEW_FOR_THE_BOTTOM: [Wanted<'static>; 3] = [
    Wanted {
        made: &[(1, 0)],
        top: 1,
        ..NOTHING
    },
    Wanted {
        made: &[(2, 0)],
        top: 1,
        bottom: 2,
        ended: &[1],
        ..NOTHING
    },
    Wanted {
        bottom: 1,
        ended: &[1, 2],
        ..NOTHING
    },
];

// Two nets enter new tracks, and the upper one ends in the next column.
const BOTH: Wanted<'static> = Wanted {
    made: &[(1, 0), (2, 1)],
    top: 2,
    bottom: 1,
    ..NOTHING
};

const END: Wanted<'static> = Wanted {
    top: 2,
    ended: &[2],
    ..NOTHING
};

// Then the kept track moves to the free one under the last candidate.
const MOVING: [Wanted<'static>; 4] = [
    BOTH,
    END,
    Wanted {
        moves: &[(1, 2)],
        ..NOTHING
    },
    END,
];

// It stays under the nearest, and is joined later.
const STAYING: [Wanted<'static>; 4] = [
    BOTH,
    END,
    NOTHING,
    Wanted {
        top: 2,
        joins: &[(1, 2)],
        ended: &[1, 2],
        ..NOTHING
    },
];

const UNDER_THE_NEAREST: [Case<'static>; 6] = [
    Case {
        top: &[2, 1],
        bottom: &[1, 2],
        begun: 0,
        wanted: &CROSSED,
    },
    Case {
        top: &[1, 1],
        bottom: &[1, 0],
        begun: 0,
        wanted: &EQUAL,
    },
    Case {
        top: &[1],
        bottom: &[1],
        begun: 0,
        wanted: &EQUAL_ALONE,
    },
    Case {
        top: &[2, 1, 1],
        bottom: &[1, 2, 1],
        begun: 0,
        wanted: &EQUAL_OF_A_SPLIT_NET,
    },
    Case {
        top: &[0, 2, 2],
        bottom: &[1, 1, 0],
        begun: 0,
        wanted: &NEW_FOR_THE_TOP,
    },
    Case {
        top: &[2, 2, 0, 1],
        bottom: &[1, 0, 0, 0],
        begun: 0,
        wanted: &STAYING,
    },
];

const UNDER_THE_LAST: [Case<'static>; 3] = [
    Case {
        top: &[2, 1],
        bottom: &[1, 2],
        begun: 0,
        wanted: &CROSSED,
    },
    Case {
        top: &[1, 1, 0],
        bottom: &[0, 2, 2],
        begun: 0,
        wanted: &NEW_FOR_THE_BOTTOM,
    },
    Case {
        top: &[2, 2, 0, 1],
        bottom: &[1, 0, 0, 0],
        begun: 0,
        wanted: &MOVING,
    },
];

#[test]
fn small_channels_under_the_nearest(rt: HostRuntime) -> Result<(), Fail> {
    let chooser = nearest_chooser(rt.alloc())?;
    assert_eq!(rt;
        first_unlike(rt.alloc(), Manner::Published, &chooser, &UNDER_THE_NEAREST)?,
        6
    );
    Ok(())
}

#[test]
fn small_channels_under_the_last(rt: HostRuntime) -> Result<(), Fail> {
    let chooser = last_chooser(rt.alloc())?;
    assert_eq!(rt;
        first_unlike(rt.alloc(), Manner::Published, &chooser, &UNDER_THE_LAST)?,
        3
    );
    Ok(())
}

// Of the crossed channel's choices two are asked: the bottom pin of column 1, and the join past the end.
#[test]
fn a_chooser_is_asked_at_each_choice(rt: HostRuntime) -> Result<(), Fail> {
    let calls = Rc::new(rt.alloc(), Cell::new(0))?;
    assert_eq!(rt;
        first_other_counted(rt.alloc(), &calls, &[2, 1], &[1, 2], &CROSSED)?,
        3
    );
    assert_eq!(rt; calls.get(), 2);
    Ok(())
}
