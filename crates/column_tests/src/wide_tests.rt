//! Records of columns of more tracks: each case in which pins enter them, split tracks that are joined, and a column of
//! thousands.

ghost use Rattle.greedy_column.specs.Ahead.{IsAhead};
ghost use Rattle.std.specs.Prelude.{◌<◌};

use crate::chooser_tests::{counting_chooser, nearest_chooser};
use crate::column_tables::{NOTHING, Wanted, first_other, first_other_counted, next_is};
use channel_model::Channel;
use choose_core::{Chooser, Manner};
use greedy_column::{Ahead, ColumnState};
use std::alloc::Global;
use std::cell::Cell;
use std::rc::Rc;
use std::test::Fail;

// New tracks lie in the middle, or as near to it as a partner leaves them; two equal pins enter a new track or a free one.
const MIDDLE_TOP: &[u32] = &[2, 3, 0, 4, 2, 5, 8, 8, 9, 9, 3, 4, 6, 7];

const MIDDLE_BOTTOM: &[u32] = &[1, 0, 5, 1, 6, 7, 8, 8, 9, 0, 1, 2, 5, 0];

const NEAR_THE_MIDDLE: [Wanted<'static>; 10] = [
    // two pins, and no track
    Wanted {
        made: &[(1, 0), (2, 1)],
        top: 2,
        bottom: 1,
        ..NOTHING
    },
    // a pin alone, and no track that is open to it: at the top, and at the bottom
    Wanted {
        made: &[(3, 1)],
        top: 3,
        ..NOTHING
    },
    Wanted {
        made: &[(4, 1)],
        bottom: 4,
        ..NOTHING
    },
    // the top pin gets a track in the middle of four, the bottom pin having the lowest
    Wanted {
        made: &[(5, 2)],
        top: 5,
        bottom: 1,
        ..NOTHING
    },
    // the bottom pin gets one in the middle of five, the top pin having the highest
    Wanted {
        made: &[(6, 2)],
        top: 2,
        bottom: 6,
        ..NOTHING
    },
    // the bottom pin gets one just below the second of six, which the top pin has
    Wanted {
        made: &[(7, 1)],
        top: 4,
        bottom: 7,
        ..NOTHING
    },
    // two equal pins: in the middle of seven; then none, as their net has it; then the free one
    Wanted {
        made: &[(8, 3)],
        top: 8,
        straight: true,
        ..NOTHING
    },
    Wanted {
        straight: true,
        ended: &[8],
        ..NOTHING
    },
    Wanted {
        top: 8,
        straight: true,
        ..NOTHING
    },
    Wanted {
        top: 8,
        ended: &[8],
        ..NOTHING
    },
];

#[test]
fn new_tracks_lie_near_the_middle(rt: HostRuntime) -> Result<(), Fail> {
    let chooser = nearest_chooser(rt.alloc())?;
    assert_eq!(rt;
        first_other(
            rt.alloc(),
            MIDDLE_TOP,
            MIDDLE_BOTTOM,
            &chooser,
            &NEAR_THE_MIDDLE
        )?,
        10
    );
    Ok(())
}

// Net 1 enters tracks 1, 5, 8 and 4 of eight, from bottom to top, while verticals from the bottom part them. In the first
// column without one the first of the possible joins is picked three times, and the lowest track is kept. So the chooser is asked
// for nine entries, two moves, three joins and the track that is kept.
const FOUR_TOP: &[u32] = &[8, 7, 4, 6, 6, 7, 1, 1, 1, 0, 1, 8, 4];

const FOUR_BOTTOM: &[u32] = &[1, 2, 5, 3, 5, 0, 2, 3, 4, 0, 2, 3, 0];

const FOUR_JOINED: [Wanted<'static>; 10] = [
    Wanted {
        made: &[(1, 0), (2, 1)],
        top: 2,
        bottom: 1,
        ..NOTHING
    },
    Wanted {
        made: &[(3, 1), (4, 2)],
        top: 4,
        bottom: 3,
        ..NOTHING
    },
    Wanted {
        made: &[(5, 2), (6, 3)],
        top: 6,
        bottom: 5,
        ..NOTHING
    },
    Wanted {
        made: &[(7, 3), (8, 4)],
        top: 8,
        bottom: 7,
        ..NOTHING
    },
    // three tracks become free
    Wanted {
        top: 8,
        bottom: 5,
        ended: &[5, 8],
        ..NOTHING
    },
    Wanted {
        top: 5,
        ended: &[4, 5],
        ..NOTHING
    },
    // net 1 enters them, above verticals of nets 2, 3 and 4
    Wanted {
        top: 5,
        bottom: 3,
        ..NOTHING
    },
    Wanted {
        top: 8,
        bottom: 7,
        ..NOTHING
    },
    Wanted {
        top: 4,
        bottom: 6,
        ..NOTHING
    },
    Wanted {
        joins: &[(1, 5), (5, 8), (8, 4)],
        ended: &[4, 5, 8],
        ..NOTHING
    },
];

#[test]
fn four_split_tracks_are_joined(rt: HostRuntime) -> Result<(), Fail> {
    let calls = Rc::new(rt.alloc(), Cell::new(0))?;
    assert_eq!(rt;
        first_other_counted(rt.alloc(), &calls, FOUR_TOP, FOUR_BOTTOM, &FOUR_JOINED)?,
        10
    );
    assert_eq!(rt; calls.get(), 15);
    Ok(())
}

// The pins of the crowded channel: 500 columns of two nets each, and 999 in which net 2 is at the bottom and each other net at
// the top.
fn crowded_channel(alloc: Global) -> Result<Channel, Fail> {
    let top = crowded_top(alloc)?;
    let bottom = crowded_bottom(alloc)?;
    Ok(Channel::new(top, bottom).ok_or("a channel")?)
}

fn crowded_top(alloc: Global) -> Result<Vec<u32>, Fail> {
    let mut top = Vec::new(alloc);
    for pair in 0u32..500 {
        top.push(2 * pair + 2)?;
    }
    for net in 1u32..1001 {
        if net != 2 {
            top.push(net)?;
        }
    }
    Ok(top)
}

fn crowded_bottom(alloc: Global) -> Result<Vec<u32>, Fail> {
    let mut bottom = Vec::new(alloc);
    for pair in 0u32..500 {
        bottom.push(2 * pair + 1)?;
    }
    for _ in 0u32..999 {
        bottom.push(2)?;
    }
    Ok(bottom)
}

// What its columns make: two tracks in the middle for two nets; then one just above that of net 2, whose vertical parts it from
// the net's first one.
fn crowded_made(column: u32) -> [(u32, u32); 2]
    requires { column < 1500 }
{
    if column < 500 {
        [(2 * column + 1, column), (2 * column + 2, column + 1)]
    } else {
        [(501 + column, 1000), (0, 0)]
    }
}

// Their records. Past the end one of 999 joins is made, which is in the way of all others.
fn crowded_record<'a>(column: u32, made: &'a [(u32, u32); 2]) -> Wanted<'a>
    requires { column < 1500 }
{
    if column < 500 {
        return Wanted {
            made,
            top: 2 * column + 2,
            bottom: 2 * column + 1,
            ..NOTHING
        };
    }
    if column < 1499 {
        return Wanted {
            made: &made[..1],
            top: 501 + column,
            bottom: 2,
            ended: if column == 1498 { &[2] } else { &[] },
            ..NOTHING
        };
    }
    Wanted {
        joins: &[(1, 1001)],
        ended: &[1, 1001],
        ..NOTHING
    }
}

// The first column of the crowded channel whose record is another one.
fn first_crowded_other(
    alloc: Global,
    channel: &Channel,
    ahead: &Ahead,
    chooser: &Chooser,
) -> Result<u32, Fail>
    requires { IsAhead channel.now ahead.now }
{
    let mut state = ColumnState::new(alloc, 0)?;
    for column in 0u32..1500 {
        let made = crowded_made(column);
        let wanted = crowded_record(column, &made);
        if !next_is(
            alloc,
            &mut state,
            channel,
            ahead,
            column,
            Manner::Published,
            chooser,
            &wanted,
        )? {
            return Ok(column);
        }
    }
    Ok(1500)
}

// The same, with what lies ahead in it.
fn first_other_ahead(alloc: Global, channel: &Channel, chooser: &Chooser) -> Result<u32, Fail> {
    let ahead = Ahead::new(alloc, channel)?;
    first_crowded_other(alloc, channel, &ahead, chooser)
}

fn first_crowded_counted(alloc: Global, channel: &Channel) -> Result<u32, Fail> {
    let calls = Rc::new(alloc, Cell::new(0))?;
    let chooser = counting_chooser(alloc, calls)?;
    first_other_ahead(alloc, channel, &chooser)
}

// 1,999 tracks, and 999 nets on two of them each that cannot be joined: a column takes about the time of one look at the tracks.
#[test]
fn a_column_of_thousands_of_tracks(rt: HostRuntime) -> Result<(), Fail> {
    let channel = crowded_channel(rt.alloc())?;
    assert_eq!(rt; first_crowded_counted(rt.alloc(), &channel)?, 1500);
    Ok(())
}
