//! Records of a channel of fourteen columns under `deft` in the manner that looks ahead, column by column, from no track and from five
//! free ones.

use crate::column_tables::{NOTHING, Wanted};

/// The top pins of the channel.
pub(crate) const FOURTEEN_TOP: &[u32] = &[5, 1, 0, 4, 6, 4, 2, 1, 3, 4, 0, 1, 2, 6];

/// Its bottom pins.
pub(crate) const FOURTEEN_BOTTOM: &[u32] = &[6, 0, 6, 1, 1, 0, 5, 0, 0, 1, 0, 1, 3, 0];

/// Its records from no track.
pub(crate) const FOURTEEN_FROM_NONE: [Wanted<'static>; 14] = [
    Wanted {
        made: &[(1, 0), (2, 1)],
        top: 2,
        bottom: 1,
        ..NOTHING
    },
    Wanted {
        made: &[(3, 0)],
        top: 3,
        ..NOTHING
    },
    Wanted {
        bottom: 1,
        ..NOTHING
    },
    Wanted {
        made: &[(4, 3)],
        top: 4,
        bottom: 3,
        ..NOTHING
    },
    Wanted {
        top: 1,
        bottom: 3,
        ..NOTHING
    },
    Wanted { top: 4, ..NOTHING },
    Wanted {
        made: &[(5, 4)],
        top: 5,
        bottom: 2,
        ended: &[2],
        ..NOTHING
    },
    Wanted { top: 3, ..NOTHING },
    Wanted { top: 2, ..NOTHING },
    Wanted {
        top: 4,
        bottom: 3,
        ended: &[4],
        ..NOTHING
    },
    Wanted {
        moves: &[(1, 4)],
        ..NOTHING
    },
    Wanted {
        straight: true,
        ended: &[3],
        ..NOTHING
    },
    Wanted {
        top: 5,
        bottom: 2,
        ended: &[2, 5],
        ..NOTHING
    },
    Wanted {
        top: 4,
        ended: &[4],
        ..NOTHING
    },
];

/// Its records from five free tracks.
pub(crate) const FOURTEEN_FROM_FIVE: [Wanted<'static>; 14] = [
    Wanted {
        top: 5,
        bottom: 1,
        moves: &[(5, 2)],
        ..NOTHING
    },
    Wanted {
        top: 5,
        moves: &[(5, 3)],
        ..NOTHING
    },
    Wanted {
        bottom: 1,
        moves: &[(1, 5)],
        ..NOTHING
    },
    Wanted {
        top: 4,
        bottom: 3,
        moves: &[(3, 1)],
        ..NOTHING
    },
    Wanted {
        top: 5,
        bottom: 1,
        moves: &[(1, 3)],
        ..NOTHING
    },
    Wanted {
        top: 4,
        moves: &[(2, 1)],
        ..NOTHING
    },
    Wanted {
        top: 2,
        bottom: 1,
        ended: &[1],
        ..NOTHING
    },
    Wanted {
        top: 3,
        moves: &[(3, 1)],
        ..NOTHING
    },
    Wanted { top: 3, ..NOTHING },
    Wanted {
        top: 4,
        bottom: 1,
        ended: &[4],
        ..NOTHING
    },
    Wanted {
        moves: &[(2, 4)],
        ..NOTHING
    },
    Wanted {
        straight: true,
        ended: &[1],
        ..NOTHING
    },
    Wanted {
        top: 4,
        bottom: 3,
        ended: &[3, 4],
        ..NOTHING
    },
    Wanted {
        top: 5,
        ended: &[5],
        ..NOTHING
    },
];
