//! What a chooser is asked, and the candidate tracks that it is shown.

/// What is asked of a chooser.
#[derive(Clone, Copy, Debug, PartialEq, Eq)]
pub enum Ask {
    /// Which track a pin enters.
    Enter,
    /// Which two neighbouring tracks of a net are joined.
    Join,
    /// Which of some joined tracks is kept.
    Keep,
    /// Where a kept track goes on: as it is, or on a free track.
    Move,
}

/// Where a net has its next pins, in the first later column in which it has any.
#[derive(Clone, Copy, Debug, PartialEq, Eq)]
pub enum Next {
    /// It has none.
    Ends,
    /// At the upper edge alone.
    Top,
    /// At the lower edge alone.
    Bottom,
    /// At both edges.
    Both,
}

/// One of the things that a chooser may choose.
#[derive(Clone, Copy, Debug, PartialEq, Eq)]
pub struct Candidate {
    // The numbers stand first, so that no room is lost between the fields.
    /// The track's place from the bottom, from 1 on; on `Join` that of the lower track.
    pub track: u32,
    /// How far the track lies from what it is wanted for, in tracks.
    pub gap: u32,
    /// How near the net's other tracks are: 0 where there is none, else 1 more than the least distance from `track` to one of them. These
    /// are on `Enter` all tracks that the net holds, on `Join` the upper track of the two, on `Keep` the net's tracks that are not joined
    /// with this one, and on `Move` its other tracks that are kept, as the moves before have left them.
    pub pull: u32,
    pub ask: Ask,
    /// Where the net has its next pins.
    pub next: Next,
}
