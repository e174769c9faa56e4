//! Channels without vertical constraints, with what is known of them.
ghost use Rattle.channel_model.specs.Nets.{nets_of};
ghost use Rattle.channel_model.specs.Pins.{IsChannel};
ghost use Rattle.left_edge.specs.Columns.{IsUnconstrained};
ghost use Rattle.left_edge.specs.Spans.{span};
ghost use Rattle.left_edge.specs.Tracks.{level_of, track_count};
ghost use Rattle.std.specs.Prelude.{◌≡◌, map};

use channel_model::{Channel, Reach};

/// A channel in which no column has pins of two nets, and its nets in number order.
#[derive(Clone, Copy)]
pub(crate) struct Free<'c> {
    pub(crate) channel: &'c Channel,
    pub(crate) nets: &'c [u32],
    ghost valid: { IsChannel channel.now },
    ghost free: { IsUnconstrained channel.now },
    ghost listed: { nets.now ≡ nets_of channel.now },
}

/// The same with the span of each net, by its place: from its first to its last pin column.
#[derive(Clone, Copy)]
pub(crate) struct Spanned<'c> {
    pub(crate) channel: &'c Channel,
    pub(crate) nets: &'c [u32],
    pub(crate) spans: &'c [Reach],
    ghost valid: { IsChannel channel.now },
    ghost free: { IsUnconstrained channel.now },
    ghost listed: { nets.now ≡ nets_of channel.now },
    ghost spanned: { spans.now ≡ map (span channel.now) nets.now },
}

/// The same with how many tracks there are, and how many of them lie below that of each net, by its place.
#[derive(Clone, Copy)]
pub(crate) struct Leveled<'c> {
    pub(crate) channel: &'c Channel,
    pub(crate) nets: &'c [u32],
    pub(crate) spans: &'c [Reach],
    pub(crate) levels: &'c [u32],
    pub(crate) tracks: u32,
    ghost valid: { IsChannel channel.now },
    ghost free: { IsUnconstrained channel.now },
    ghost listed: { nets.now ≡ nets_of channel.now },
    ghost spanned: { spans.now ≡ map (span channel.now) nets.now },
    ghost leveled: { levels.now ≡ map (level_of channel.now) nets.now },
    ghost counted: { tracks ≡ track_count channel.now },
}
