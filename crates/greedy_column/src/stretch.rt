//! Stretches between and on the verticals of a column: the tracks on the lines of one stretch whose nets have none of these verticals have the same
//! free lines to go to, so that one answer serves for all of them. That a net has none is mostly told by a table of 64 remainders of nets.

ghost use Rattle.greedy_column.specs.Moving.{IsStretch, TellForeign, has_option, is_foreign, is_within, lines_of, may_have};
ghost use Rattle.std.specs.Prelude.{◌≡◌, ◌==◌, ◌&&◌, find, not, true};

use crate::free_lines::{FreeLines, has_line_within};
use crate::span::Span;
use crate::window::{Window, lines_past};

// Nets are told apart by their remainders at this number.
pub(crate) const REMAINDERS: usize = 64;

// The lines of a stretch, and whether a free one is among them.
#[derive(Clone, Copy, Debug)]
pub(crate) struct Stretch {
    pub(crate) window: Window,
    pub(crate) has_free: bool,
}

impl Span {
    // The lines that this vertical covers.
    fn lines(self) -> Window
        ensures { result ≡ lines_of self }
    {
        Window {
            low: self.low,
            high: self.high,
        }
    }
}

// The first of these verticals that covers a line, where there is one.
fn covering(verticals: &[Span], line: u32) -> Option<Span>
    ensures { result ≡ find (λ s. is_within (lines_of s) line) verticals.now }
{
    let mut rest = verticals;
    while let Some((vertical, others)) = rest.split_first() {
        if vertical.lines().has(line) {
            return Some(*vertical);
        }
        rest = others;
    }
    None
}

// For each remainder whether nets of it may have one of these verticals; all may where one does not lie upwards.
pub(crate) fn remainders_of(spans: &[Span]) -> [bool; REMAINDERS]
    ensures { TellForeign spans.now result }
{
    let mut remainders = [false; REMAINDERS];
    let mut rest = spans;
    while let Some((vertical, others)) = rest.split_first() {
        rest = others;
        if vertical.low > vertical.high {
            return [true; REMAINDERS];
        }
        remainders[vertical.net as usize % REMAINDERS] = true;
    }
    remainders
}

// Whether a net may have one of the verticals of these remainders.
pub(crate) fn may_have(remainders: &[bool; REMAINDERS], net: u32) -> bool
    ensures { result ≡ may_have remainders.now net }
{
    remainders[net as usize % REMAINDERS]
}

impl FreeLines {
    // The stretch of a line whose net has none of these verticals: the lines of one that covers it, past which there are no free ones, or
    // those between them.
    #[inline(never)]
    pub(crate) fn stretch_of(&self, spans: &[Span], net: u32, line: u32) -> Stretch
        requires { is_foreign spans.now net ≡ true }
        ensures stretch { IsStretch spans.now self.now result }
        ensures here { result.has_free ≡ has_option spans.now self.now net line }
    {
        match covering(spans, line) {
            Some(vertical) => Stretch {
                window: vertical.lines(),
                has_free: false,
            },
            None => self.stretch_at(spans, net, line),
        }
    }

    // Whether a net holds a track on this line that has a free line to go to.
    #[inline(never)]
    pub(crate) fn may_move(&self, spans: &[Span], net: u32, line: u32) -> bool
        ensures { result ≡ (not (net == 0) && has_option spans.now self.now net line) }
    {
        net != 0 && self.has_option(spans, net, line)
    }

    // The stretch between these verticals of a line whose net has none of them.
    fn stretch_at(&self, spans: &[Span], net: u32, line: u32) -> Stretch
        requires { is_foreign spans.now net ≡ true }
        ensures stretch { IsStretch spans.now self.now result }
        ensures here { result.has_free ≡ has_option spans.now self.now net line }
    {
        let window = lines_past(spans, net, line);
        Stretch {
            window,
            has_free: has_line_within(self.list(), window),
        }
    }
}
