//! The lines of free tracks in ascending order: which of them a track may go to, and what is left once one is taken.

ghost use Rattle.greedy_column.specs.Lines.{AreAscending, free_lines};
ghost use Rattle.greedy_column.specs.Moving.{has_option, is_within, move_options, without};
ghost use Rattle.std.specs.List.Sorted.{IsNonDecreasing, IsStrictlyIncreasing};
ghost use Rattle.std.specs.Prelude.{◌≡◌, ◌<◌, ◌+◌, ◌^◌, IfOk, filter, length, nat_le, nat_lt};

use crate::lines::Sought;
use crate::span::Span;
use crate::tracks::Tracks;
use crate::window::{Window, lines_past};
use std::alloc::{AllocError, Global};
use std::marker::Model;

// Lines of free tracks, from bottom to top.
#[derive(Drop)]
pub(crate) struct FreeLines {
    list: Vec<u32>,
}

impl Model for FreeLines {
    ghost use Rattle.greedy_column.specs.Lines.{AreAscending};
    ghost use Rattle.std.specs.Prelude.{List, ℕ};

    ghost Value = { List ℕ };

    ghost view = { λ lines. lines.list.items };

    ghost invariant = { λ lines. AreAscending lines.list.items };
}

impl Tracks {
    // The lines of the free tracks.
    pub(crate) fn free_lines(&self, alloc: Global) -> Result<FreeLines, AllocError>
        ensures { IfOk result (λ lines. lines ≡ free_lines self.now) }
    {
        let list = self.lines_where(alloc, Sought::Open(0))?;
        Ok(FreeLines { list })
    }
}

impl FreeLines {
    // Lends the lines.
    pub(crate) fn list(&self) -> &[u32]
        ensures list { result.now ≡ self.now }
        ensures are { AreAscending self.now }
    {
        self.list.as_slice()
    }

    // Of these lines those to which a track of a net on this line may move past the verticals of other nets.
    pub(crate) fn move_options(&self, spans: &[Span], net: u32, line: u32) -> &[u32]
        ensures options { result.now ≡ move_options spans.now net line self.now }
        ensures few { length result.now + 1 < 2 ^ 32 }
    {
        lines_within(self.list(), lines_past(spans, net, line))
    }

    // Whether there is such a line.
    pub(crate) fn has_option(&self, spans: &[Span], net: u32, line: u32) -> bool
        ensures { result ≡ has_option spans.now self.now net line }
    {
        has_line_within(self.list(), lines_past(spans, net, line))
    }

    // Takes one of these lines.
    pub(crate) fn take(&mut self, line: u32)
        ensures { self.new ≡ without line self.old }
    {
        take_line(&mut self.list, line);
    }
}

// Of ascending lines those within a window.
fn lines_within(lines: &[u32], window: Window) -> &[u32]
    requires { IsNonDecreasing lines.now }
    ensures { result.now ≡ filter (is_within window) lines.now }
{
    if window.low > window.high {
        return &[];
    }
    up_to_line(from_line(lines, window.low), window.high)
}

// Whether one of ascending lines lies within a window.
pub(crate) fn has_line_within(lines: &[u32], window: Window) -> bool
    requires { IsNonDecreasing lines.now }
    ensures { result ≡ nat_lt 0 (length (filter (is_within window) lines.now)) }
{
    has_line_to(from_line(lines, window.low), window.high)
}

// Whether one of ascending lines lies at or below a highest one, as then the first does.
fn has_line_to(lines: &[u32], high: u32) -> bool
    requires { IsNonDecreasing lines.now }
    ensures { result ≡ nat_lt 0 (length (filter (λ line. nat_le line high) lines.now)) }
{
    match lines.split_first() {
        Some((line, _more)) => *line <= high,
        None => false,
    }
}

// Of ascending lines those from a lowest one on.
fn from_line(lines: &[u32], low: u32) -> &[u32]
    requires { IsNonDecreasing lines.now }
    ensures from { result.now ≡ filter (λ line. nat_le low line) lines.now }
    ensures ascending { IsNonDecreasing result.now }
{
    let place = lines.partition_point(|line| *line < low);
    lines.split_at(place).1
}

// Of ascending lines those up to a highest one.
fn up_to_line(lines: &[u32], high: u32) -> &[u32]
    requires { IsNonDecreasing lines.now }
    ensures { result.now ≡ filter (λ line. nat_le line high) lines.now }
{
    let place = lines.partition_point(|line| *line <= high);
    lines.split_at(place).0
}

// Takes a line out of ascending ones, where it is among them.
fn take_line(lines: &mut Vec<u32>, line: u32)
    requires { IsStrictlyIncreasing lines.old.items }
    ensures { lines.new.items ≡ without line lines.old.items }
{
    let Ok(place) = lines.binary_search(&line) else {
        return;
    };
    let _taken = lines.remove(place);
}
