//! Lists of lines: those of free tracks and of a net's own ones, and what is above, below or outside of others.

ghost use Rattle.greedy_column.specs.Ending.{outside};
ghost use Rattle.greedy_column.specs.Lines.{AreLines, above_lowest, below_line, is_sought, lines_from, open_lines, own_lines};
ghost use Rattle.greedy_column.specs.Moving.{without};
ghost use Rattle.greedy_column.specs.Tracks.{ids, line_of};
ghost use Rattle.std.specs.List.Sorted.{IsStrictlyIncreasing};
ghost use Rattle.std.specs.List.{list_any};
ghost use Rattle.std.specs.Prelude.{◌≡◌, ◌==◌, ◌<◌, ◌≤◌, ◌+◌, ◌++◌, ◌∷◌, [], ◌^◌, if◌then◌else◌, IfOk, OnOk, filter, length, nat_lt, not, vec_capacity, vec_len};

use crate::column::Track;
use crate::tracks::Tracks;
use std::alloc::{AllocError, Global};
use std::marker::Model;

// Lines on which tracks stand.
#[derive(Drop)]
pub(crate) struct Lines {
    list: Vec<u32>,
}

impl Model for Lines {
    ghost use Rattle.greedy_column.specs.Lines.{AreLines};
    ghost use Rattle.std.specs.Prelude.{List, ℕ};

    ghost Value = { List ℕ };

    ghost view = { λ lines. lines.list.items };

    ghost invariant = { λ lines. AreLines lines.list.items };
}

// The lines that are open to a net, which are those of free tracks and its own, and its own alone.
#[derive(Drop)]
pub(crate) struct OpenLines {
    pub(crate) all: Lines,
    pub(crate) own: Lines,
}

// The same as plain lists.
#[derive(Drop)]
pub(crate) struct OpenLists {
    pub(crate) all: Vec<u32>,
    pub(crate) own: Vec<u32>,
}

// Which tracks are sought: those that are free or a net's own, or its own alone.
#[derive(Clone, Copy, Debug)]
pub(crate) enum Sought {
    Open(u32),
    Own(u32),
}

impl Sought {
    // Whether a track is among these.
    fn takes(self, track: Track) -> bool
        ensures { result ≡ is_sought self track }
    {
        match self {
            Sought::Open(net) => track.net == 0 || track.net == net,
            Sought::Own(net) => track.net == net,
        }
    }
}

impl Tracks {
    // The lines that are open to a net, and its own.
    pub(crate) fn lines_for(&self, alloc: Global, net: u32) -> Result<OpenLines, AllocError>
        ensures all { IfOk result (λ lines. lines.all ≡ open_lines net self.now) }
        ensures own { IfOk result (λ lines. lines.own ≡ own_lines net self.now) }
    {
        let OpenLists { all, own } = self.lists_for(alloc, net)?;
        Ok(OpenLines {
            all: Lines { list: all },
            own: Lines { list: own },
        })
    }

    // The same for each of two nets.
    pub(crate) fn lines_for_both(
        &self,
        alloc: Global,
        one: u32,
        other: u32,
    ) -> Result<(OpenLines, OpenLines), AllocError>
        ensures one_all { IfOk result (λ lines. lines.0.all ≡ open_lines one self.now) }
        ensures one_own { IfOk result (λ lines. lines.0.own ≡ own_lines one self.now) }
        ensures other_all { IfOk result (λ lines. lines.1.all ≡ open_lines other self.now) }
        ensures other_own { IfOk result (λ lines. lines.1.own ≡ own_lines other self.now) }
    {
        let lists = self.lists_for_both(alloc, one, other)?;
        let (first, second) = lists;
        let OpenLists { all, own } = first;
        let first = OpenLines {
            all: Lines { list: all },
            own: Lines { list: own },
        };
        let OpenLists { all, own } = second;
        let second = OpenLines {
            all: Lines { list: all },
            own: Lines { list: own },
        };
        Ok((first, second))
    }

    // The same for each of two nets as plain lists, in one pass.
    fn lists_for_both(
        &self,
        alloc: Global,
        one: u32,
        other: u32,
    ) -> Result<(OpenLists, OpenLists), AllocError>
        ensures one_all { IfOk result (λ lists. lists.0.all.items ≡ open_lines one self.now) }
        ensures one_own { IfOk result (λ lists. lists.0.own.items ≡ own_lines one self.now) }
        ensures other_all { IfOk result (λ lists. lists.1.all.items ≡ open_lines other self.now) }
        ensures other_own { IfOk result (λ lists. lists.1.own.items ≡ own_lines other self.now) }
        ensures one_all_are { IfOk result (λ lists. AreLines lists.0.all.items) }
        ensures one_own_are { IfOk result (λ lists. AreLines lists.0.own.items) }
        ensures other_all_are { IfOk result (λ lists. AreLines lists.1.all.items) }
        ensures other_own_are { IfOk result (λ lists. AreLines lists.1.own.items) }
    {
        let mut one_all = Vec::with_capacity(alloc, self.list().len())?;
        let mut one_own = Vec::new(alloc);
        let mut other_all = Vec::with_capacity(alloc, self.list().len())?;
        let mut other_own = Vec::new(alloc);
        let mut line = 1u32;
        let mut rest = self.list();
        while let Some((track, above)) = rest.split_first() {
            put_where(&mut one_all, Sought::Open(one).takes(*track), line);
            push_where(&mut one_own, Sought::Own(one).takes(*track), line)?;
            put_where(&mut other_all, Sought::Open(other).takes(*track), line);
            push_where(&mut other_own, Sought::Own(other).takes(*track), line)?;
            line += 1;
            rest = above;
        }
        let first = OpenLists {
            all: one_all,
            own: one_own,
        };
        let second = OpenLists {
            all: other_all,
            own: other_own,
        };
        Ok((first, second))
    }

    // The lines that are open to a net and its own as plain lists, in one pass.
    fn lists_for(&self, alloc: Global, net: u32) -> Result<OpenLists, AllocError>
        ensures all { IfOk result (λ lists. lists.all.items ≡ open_lines net self.now) }
        ensures own { IfOk result (λ lists. lists.own.items ≡ own_lines net self.now) }
        ensures all_are { IfOk result (λ lists. AreLines lists.all.items) }
        ensures own_are { IfOk result (λ lists. AreLines lists.own.items) }
    {
        let mut all = Vec::with_capacity(alloc, self.list().len())?;
        let mut own = Vec::new(alloc);
        let mut line = 1u32;
        let mut rest = self.list();
        while let Some((track, above)) = rest.split_first() {
            put_where(&mut all, Sought::Open(net).takes(*track), line);
            push_where(&mut own, Sought::Own(net).takes(*track), line)?;
            line += 1;
            rest = above;
        }
        Ok(OpenLists { all, own })
    }

    // The lines of the tracks that a net holds.
    pub(crate) fn own_lines(&self, alloc: Global, net: u32) -> Result<Lines, AllocError>
        ensures { IfOk result (λ lines. lines ≡ own_lines net self.now) }
    {
        let list = self.lines_where(alloc, Sought::Own(net))?;
        Ok(Lines { list })
    }

    // The lines of the tracks that are sought.
    pub(crate) fn lines_where(&self, alloc: Global, sought: Sought) -> Result<Vec<u32>, AllocError>
        ensures lines { IfOk result (λ lines. lines.items ≡ lines_from (is_sought sought) 1 self.now) }
        ensures are { IfOk result (λ lines. AreLines lines.items) }
        ensures ascending { IfOk result (λ lines. IsStrictlyIncreasing lines.items) }
    {
        let mut lines = Vec::with_capacity(alloc, self.list().len())?;
        let mut line = 1u32;
        let mut rest = self.list();
        while let Some((track, above)) = rest.split_first() {
            put_where(&mut lines, sought.takes(*track), line);
            line += 1;
            rest = above;
        }
        Ok(lines)
    }
}

impl Lines {
    // No lines.
    pub(crate) fn none(alloc: Global) -> Lines
        ensures { result ≡ [] }
    {
        Lines {
            list: Vec::new(alloc),
        }
    }

    // Lends the lines.
    pub(crate) fn list(&self) -> &[u32]
        ensures list { result.now ≡ self.now }
        ensures are { AreLines self.now }
    {
        self.list.as_slice()
    }

    // Of these lines those above the lowest of others.
    pub(crate) fn above_lowest(&self, alloc: Global, others: &Lines) -> Result<Lines, AllocError>
        ensures { IfOk result (λ above. above ≡ above_lowest others.now self.now) }
    {
        match others.list().first() {
            Some(&lowest) => self.above(alloc, lowest),
            None => Ok(Lines::none(alloc)),
        }
    }

    // Of these lines those above a line.
    fn above(&self, alloc: Global, lower: u32) -> Result<Lines, AllocError>
        ensures { IfOk result (λ above. above ≡ filter (λ line. nat_lt lower line) self.now) }
    {
        let mut list = self.list().to_vec(alloc)?;
        list.retain(|line| lower < *line);
        Ok(Lines { list })
    }

    // Of these lines those below a line.
    pub(crate) fn below(&self, alloc: Global, upper: u32) -> Result<Lines, AllocError>
        ensures { IfOk result (λ below. below ≡ below_line upper self.now) }
    {
        let mut list = self.list().to_vec(alloc)?;
        list.retain(|line| *line < upper);
        Ok(Lines { list })
    }

    // Leaves one of these lines out.
    pub(crate) fn leave_out(&mut self, line: u32)
        ensures { self.new ≡ without line self.old }
    {
        leave_out(&mut self.list, line);
    }

    // The lines outside a group.
    pub(crate) fn outside(&self, alloc: Global, group: &[u32]) -> Result<Lines, AllocError>
        ensures { IfOk result (λ others. others ≡ outside group.now self.now) }
    {
        let list = outside(alloc, group, &self.list)?;
        Ok(Lines { list })
    }
}

// Leaves a line out of some.
fn leave_out(lines: &mut Vec<u32>, line: u32)
    ensures { lines.new.items ≡ without line lines.old.items }
{
    lines.retain(|other| *other != line);
}

// Of some lines those outside a group.
fn outside(alloc: Global, group: &[u32], lines: &[u32]) -> Result<Vec<u32>, AllocError>
    ensures { IfOk result (λ others. others.items ≡ outside group.now lines.now) }
{
    let mut others = lines.to_vec(alloc)?;
    others.retain(|line| !is_member(group, *line));
    Ok(others)
}

// Whether a line is of a group.
fn is_member(group: &[u32], line: u32) -> bool
    ensures { result ≡ list_any (λ member. member == line) group.now }
{
    group.iter().any(|member| *member == line)
}

// Adds a line, where it is wanted.
pub(crate) fn push_where(lines: &mut Vec<u32>, wanted: bool, line: u32) -> Result<(), AllocError>
    ensures { OnOk result (lines.new.items ≡ lines.old.items ++ (if wanted then line ∷ [] else [])) }
{
    if wanted {
        lines.push(line)?;
    }
    Ok(())
}

// The same, to a list that has room for one more.
pub(crate) fn put_where(lines: &mut Vec<u32>, wanted: bool, line: u32)
    requires { vec_len lines.old < vec_capacity lines.old }
    ensures lines { lines.new.items ≡ lines.old.items ++ (if wanted then line ∷ [] else []) }
    ensures long { vec_len lines.new ≤ vec_len lines.old + 1 }
    ensures room { vec_capacity lines.new ≡ vec_capacity lines.old }
{
    if wanted {
        lines.push_reserved(line);
    }
}

// The line of an id, one above all tracks where it has none.
pub(crate) fn line_of(tracks: &[Track], id: u32) -> u32
    requires { length tracks.now + 1 < 2 ^ 32 }
    ensures line { result ≡ line_of (ids tracks.now) id }
    ensures within { result ≤ length tracks.now + 1 }
{
    let mut line = 1u32;
    let mut rest = tracks;
    while let Some((track, above)) = rest.split_first() {
        if track.id == id {
            return line;
        }
        line += 1;
        rest = above;
    }
    line
}
