//! Four ways of choosing among candidates: `near`, `lean`, `high` and `deft`.

ghost use Rattle.choose_core.specs.Answers.{IsAsked};
ghost use Rattle.choose_core.specs.Styles.{ComesNearer, EntersDeftly, IsDeft, IsFirstGreatest, IsFirstLeast, IsLastGreatest, IsLean, LeansTo, gap_of, is_own, pull_of, track_of};
ghost use Rattle.std.specs.List.{list_any, position};
ghost use Rattle.std.specs.Prelude.{◌≡◌, ◌+◌, ◌<◌, ◌&&◌, Some, length, nat_lt, true};

use crate::candidate::{Ask, Candidate, Next};

// The place of the first candidate of least track.
fn lowest(list: &[Candidate]) -> usize
    requires { 0 < length list.now }
    ensures { IsFirstLeast track_of list.now result }
{
    let mut best = 0;
    for place in 1..list.len() {
        if list[place].track < list[best].track {
            best = place;
        }
    }
    best
}

// The place of the last candidate of greatest track.
fn highest(list: &[Candidate]) -> usize
    requires { 0 < length list.now }
    ensures { IsLastGreatest track_of list.now result }
{
    let mut best = 0;
    for place in 1..list.len() {
        if list[place].track >= list[best].track {
            best = place;
        }
    }
    best
}

/// The style `near`: the place of the first candidate with the least gap. Takes no memory.
pub fn near(list: &[Candidate]) -> usize
    requires { IsAsked list.now }
    ensures { IsFirstLeast gap_of list.now result }
{
    let mut best = 0;
    for place in 1..list.len() {
        if list[place].gap < list[best].gap {
            best = place;
        }
    }
    best
}

// The place of the candidate that lies farthest towards the edge of the next pins, of the first where that is no one edge.
fn towards(next: Next, list: &[Candidate]) -> usize
    requires { 0 < length list.now }
    ensures { LeansTo next list.now result }
{
    match next {
        Next::Top => highest(list),
        Next::Bottom => lowest(list),
        Next::Both | Next::Ends => 0,
    }
}

/// The style `lean`: a kept track moves as far as it can towards the edge at which its net has its next pins, and stays where
/// these lie at both edges or nowhere; all else is as by `near`. A list is of one question, which its first candidate tells.
/// Takes no memory.
pub fn lean(list: &[Candidate]) -> usize
    requires { IsAsked list.now }
    ensures { IsLean list.now result }
{
    let first = &list[0];
    if first.ask != Ask::Move {
        return near(list);
    }
    towards(first.next, list)
}

/// The style `high`: the place of the last candidate. Takes no memory.
pub fn high(list: &[Candidate]) -> usize
    requires { IsAsked list.now }
    ensures { result + 1 ≡ length list.now }
{
    list.len() - 1
}

// The place of the first candidate of greatest gap.
fn farthest(list: &[Candidate]) -> usize
    requires { 0 < length list.now }
    ensures { IsFirstGreatest (λ _. true) gap_of list.now result }
{
    let mut best = 0;
    for place in 1..list.len() {
        if list[place].gap > list[best].gap {
            best = place;
        }
    }
    best
}

// The place of the first candidate that is a track that the net holds.
fn first_own(list: &[Candidate]) -> Option<usize>
    ensures { result ≡ position is_own list.now }
{
    list.iter().position(|candidate| candidate.pull == 1)
}

// Whether a candidate is a track that the net holds, farther off than another one.
fn is_farther(candidate: &Candidate, other: &Candidate) -> bool
    ensures { result ≡ (is_own candidate.now && nat_lt other.now.gap candidate.now.gap) }
{
    candidate.pull == 1 && candidate.gap > other.gap
}

// The place of the first candidate of greatest gap among the tracks that the net holds, from the first of these.
fn farthest_own(list: &[Candidate], first: usize) -> usize
    requires { position is_own list.now ≡ Some first }
    ensures { IsFirstGreatest is_own gap_of list.now result }
{
    let mut best = first;
    for place in first + 1..list.len() {
        if is_farther(&list[place], &list[best]) {
            best = place;
        }
    }
    best
}

// The place of the first candidate of greatest gap among the tracks that the net holds, of the first of least gap where it holds none.
fn entered(list: &[Candidate]) -> usize
    requires { IsAsked list.now }
    ensures { EntersDeftly (list_any is_own list.now) list.now result }
{
    match first_own(list) {
        Some(first) => farthest_own(list, first),
        None => near(list),
    }
}

// The place of the first candidate of least pull.
fn nearest_to_others(list: &[Candidate]) -> usize
    requires { 0 < length list.now }
    ensures { IsFirstLeast pull_of list.now result }
{
    let mut best = 0;
    for place in 1..list.len() {
        if list[place].pull < list[best].pull {
            best = place;
        }
    }
    best
}

// The place of the candidate nearest to the net's other tracks, of the first where that is less than two tracks off.
fn nearer(list: &[Candidate]) -> usize
    requires { 0 < length list.now }
    ensures { ComesNearer list.now result }
{
    let nearest = nearest_to_others(list);
    if list[nearest].gap >= 2 { nearest } else { 0 }
}

/// The choice `deft`: a pin enters the farthest track that its net holds, or else the nearest free one; the longest join comes first; of
/// joined tracks the one nearest to the edge of the next pins is kept; a track of a split net moves nearest to another track of the net,
/// where that is two tracks off or more, and any other one as far as it can towards the edge of its net's next pins. A list is of one
/// question, which its first candidate tells. Takes no memory.
pub fn deft(list: &[Candidate]) -> usize
    requires { IsAsked list.now }
    ensures { IsDeft list.now result }
{
    let first = &list[0];
    match first.ask {
        Ask::Enter => entered(list),
        Ask::Join => farthest(list),
        Ask::Keep => near(list),
        Ask::Move if first.pull > 0 => nearer(list),
        Ask::Move => towards(first.next, list),
    }
}
