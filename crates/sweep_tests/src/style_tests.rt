//! What each choice answers to the worked lists.

use choose_core::{Ask, Candidate, Next, deft, high, lean, near};
use std::test::Fail;

// A kept track in position 2, and the free ones in 1 and 4, of a net without another track.
fn moves(next: Next) -> [Candidate; 3] {
    [(2, 0), (1, 1), (4, 2)].map(|(track, gap)| Candidate {
        ask: Ask::Move,
        track,
        gap,
        next,
        pull: 0,
    })
}

// The same where the net holds this other track too.
fn moves_of_split(other: u32) -> [Candidate; 3] {
    [(2, 0), (1, 1), (4, 2)].map(|(track, gap)| Candidate {
        ask: Ask::Move,
        track,
        gap,
        next: Next::Top,
        pull: other.abs_diff(track).saturating_add(1),
    })
}

#[test]
fn where_a_kept_track_goes_on(rt: HostRuntime) {
    assert_eq!(rt; near(&moves(Next::Top)), 0);
    assert_eq!(rt; high(&moves(Next::Top)), 2);
    assert_eq!(rt; lean(&moves(Next::Top)), 2);
    assert_eq!(rt; lean(&moves(Next::Bottom)), 1);
    assert_eq!(rt; lean(&moves(Next::Both)), 0);
    assert_eq!(rt; deft(&moves(Next::Top)), 2);
    assert_eq!(rt; deft(&moves(Next::Bottom)), 1);
    assert_eq!(rt; deft(&moves(Next::Both)), 0);
    // It goes two tracks nearer to track 5, and stays where that would be one, as to the free track beside track 0.
    assert_eq!(rt; deft(&moves_of_split(5)), 2);
    assert_eq!(rt; deft(&moves_of_split(0)), 0);
}

#[test]
fn which_tracks_are_joined(rt: HostRuntime) {
    let joins = [(1, 3), (4, 1), (5, 1)].map(|(track, gap): (u32, u32)| Candidate {
        ask: Ask::Join,
        track,
        gap,
        next: Next::Both,
        pull: gap.saturating_add(1),
    });
    assert_eq!(rt; near(&joins), 1);
    assert_eq!(rt; lean(&joins), 1);
    assert_eq!(rt; high(&joins), 2);
    assert_eq!(rt; deft(&joins), 0);
}

// The answer of `deft` where a pin may enter the tracks in positions 2, 3 and 1, with these pulls.
fn entered(pulls: [u32; 3]) -> usize {
    let [first, second, third] = pulls;
    let list = [(2, first), (3, second), (1, third)].map(|(track, pull)| Candidate {
        ask: Ask::Enter,
        track,
        gap: track,
        next: Next::Both,
        pull,
    });
    deft(&list)
}

// Of the tracks that a net holds a pin enters the farthest, and where it holds none the nearest one.
#[test]
fn which_track_a_pin_enters(rt: HostRuntime) {
    assert_eq!(rt; entered([0, 0, 0]), 2);
    assert_eq!(rt; entered([1, 2, 2]), 0);
    assert_eq!(rt; entered([1, 1, 2]), 1);
}
