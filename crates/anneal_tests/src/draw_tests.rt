//! Thresholds, and the changes of a seed.

ghost use Rattle.std.specs.Prelude.{◌<◌};

use anneal_int::{Change, Draws, Proposal, threshold};
use std::test::Fail;

#[test]
fn thresholds_fall(rt: HostRuntime) {
    assert_eq!(rt; threshold(0), 65535);
    assert_eq!(rt; threshold(1), 57855);
    assert_eq!(rt; threshold(8), 24176);
}

/// The first two changes of seed 42 for so many instances.
fn first_two(instances: u32) -> (Proposal, Proposal)
    requires { 0 < instances }
{
    let mut draws = Draws::new(42);
    let first = draws.next(instances);
    (first, draws.next(instances))
}

#[test]
fn seed_42_has_its_changes(rt: HostRuntime) -> Result<(), Fail> {
    let (first, second) = first_two(3);
    assert!(rt; first.change == Change::Swap(0, 1));
    assert!(rt; second.change == Change::Swap(1, 2));
    assert_eq!(rt; first.chance, 0xba1d3330);
    assert_eq!(rt; second.chance, 0xcbed606e);
    let (first, second) = first_two(2);
    assert!(rt; first.change == Change::Swap(1, 1));
    assert!(rt; second.change == Change::Swap(1, 1));
    Ok(())
}
