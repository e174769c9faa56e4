//! The first thousand pairs of shapes that break a rule, and whether they are all.

ghost use Rattle.close_rects.specs.Crowds.{KeepsInReach, crowds_of};
ghost use Rattle.rule_check.specs.Failing.{AreFirstOf};
ghost use Rattle.std.specs.Option.{option_to_list};
ghost use Rattle.std.specs.Prelude.{◌≡◌, ◌<◌, ◌^◌, ◌++◌, length, All, IfOk, OnOk};

use close_rects::{Member, first_pairs};
use limits::MOST_PAIRS;
use std::alloc::{AllocError, Global};

/// Pairs of numbers that fail, the lesser first, in order: the first thousand at most, and whether they are all.
#[derive(Debug, Drop)]
pub struct Pairs {
    pub list: Vec<(u32, u32)>,
    pub whole: bool,
}

// The first thousand pairs of members that are too close.
pub(crate) fn crowded(alloc: Global, members: &[Member]) -> Result<Pairs, AllocError>
    requires few { length members.now < 2 ^ 32 }
    requires reach { All KeepsInReach members.now }
    ensures { IfOk result (AreFirstOf (crowds_of members.now)) }
{
    let mut list = first_pairs(alloc, members, 1001)?;
    let whole = list.len() <= MOST_PAIRS;
    list.truncate(MOST_PAIRS);
    Ok(Pairs { list, whole })
}

// Puts a member at the end of a list, if there is one.
pub(crate) fn push_made(members: &mut Vec<Member>, made: Option<Member>) -> Result<(), AllocError>
    ensures { OnOk result (members.new.items ≡ members.old.items ++ option_to_list made) }
{
    if let Some(member) = made {
        members.push(member)?;
    }
    Ok(())
}
