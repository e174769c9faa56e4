//! The first member of each group, with each later one of the group that is of another kind.

ghost use Rattle.layout_check.specs.Groups.{differing, differing_pairs, firsts_of, pairs_in};
ghost use Rattle.std.specs.Prelude.{◌≡◌, ◌<◌, ◌^◌, ◌++◌, ℕ, length, map, set, slice_get, unwrap_or, All, IfOk, OnOk, Some};

use list_facts::Lists;
use std::alloc::{AllocError, Global};

/// Members by the numbers of their groups and of their kinds; there are fewer than 2^32.
#[derive(Clone, Copy)]
pub(crate) struct Members<'m> {
    pub(crate) groups: &'m [u32],
    pub(crate) kinds: &'m [u32],
    ghost few: { length groups.now < 2 ^ 32 },
    ghost each: { length kinds.now ≡ length groups.now },
}

/// The first member of each group with each later one of the group that is of another kind, in order. The one error is want of memory.
pub(crate) fn differing_pairs(
    alloc: Global,
    members: &Members,
) -> Result<Vec<(u32, u32)>, AllocError>
    ensures { IfOk result (λ v. v.items ≡ differing_pairs (firsts_of members.now.groups.now) members.now.kinds.now) }
{
    let firsts = firsts_of(alloc, members)?;
    let lists = differing(alloc, firsts.as_slice(), members.kinds)?;
    pairs_in(alloc, &lists, members)
}

// For each member the number of the first of its group.
fn firsts_of(alloc: Global, members: &Members) -> Result<Vec<u32>, AllocError>
    ensures { IfOk result (λ v. v.items ≡ firsts_of members.now.groups.now) }
{
    let groups = members.groups;
    let mut table = vec![in alloc; None; count_of(groups)]?;
    let mut firsts = Vec::with_capacity(alloc, groups.len())?;
    for k in 0..groups.len() {
        firsts.push(enter(&mut table, groups[k], k as u32))?;
    }
    Ok(firsts)
}

// One more than the greatest number.
fn count_of(groups: &[u32]) -> usize
    ensures { All (λ g. g < result) groups.now }
{
    match groups.iter().copied().max() {
        Some(greatest) => greatest as usize + 1,
        None => 0,
    }
}

// The first of a group, which is this member where the group has none yet, and is entered then.
fn enter(table: &mut [Option<u32>], group: u32, member: u32) -> u32
    requires { group < length table.old }
    ensures first { (first : _) → slice_get table.old group ≡ Some first → result ≡ unwrap_or first member }
    ensures table { table.new ≡ set table.old group (Some result) }
{
    let at = group as usize;
    if let Some(first) = table[at] {
        return first;
    }
    table[at] = Some(member);
    member
}

// For each first the members that are of another kind than it.
fn differing(alloc: Global, firsts: &[u32], kinds: &[u32]) -> Result<Lists<u32>, AllocError>
    requires few { length firsts.now < 2 ^ 32 }
    requires each { length kinds.now ≡ length firsts.now }
    requires within { All (λ f. f < length firsts.now) firsts.now }
    ensures { IfOk result (λ lists. (k : ℕ) → k < length firsts.now → slice_get lists k ≡ Some (differing firsts.now kinds.now k)) }
{
    let mut lists = Lists::new(alloc, firsts.len())?;
    for k in 0..firsts.len() {
        let first = firsts[k] as usize;
        if kinds[k] == kinds[first] {
            continue;
        }
        lists.push(first, k as u32)?;
    }
    Ok(lists)
}

// The lists of so many members, each member with those of its list.
fn pairs_in(
    alloc: Global,
    lists: &Lists<u32>,
    members: &Members,
) -> Result<Vec<(u32, u32)>, AllocError>
    ensures { IfOk result (λ v. v.items ≡ pairs_in (length members.now.groups.now) lists.now) }
{
    let mut pairs = Vec::new(alloc);
    for k in 0..members.groups.len() {
        push_each(&mut pairs, k as u32, lists.at(k))?;
    }
    Ok(pairs)
}

// Puts pairs of a first and each later one at the end.
fn push_each(pairs: &mut Vec<(u32, u32)>, first: u32, later: &[u32]) -> Result<(), AllocError>
    ensures { OnOk result (pairs.new.items ≡ pairs.old.items ++ map (λ n. (first, n)) later.now) }
{
    for n in later {
        pairs.push((first, *n))?;
    }
    Ok(())
}
