//! The limits of a job: that of the changes of annealing, and those of its layout.

ghost use Rattle.command_ends.specs.Limits.{above};
ghost use Rattle.anneal_int.specs.Annealed.{all_changes};
ghost use Rattle.command_jobs.specs.Limits.{moves_refusal, size_refusal};
ghost use Rattle.command_jobs.specs.Rows.{schedule_of};
ghost use Rattle.command_ends.specs.Status.{refusal_status};
ghost use Rattle.std.specs.Prelude.{◌≡◌, ◌≤◌, IfNone, IfSome};

use crate::placing::schedule_of;
use anneal_int::changes;
use command_ends::{Limited, Refusal};
use command_words::MOST_TRIES;
use design_model::Design;
use limits::{MOST_CHANGES, MOST_COLUMNS, MOST_SIZE};
use pin_assign::Bound;
use tech_rules::Rules;

// The refusal of more than so many.
fn above(what: Limited, most: u64, n: u64) -> Option<Refusal>
    ensures is { result ≡ above what most n }
    ensures status { IfSome result (λ refusal. refusal_status refusal ≡ 6) }
{
    if n > most {
        Some(Refusal::Limit(what, n))
    } else {
        None
    }
}

/// The refusal of a design that would be annealed by more changes than may be, in all its tries together. Takes no memory.
#[tactic(auto, unfolding(crate::specs::Limits::moves_refusal))]
pub(crate) fn moves_refusal(placed: &Design, rules: &Rules, tries: u32) -> Option<Refusal>
    requires some { 1 ≤ tries }
    requires few { tries ≤ MOST_TRIES }
    ensures is { result ≡ moves_refusal rules.now placed.now tries }
    ensures status { IfSome result (λ refusal. refusal_status refusal ≡ 6) }
    ensures few { IfNone result (all_changes placed.now (schedule_of rules.now) ≤ MOST_CHANGES) }
{
    let all = changes(placed, &schedule_of(rules)) * tries as u64;
    above(Limited::Moves, MOST_CHANGES, all)
}

/// The first limit that a layout of this size passes: that of its columns, of its width or of its height. Takes no memory.
#[tactic(auto, unfolding(crate::specs::Limits::size_refusal))]
pub(crate) fn size_refusal(bound: Bound) -> Option<Refusal>
    ensures is { result ≡ size_refusal bound }
    ensures status { IfSome result (λ refusal. refusal_status refusal ≡ 6) }
{
    if let Some(refusal) = above(Limited::Grid, MOST_COLUMNS as u64, bound.grid) {
        return Some(refusal);
    }
    if let Some(refusal) = above(Limited::Width, MOST_SIZE, bound.width) {
        return Some(refusal);
    }
    above(Limited::Height, MOST_SIZE, bound.height)
}
