//! What is asked about tracks, how a track is offered as a candidate, and which line is picked.

ghost use Rattle.greedy_column.specs.Offers.{IsPicked, distance, gap_to, least_distance, offer, pull_to};
ghost use Rattle.std.specs.Prelude.{◌≡◌, ◌<◌, ◌≤◌, ◌+◌, ◌∷◌, ◌^◌, Contains, IfOk, length, map, slice_get};

use crate::lines::Lines;
use crate::moment::Moment;
use choose_core::{Ask, Candidate, Chooses, Next};
use std::alloc::{AllocError, Global};
use std::mem;

// What is asked about some tracks: the ask, the line near which a track is wanted, where there is one, and where the net has
// its next pins.
#[derive(Clone, Copy, Debug)]
pub(crate) struct Question {
    pub(crate) ask: Ask,
    pub(crate) aim: Option<u32>,
    pub(crate) next: Next,
}

impl Question {
    // A track as it is offered, beside the others of its net.
    fn offer(self, others: &Lines, line: u32) -> Candidate
        ensures { result ≡ offer self others.now line }
    {
        Candidate {
            ask: self.ask,
            track: line,
            gap: gap_to(self.aim, line),
            next: self.next,
            pull: pull_to(others, line),
        }
    }
}

// How far a line lies from the one that is aimed at.
fn gap_to(aim: Option<u32>, line: u32) -> u32
    ensures { result ≡ gap_to aim line }
{
    match aim {
        Some(aim) => aim.abs_diff(line),
        None => 0,
    }
}

// How near the others of a net's lines are to a line: 0 where there is none, else 1 more than the least distance.
fn pull_to(others: &Lines, line: u32) -> u32
    ensures { result ≡ pull_to others.now line }
{
    match others.list().split_first() {
        Some((other, more)) => least_distance(line, line.abs_diff(*other), more) + 1,
        None => 0,
    }
}

// The least of a distance and of those from a line to others.
fn least_distance(line: u32, first: u32, others: &[u32]) -> u32
    ensures least { result ≡ least_distance line first others.now }
    ensures within { result ≤ first }
{
    let mut least = first;
    let mut rest = others;
    while let Some((other, more)) = rest.split_first() {
        least = least.min(line.abs_diff(*other));
        rest = more;
    }
    least
}

impl<C: Chooses> Moment<'_, C> {
    // One of these lines of a net that holds other tracks too, picked by the chooser. They are offered in a list that is lent for that.
    pub(crate) fn pick_line(
        &self,
        question: Question,
        others: &Lines,
        lines: &[u32],
        offers: &mut Vec<Candidate>,
    ) -> Result<u32, AllocError>
        requires some { 0 < length lines.now }
        requires few { length lines.now < 2 ^ 32 }
        ensures picked { IfOk result (λ line. IsPicked (C.answers self.now.chooser.now) (offer question others.now) lines.now line) }
        ensures member { IfOk result (λ line. Contains lines.now line) }
    {
        let list = mem::replace(offers, Vec::new(self.alloc));
        *offers = filled_offers(list, question, others, lines)?;
        Ok(lines[self.chooser.choose(offers)])
    }

    // A line of a net that holds other tracks too, or one of these options, picked by the chooser.
    pub(crate) fn pick_from(
        &self,
        question: Question,
        others: &Lines,
        line: u32,
        options: &[u32],
        offers: &mut Vec<Candidate>,
    ) -> Result<u32, AllocError>
        requires { length options.now + 1 < 2 ^ 32 }
        ensures { IfOk result (λ target. IsPicked (C.answers self.now.chooser.now) (offer question others.now) (line ∷ options.now) target) }
    {
        let list = mem::replace(offers, Vec::new(self.alloc));
        *offers = filled_from(list, question, others, line, options)?;
        Ok(line_at(line, options, self.chooser.choose(offers)))
    }

    // One of these lines of a net that holds tracks on its own ones, picked by the chooser.
    pub(crate) fn pick_own(
        &self,
        question: Question,
        own: &Lines,
        lines: &Lines,
        offers: &mut Vec<Candidate>,
    ) -> Result<u32, AllocError>
        requires { 0 < length lines.now }
        ensures picked { IfOk result (λ line. IsPicked (C.answers self.now.chooser.now) (offer question own.now) lines.now line) }
        ensures above { IfOk result (λ line. 0 < line) }
    {
        self.pick_line(question, own, lines.list(), offers)
    }
}

// Some tracks as they are offered, in the room of a list.
fn filled_offers(
    mut offers: Vec<Candidate>,
    question: Question,
    others: &Lines,
    lines: &[u32],
) -> Result<Vec<Candidate>, AllocError>
    ensures { IfOk result (λ filled. filled.items ≡ map (offer question others.now) lines.now) }
{
    offers.clear();
    offers.reserve(lines.len())?;
    let mut rest = lines;
    while let Some((line, later)) = rest.split_first() {
        offers.push_reserved(question.offer(others, *line));
        rest = later;
    }
    Ok(offers)
}

// A line and then some options as they are offered, in the room of a list.
fn filled_from(
    mut offers: Vec<Candidate>,
    question: Question,
    others: &Lines,
    line: u32,
    options: &[u32],
) -> Result<Vec<Candidate>, AllocError>
    ensures { IfOk result (λ filled. filled.items ≡ map (offer question others.now) (line ∷ options.now)) }
{
    offers.clear();
    offers.reserve(options.len() + 1)?;
    offers.push_reserved(question.offer(others, line));
    let mut rest = options;
    while let Some((option, later)) = rest.split_first() {
        offers.push_reserved(question.offer(others, *option));
        rest = later;
    }
    Ok(offers)
}

// What stands at a place of a list that is a line and then some options.
fn line_at(line: u32, options: &[u32], place: usize) -> u32
    requires { place < length options.now + 1 }
    ensures { slice_get (line ∷ options.now) place ≡ Some result }
{
    if place == 0 { line } else { options[place - 1] }
}
