//! How two pins of different nets enter: both onto open tracks, one onto a new track, or both onto new ones.

ghost use Rattle.greedy_column.specs.Entering.{EntersAbove, EntersBelow, EntersPair, EntersPartners, both_new, newcomer_by, newcomer_of};
ghost use Rattle.greedy_column.specs.Lines.{above_lowest, below_line, holds_track, own_lines};
ghost use Rattle.std.specs.Prelude.{◌≡◌, ◌<◌, ◌+◌, ◌^◌, ℕ, Contains, IfOk, length};

use crate::column::Made;
use crate::entering::{ChannelEdge, EnteringPin, Entries, Newcomer};
use crate::lines::{Lines, OpenLines};
use crate::moment::Moment;
use crate::places::{any_place, place_for, place_of_new};
use crate::tracks::Tracks;
use choose_core::{Candidate, Chooses, Manner};
use geom_core::Items;
use std::alloc::{AllocError, Global};

// Which pin gets a new track where each has lines that are open to it, from whether the pins' nets hold tracks.
fn newcomer_by(manner: Manner, top_holds: bool, bottom_holds: bool) -> Newcomer
    ensures { result ≡ newcomer_by manner top_holds bottom_holds }
{
    match manner {
        Manner::LookingAhead if top_holds && !bottom_holds => Newcomer::BottomPin,
        Manner::LookingAhead | Manner::Published => Newcomer::TopPin,
    }
}

// Which pins get a new track, from the lines that are open to the top pin and to the bottom pin.
fn newcomer_of(
    manner: Manner,
    top_holds: bool,
    bottom_holds: bool,
    uppers: &Lines,
    lowers: &Lines,
) -> Newcomer
    ensures { result ≡ newcomer_of manner top_holds bottom_holds uppers.now lowers.now }
{
    match (uppers.list(), lowers.list()) {
        ([], [_, ..]) => Newcomer::TopPin,
        ([_, ..], [_, ..]) => newcomer_by(manner, top_holds, bottom_holds),
        ([_, ..], []) => Newcomer::BottomPin,
        ([], []) => Newcomer::BothPins,
    }
}

impl<C: Chooses> Moment<'_, C> {
    // The entries of two pins of different nets, from the lines that are open to them.
    pub(crate) fn enter_pair(
        &self,
        before: &Tracks,
        fresh: u32,
        top: EnteringPin,
        bottom: EnteringPin,
        uppers: &OpenLines,
        lowers: &OpenLines,
        offers: &mut Vec<Candidate>,
    ) -> Result<Entries, AllocError>
        requires fresh { fresh + 2 < 2 ^ 32 }
        requires top_own { uppers.now.own ≡ own_lines top.net before.now }
        requires bottom_own { lowers.now.own ≡ own_lines bottom.net before.now }
        ensures { IfOk result (λ entries. EntersPair self.now.manner (C.answers self.now.chooser.now) top bottom before.now fresh
            uppers.now.all lowers.now.all (above_lowest lowers.now.all uppers.now.all) entries) }
    {
        let partnered = uppers.all.above_lowest(self.alloc, &lowers.all)?;
        if !partnered.list().is_empty() {
            return self.enter_partners(
                before,
                top,
                bottom,
                &uppers.own,
                lowers,
                &partnered,
                offers,
            );
        }
        let top_holds = before.holds(top.net);
        let bottom_holds = before.holds(bottom.net);
        match newcomer_of(
            self.manner,
            top_holds,
            bottom_holds,
            &uppers.all,
            &lowers.all,
        ) {
            Newcomer::TopPin => self.enter_above(before, fresh, top, bottom, lowers, offers),
            Newcomer::BottomPin => self.enter_below(before, fresh, top, bottom, uppers, offers),
            Newcomer::BothPins => enter_both_new(
                self.alloc,
                self.manner,
                before,
                fresh,
                top,
                bottom,
            ),
        }
    }

    // Those of two pins with a pair of lines, from the lines of the top pin that have a partner.
    fn enter_partners(
        &self,
        before: &Tracks,
        top: EnteringPin,
        bottom: EnteringPin,
        top_own: &Lines,
        lowers: &OpenLines,
        partnered: &Lines,
        offers: &mut Vec<Candidate>,
    ) -> Result<Entries, AllocError>
        requires some { 0 < length partnered.now }
        requires partners { (line : ℕ) → Contains partnered.now line → 0 < length (below_line line lowers.now.all) }
        requires top_own { top_own.now ≡ own_lines top.net before.now }
        requires bottom_own { lowers.now.own ≡ own_lines bottom.net before.now }
        ensures { IfOk result (λ entries. EntersPartners (C.answers self.now.chooser.now) top bottom before.now lowers.now.all partnered.now entries) }
    {
        let question = top.top_question(before);
        let line = self.pick_own(question, top_own, partnered, offers)?;
        let partners = lowers.all.below(self.alloc, line)?;
        let question = bottom.bottom_question();
        let below = self.pick_own(question, &lowers.own, &partners, offers)?;
        Ok(Entries {
            made: Items::new(Vec::new(self.alloc)),
            top: before.id_on(line),
            bottom: before.id_on(below),
        })
    }

    // Those of two pins of which the bottom pin enters one of its lines, and the top pin a new track above it.
    fn enter_above(
        &self,
        before: &Tracks,
        fresh: u32,
        top: EnteringPin,
        bottom: EnteringPin,
        lowers: &OpenLines,
        offers: &mut Vec<Candidate>,
    ) -> Result<Entries, AllocError>
        requires some { 0 < length lowers.now.all }
        requires own { lowers.now.own ≡ own_lines bottom.net before.now }
        ensures { IfOk result (λ entries. EntersAbove self.now.manner (C.answers self.now.chooser.now) top bottom before.now fresh lowers.now.all entries) }
    {
        let question = bottom.bottom_question();
        let line = self.pick_own(question, &lowers.own, &lowers.all, offers)?;
        let most = before.count();
        let below = place_for(self.manner, top, ChannelEdge::Upper, before, line, most);
        let made = vec![in self.alloc; Made { id: fresh, below }]?;
        Ok(Entries {
            made: Items::new(made),
            top: fresh,
            bottom: before.id_on(line),
        })
    }

    // Those of two pins of which the top pin enters one of its lines, and the bottom pin a new track below it.
    fn enter_below(
        &self,
        before: &Tracks,
        fresh: u32,
        top: EnteringPin,
        bottom: EnteringPin,
        uppers: &OpenLines,
        offers: &mut Vec<Candidate>,
    ) -> Result<Entries, AllocError>
        requires some { 0 < length uppers.now.all }
        requires own { uppers.now.own ≡ own_lines top.net before.now }
        ensures { IfOk result (λ entries. EntersBelow self.now.manner (C.answers self.now.chooser.now) top bottom before.now fresh uppers.now.all entries) }
    {
        let question = top.top_question(before);
        let line = self.pick_own(question, &uppers.own, &uppers.all, offers)?;
        let below = place_for(self.manner, bottom, ChannelEdge::Lower, before, 0, line - 1);
        let made = vec![in self.alloc; Made { id: fresh, below }]?;
        Ok(Entries {
            made: Items::new(made),
            top: before.id_on(line),
            bottom: fresh,
        })
    }
}

// Those of two pins that both enter new tracks.
fn enter_both_new(
    alloc: Global,
    manner: Manner,
    before: &Tracks,
    fresh: u32,
    top: EnteringPin,
    bottom: EnteringPin,
) -> Result<Entries, AllocError>
    requires { fresh + 2 < 2 ^ 32 }
    ensures { IfOk result (λ entries. entries ≡ both_new manner top bottom before.now fresh) }
{
    let lower = any_place(manner, bottom, ChannelEdge::Lower, before);
    let holds = before.holds(top.net);
    let most = before.count() + 1;
    let upper = place_of_new(
        manner,
        holds,
        top.next,
        ChannelEdge::Upper,
        most,
        lower + 1,
        most,
    );
    let made = vec![in alloc;
        Made {
            id: fresh,
            below: lower,
        },
        Made {
            id: fresh + 1,
            below: upper,
        },
    ]?;
    Ok(Entries {
        made: Items::new(made),
        top: fresh + 1,
        bottom: fresh,
    })
}
