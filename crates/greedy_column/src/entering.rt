//! How pins enter tracks: one alone, two of one net, or two of different nets.

ghost use Rattle.greedy_column.specs.Entering.{Enters, EntersAlone, EntersEqual, any_place, bottom_question, entry_at, is_ending, pin_kind, straight_question, top_question};
ghost use Rattle.greedy_column.specs.Lines.{holds_track, open_lines, own_lines};
ghost use Rattle.std.specs.Prelude.{◌≡◌, ◌<◌, ◌+◌, ◌^◌, ◌||◌, IfOk, length};

use crate::column::Made;
use crate::moment::Moment;
use crate::places::any_place;
use crate::question::Question;
use crate::tracks::Tracks;
use choose_core::{Ask, Candidate, Chooses, Manner, Next};
use geom_core::Items;
use std::alloc::{AllocError, Global};

// An edge of the channel.
#[derive(Clone, Copy, Debug)]
pub(crate) enum ChannelEdge {
    Upper,
    Lower,
}

// A pin's net, 0 for no pin, and where the net has its next pins.
#[derive(Clone, Copy, Debug)]
pub(crate) struct EnteringPin {
    pub(crate) net: u32,
    pub(crate) next: Next,
}

// The kinds of columns, by their pins; two pins are of different nets.
#[derive(Clone, Copy, Debug)]
pub(crate) enum PinKind {
    NoPins,
    BottomAlone,
    TopAlone,
    EqualPins,
    TwoPins,
}

// Which pins get a new track, where two pins have no pair of tracks to enter.
#[derive(Clone, Copy, Debug)]
pub(crate) enum Newcomer {
    TopPin,
    BottomPin,
    BothPins,
}

// What step 1 does: the tracks that it makes, and those that the top pin and the bottom pin enter, 0 where there is none.
#[derive(Debug, Drop)]
pub(crate) struct Entries {
    pub(crate) made: Items<Made>,
    pub(crate) top: u32,
    pub(crate) bottom: u32,
}

impl EnteringPin {
    // What is asked of two equal pins of this net.
    fn straight_question(self) -> Question
        ensures { result ≡ straight_question self }
    {
        Question {
            ask: Ask::Enter,
            aim: None,
            next: self.next,
        }
    }

    // What is asked of this pin at the top, above some tracks.
    pub(crate) fn top_question(self, tracks: &Tracks) -> Question
        ensures { result ≡ top_question self (length tracks.now) }
    {
        Question {
            ask: Ask::Enter,
            aim: Some(tracks.upper_edge()),
            next: self.next,
        }
    }

    // What is asked of this pin at the bottom.
    pub(crate) fn bottom_question(self) -> Question
        ensures { result ≡ bottom_question self }
    {
        Question {
            ask: Ask::Enter,
            aim: Some(0),
            next: self.next,
        }
    }
}

// The entry of a pin at an edge.
fn entry_at(edge: ChannelEdge, made: Vec<Made>, id: u32) -> Entries
    ensures { result ≡ entry_at edge made.items id }
{
    let made = Items::new(made);
    match edge {
        ChannelEdge::Upper => Entries {
            made,
            top: id,
            bottom: 0,
        },
        ChannelEdge::Lower => Entries {
            made,
            top: 0,
            bottom: id,
        },
    }
}

// The kind of a column, by the nets of its pins.
fn pin_kind(top: u32, bottom: u32) -> PinKind
    ensures { result ≡ pin_kind top bottom }
{
    if top == bottom {
        if top == 0 {
            PinKind::NoPins
        } else {
            PinKind::EqualPins
        }
    } else if top == 0 {
        PinKind::BottomAlone
    } else if bottom == 0 {
        PinKind::TopAlone
    } else {
        PinKind::TwoPins
    }
}

// Whether a net has no later pin.
pub(crate) fn is_ending(next: Next) -> bool
    ensures { result ≡ is_ending next }
{
    match next {
        Next::Ends => true,
        Next::Top | Next::Bottom | Next::Both => false,
    }
}

impl<C: Chooses> Moment<'_, C> {
    // The entries of a column's pins. Tracks are offered in a list that is lent for that, as in all that it calls.
    pub(crate) fn enter(
        &self,
        before: &Tracks,
        fresh: u32,
        top: EnteringPin,
        bottom: EnteringPin,
        offers: &mut Vec<Candidate>,
    ) -> Result<Entries, AllocError>
        requires { fresh + 2 < 2 ^ 32 }
        ensures { IfOk result (λ entries. Enters self.now.manner (C.answers self.now.chooser.now) top bottom before.now fresh entries) }
    {
        match pin_kind(top.net, bottom.net) {
            PinKind::NoPins => Ok(Entries {
                made: Items::new(Vec::new(self.alloc)),
                top: 0,
                bottom: 0,
            }),
            PinKind::BottomAlone => {
                let question = bottom.bottom_question();
                let lower = ChannelEdge::Lower;
                self.enter_alone(lower, lower, bottom, question, before, fresh, offers)
            }
            PinKind::TopAlone => {
                let question = top.top_question(before);
                let upper = ChannelEdge::Upper;
                self.enter_alone(upper, upper, top, question, before, fresh, offers)
            }
            PinKind::EqualPins => self.enter_equal(before, fresh, top, offers),
            PinKind::TwoPins => {
                let lines = before.lines_for_both(self.alloc, top.net, bottom.net)?;
                let (uppers, lowers) = lines;
                self.enter_pair(before, fresh, top, bottom, &uppers, &lowers, offers)
            }
        }
    }

    // The entry at an edge of a pin alone, or of two equal ones, onto a line that is open to it, or onto a new track that is placed for an
    // edge.
    fn enter_alone(
        &self,
        edge: ChannelEdge,
        placed: ChannelEdge,
        pin: EnteringPin,
        question: Question,
        before: &Tracks,
        fresh: u32,
        offers: &mut Vec<Candidate>,
    ) -> Result<Entries, AllocError>
        ensures { IfOk result (λ entries. EntersAlone (C.answers self.now.chooser.now) edge question (own_lines pin.net before.now)
            (any_place self.now.manner pin placed before.now) before.now fresh (open_lines pin.net before.now) entries) }
    {
        let lines = before.lines_for(self.alloc, pin.net)?;
        if lines.all.list().is_empty() {
            let below = any_place(self.manner, pin, placed, before);
            let made = vec![in self.alloc; Made { id: fresh, below }]?;
            return Ok(entry_at(edge, made, fresh));
        }
        let line = self.pick_own(question, &lines.own, &lines.all, offers)?;
        Ok(entry_at(edge, Vec::new(self.alloc), before.id_on(line)))
    }

    // The entry of two equal pins.
    fn enter_equal(
        &self,
        before: &Tracks,
        fresh: u32,
        pin: EnteringPin,
        offers: &mut Vec<Candidate>,
    ) -> Result<Entries, AllocError>
        ensures { IfOk result (λ entries.
            EntersEqual self.now.manner (C.answers self.now.chooser.now) pin before.now fresh (holds_track before.now pin.net || is_ending pin.next) entries) }
    {
        if before.holds(pin.net) || is_ending(pin.next) {
            return Ok(Entries {
                made: Items::new(Vec::new(self.alloc)),
                top: 0,
                bottom: 0,
            });
        }
        let question = pin.straight_question();
        self.enter_alone(
            ChannelEdge::Upper,
            ChannelEdge::Lower,
            pin,
            question,
            before,
            fresh,
            offers,
        )
    }
}
