//! The pieces in which an open net hangs: which of its pins are joined.

use crate::judged::JudgedLayout;
use crate::naming::pin_text;
use crate::shape_nets::ShapeNets;
use crate::untold::Untold;
use std::alloc::{AllocError, Global};

// How many pins are named in all, and how many of one piece.
const MOST_NAMED: usize = 8;

const MOST_OF_PIECE: usize = 4;

/// A pin of a net, and the number of its piece.
#[derive(Clone, Copy)]
struct Member {
    pin: u32,
    class: u32,
}

// The pins of a net, in order, with the pieces that they hang in.
fn members_of(
    alloc: Global,
    judged: &JudgedLayout<'_>,
    nets: &ShapeNets,
    net: u32,
) -> Result<Vec<Member>, Untold> {
    let mut members = Vec::new(alloc);
    let mut number: u32 = 0;
    for pin in judged.pins() {
        if pin.net == net {
            let class = nets.class_of_pin(number).ok_or(Untold)?;
            members.push(Member { pin: number, class })?;
        }
        number = number.saturating_add(1);
    }
    Ok(members)
}

// How many different pieces there are.
fn count_pieces(alloc: Global, members: &[Member]) -> Result<usize, AllocError> {
    let mut classes = Vec::new(alloc);
    for member in members {
        classes.push(member.class)?;
    }
    classes.as_mut_slice().sort_unstable();
    let mut count: usize = 0;
    let mut before = None;
    for class in classes.as_slice() {
        if before != Some(*class) {
            count = count.saturating_add(1);
        }
        before = Some(*class);
    }
    Ok(count)
}

// The text of pieces, how many pins it names, and which pieces it tells.
#[derive(Drop)]
struct Pieces {
    text: String,
    named: usize,
    told: Vec<u32>,
}

impl Pieces {
    // Puts words behind the text.
    fn put(&mut self, words: &str) -> Result<(), AllocError> {
        self.text.push_str(words)
    }

    // Names a pin, the first of its piece or a later one.
    fn name(&mut self, pin: &String, earlier: usize) -> Result<(), AllocError> {
        if earlier > 0 {
            self.put(", ")?;
        }
        self.put(pin.as_str())?;
        self.named = self.named.saturating_add(1);
        Ok(())
    }

    // Tells a piece by its first pins, unless it is told or enough pins are named.
    fn tell(
        &mut self,
        alloc: Global,
        judged: &JudgedLayout<'_>,
        members: &[Member],
        class: u32,
    ) -> Result<(), Untold> {
        if self.named >= MOST_NAMED || self.told.as_slice().contains(&class) {
            return Ok(());
        }
        if !self.told.is_empty() {
            self.put(" | ")?;
        }
        self.told.push(class)?;
        self.tell_pins(alloc, judged, members, class)
    }

    // Names the first pins of a piece, and says how many more it has.
    fn tell_pins(
        &mut self,
        alloc: Global,
        judged: &JudgedLayout<'_>,
        members: &[Member],
        class: u32,
    ) -> Result<(), Untold> {
        let mut count: usize = 0;
        let mut more: usize = 0;
        for member in members {
            if member.class != class {
                continue;
            }
            if count < MOST_OF_PIECE && self.named < MOST_NAMED {
                self.name(&pin_text(alloc, judged, member.pin)?, count)?;
                count = count.saturating_add(1);
            } else {
                more = more.saturating_add(1);
            }
        }
        if more > 0 {
            self.put(format!(in alloc; " and {more} more")?.as_str())?;
        }
        Ok(())
    }
}

// Tells the pieces, those of two pins first, as long as pins can be named.
fn told_pieces(
    alloc: Global,
    judged: &JudgedLayout<'_>,
    members: &[Member],
    first: u32,
    second: u32,
) -> Result<Pieces, Untold> {
    let mut pieces = Pieces {
        text: String::new(alloc),
        named: 0,
        told: Vec::new(alloc),
    };
    pieces.tell(alloc, judged, members, first)?;
    pieces.tell(alloc, judged, members, second)?;
    for member in members {
        pieces.tell(alloc, judged, members, member.class)?;
    }
    Ok(pieces)
}

/// The words for the pieces of a net, that of two of its pins first: how many there are, and which pins hang together, of which eight are named.
pub(crate) fn pieces_text(
    alloc: Global,
    judged: &JudgedLayout<'_>,
    nets: &ShapeNets,
    p: u32,
    q: u32,
) -> Result<String, Untold> {
    let members = members_of(alloc, judged, nets, judged.pin(p)?.net)?;
    let first = nets.class_of_pin(p).ok_or(Untold)?;
    let second = nets.class_of_pin(q).ok_or(Untold)?;
    let count = count_pieces(alloc, members.as_slice())?;
    let pieces = told_pieces(alloc, judged, members.as_slice(), first, second)?;
    let text = pieces.text.as_str();
    let more = count.saturating_sub(pieces.told.len());
    if more > 0 {
        return Ok(format!(in alloc; "{count} pieces: {text} | and {more} pieces more")?);
    }
    Ok(format!(in alloc; "{count} pieces: {text}")?)
}
