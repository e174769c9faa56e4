//! The nets of a design, one for each signal word, and its pins with the numbers of their nets.

ghost use Rattle.list_facts.specs.Texts.{texts};
ghost use Rattle.netlist_core.specs.Signals.{nets_of, pin_in};
ghost use Rattle.std.specs.Prelude.{◌≡◌, map, IfOk};

use crate::checked::Checked;
use crate::signals::Signal;
use design_model::Pin;
use geom_core::Name;
use indexmap::IndexSet;
use list_facts::{number, place_of};
use std::alloc::{AllocError, Global};
use std::marker::Model;

// The nets of a design, which contracts see as their different words, in the order of their first mention.
#[derive(Drop)]
struct Nets<'a> {
    words: IndexSet<&'a [u8]>,
}

impl<'a> Model for Nets<'a> {
    ghost use Rattle.limits.specs.declared.TheConstants.{MOST_PINS};
    ghost use Rattle.list_facts.specs.Texts.{texts};
    ghost use Rattle.std.specs.Prelude.{◌≤◌, ℕ, List, length};

    ghost Value = { List (List ℕ) };

    ghost view = { λ a. texts a.words.keys };

    ghost invariant = { λ a. length (texts a.words.keys) ≤ MOST_PINS };
}

impl<'a> Nets<'a> {
    ghost use Rattle.netlist_core.specs.Signals.{pin_in};
    ghost use Rattle.std.specs.Prelude.{◌≡◌, map, IfOk};

    // The pin of a word, with the number of its net.
    fn pin(&self, signal: &Signal) -> Pin
        ensures { result ≡ pin_in self.now signal.now }
    {
        Pin {
            instance: signal.instance,
            terminal: signal.terminal,
            net: place_of(&self.words, signal.word) as u32 + 1,
        }
    }

    // The pins of these words. The one error is want of memory.
    fn pins(&self, alloc: Global, signals: &[Signal]) -> Result<Vec<Pin>, AllocError>
        ensures { IfOk result (λ pins. pins.items ≡ map (pin_in self.now) signals.now) }
    {
        let mut pins = Vec::with_capacity(alloc, signals.len())?;
        for signal in signals {
            pins.push(self.pin(signal))?;
        }
        Ok(pins)
    }

    // Copies of the words. The one error is want of memory.
    fn copies(&self, alloc: Global) -> Result<Vec<Name>, AllocError>
        ensures { IfOk result (λ copies. copies.items ≡ self.now) }
    {
        let mut copies = Vec::with_capacity(alloc, self.words.len())?;
        for word in self.words.iter() {
            copies.push(copy(alloc, word)?)?;
        }
        Ok(copies)
    }
}

/// The pins and the nets of a design.
#[derive(Drop)]
pub(crate) struct Connections {
    pub(crate) pins: Vec<Pin>,
    pub(crate) nets: Vec<Name>,
}

/// The pins of checked calls, and the nets that their words make. The one error is want of memory.
pub(crate) fn connections_of(alloc: Global, checked: &Checked) -> Result<Connections, AllocError>
    ensures pins { IfOk result (λ c. c.pins.items ≡ map (pin_in (nets_of checked.now.signals)) checked.now.signals) }
    ensures nets { IfOk result (λ c. c.nets.items ≡ nets_of checked.now.signals) }
{
    let signals = checked.signals.as_slice();
    let nets = nets_of(alloc, checked)?;
    Ok(Connections {
        pins: nets.pins(alloc, signals)?,
        nets: nets.copies(alloc)?,
    })
}

// The nets that the words of checked calls make. The one error is want of memory.
fn nets_of<'a>(alloc: Global, checked: &Checked<'a>) -> Result<Nets<'a>, AllocError>
    ensures { IfOk result (λ nets. nets ≡ nets_of checked.now.signals) }
{
    let words = words_of(alloc, checked.signals.as_slice())?;
    Ok(Nets { words })
}

// The different words of these, in the order of their first mention. The one error is want of memory.
#[tactic(auto, unfolding(crate::specs::Signals::nets_of))]
fn words_of<'a>(alloc: Global, signals: &[Signal<'a>]) -> Result<IndexSet<&'a [u8]>, AllocError>
    ensures { IfOk result (λ words. texts words.keys ≡ nets_of signals.now) }
{
    let mut words = IndexSet::new(alloc);
    for signal in signals {
        number(&mut words, signal.word)?;
    }
    Ok(words)
}

fn copy(alloc: Global, word: &[u8]) -> Result<Name, AllocError>
    ensures { IfOk result (λ name. name ≡ word.now) }
{
    Ok(Name::new(word.to_vec(alloc)?))
}
