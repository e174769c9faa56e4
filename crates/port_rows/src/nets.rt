//! The nets of a design with those of its ports, and the pins of the ports.

ghost use Rattle.list_facts.specs.Names.{mention, mentions};
ghost use Rattle.list_facts.specs.Texts.{texts};
ghost use Rattle.port_rows.specs.Added.{nets_with};
ghost use Rattle.std.specs.Prelude.{◌≡◌, ◌≤◌, ◌+◌, ◌++◌, fold, length, IfOk, OnOk};

use crate::names::Ports;
use design_model::{Design, Pin};
use geom_core::Name;
use indexmap::IndexSet;
use limits::MOST_INSTANCES;
use list_facts::{number, place_of};
use std::alloc::{AllocError, Global};
use std::marker::Model;

/// The words of nets, fewer than 2^32 - 1, which contracts see as the list of them.
#[derive(Drop)]
pub(crate) struct Nets<'a> {
    words: IndexSet<&'a [u8]>,
}

impl<'a> Model for Nets<'a> {
    ghost use Rattle.list_facts.specs.Texts.{texts};
    ghost use Rattle.std.specs.Prelude.{◌<◌, ◌-◌, ◌^◌, ℕ, List, length};

    ghost Value = { List (List ℕ) };

    ghost view = { λ a. texts a.words.keys };

    ghost invariant = { λ a. length (texts a.words.keys) < 2 ^ 32 - 1 };
}

impl<'a> Nets<'a> {
    ghost use Rattle.list_facts.specs.Names.{place_among};
    ghost use Rattle.list_facts.specs.Texts.{texts};
    ghost use Rattle.port_rows.specs.Added.{port_pins};
    ghost use Rattle.std.specs.Prelude.{◌≡◌, ◌++◌, ◌+◌, ◌<◌, ◌^◌, length, IfOk, OnOk};

    // The number of the net with this word, from 1; one more than there are nets where none has it. Takes no memory.
    fn net(&self, word: &[u8]) -> u32
        ensures { result ≡ place_among self.now word.now + 1 }
    {
        place_of(&self.words, word) as u32 + 1
    }

    /// Puts the pins of ports, of which the first is this instance, behind others. The one error is want of memory.
    pub(crate) fn add_pins(
        &self,
        pins: &mut Vec<Pin>,
        first: u32,
        ports: &[&[u8]],
    ) -> Result<(), AllocError>
        requires { first + length ports.now < 2 ^ 32 }
        ensures { OnOk result (pins.new.items ≡ pins.old.items ++ port_pins self.now first (texts ports.now)) }
    {
        let mut instance = first;
        for port in ports {
            pins.push(Pin {
                instance,
                terminal: 0,
                net: self.net(port),
            })?;
            instance += 1;
        }
        Ok(())
    }

    /// Copies of the words. The one error is want of memory.
    pub(crate) fn copies(&self, alloc: Global) -> Result<Vec<Name>, AllocError>
        ensures { IfOk result (λ copies. copies.items ≡ self.now) }
    {
        let mut copies = Vec::with_capacity(alloc, self.words.len())?;
        for word in self.words.iter() {
            copies.push(Name::new(word.to_vec(alloc)?))?;
        }
        Ok(copies)
    }
}

/// The nets of a design, and behind them those of its ports whose signals no pin has. The one error is want of memory.
pub(crate) fn nets_with<'a>(
    alloc: Global,
    design: &'a Design,
    ports: &Ports<'a>,
) -> Result<Nets<'a>, AllocError>
    requires { length ports.now.south + length ports.now.north ≤ MOST_INSTANCES }
    ensures { IfOk result (λ nets. nets ≡ nets_with design.entry.now.nets (ports.now.south ++ ports.now.north)) }
{
    // The bounds of the design's type are known once a field is read.
    let _nets = &design.nets;
    let words = words_with(
        alloc,
        design,
        ports.south.as_slice(),
        ports.north.as_slice(),
    )?;
    Ok(Nets { words })
}

// The words of the nets.
#[tactic(auto, unfolding(crate::specs::Added::nets_with))]
fn words_with<'a>(
    alloc: Global,
    design: &'a Design,
    south: &[&'a [u8]],
    north: &[&'a [u8]],
) -> Result<IndexSet<&'a [u8]>, AllocError>
    ensures { IfOk result (λ words. texts words.keys ≡ nets_with design.entry.now.nets (texts south.now ++ texts north.now)) }
{
    let mut words = design_words(alloc, design)?;
    mention_all(&mut words, south)?;
    mention_all(&mut words, north)?;
    Ok(words)
}

// The words of a design's nets. The one error is want of memory.
fn design_words<'a>(alloc: Global, design: &'a Design) -> Result<IndexSet<&'a [u8]>, AllocError>
    ensures { IfOk result (λ words. texts words.keys ≡ design.entry.now.nets) }
{
    words_of(alloc, design.nets.items())
}

// The words of names, each once. The one error is want of memory.
fn words_of<'a>(alloc: Global, names: &'a [Name]) -> Result<IndexSet<&'a [u8]>, AllocError>
    ensures { IfOk result (λ words. texts words.keys ≡ mentions names.entry.now) }
{
    let mut words = IndexSet::new(alloc);
    for name in names {
        number(&mut words, name.items())?;
    }
    Ok(words)
}

// Puts words behind others where they are new. The one error is want of memory.
fn mention_all<'a>(words: &mut IndexSet<&'a [u8]>, more: &[&'a [u8]]) -> Result<(), AllocError>
    ensures { OnOk result (texts words.new.keys ≡ fold mention (texts words.old.keys) (texts more.now)) }
{
    for word in more {
        number(words, word)?;
    }
    Ok(())
}
