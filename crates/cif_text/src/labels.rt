//! What the text of a label says: its name and its place.

ghost use Rattle.read_base.specs.Answers.{AnswersAs};
ghost use Rattle.cif_text.specs.Labels.{label_of, placed_label};
ghost use Rattle.std.specs.Prelude.{◌≡◌, Some};

use crate::bytes::split_word;
use crate::misfit::Misfit;
use crate::numbers::next_number;
use std::marker::Model;

/// A label: its name, and its place in the numbers of its level, each of a magnitude of at most 1,000,000,000,000.
#[derive(Debug, Drop)]
pub struct Label<'t> {
    pub name: &'t [u8],
    pub x: i64,
    pub y: i64,
}

impl<'t> Model for Label<'t> {
    ghost use Rattle.cif_text.specs.Labels.{PlacedLabel};
    ghost use Rattle.cif_text.specs.Printable.{IsCifNumber};

    ghost Value = { PlacedLabel };

    ghost view = { λ l. record { name = l.name.now; x = l.x; y = l.y } };

    ghost invariant = { λ l. IsCifNumber l.x × IsCifNumber l.y };
}

// The label of a name, by what stands behind it.
fn placed_label<'t>(name: &'t [u8], rest: &[u8]) -> Result<Label<'t>, Misfit>
    ensures { AnswersAs (λ l. l) Some result (placed_label name.entry.now rest.now) }
{
    let (x, rest) = next_number(rest)?;
    let (y, _) = next_number(rest)?;
    Ok(Label { name, x, y })
}

/// The label that a text gives, as KLayout and Magic write it in the command `94`: its name up to the first white, and behind it the numbers x and y of its place. What follows
/// them is passed over. None where the text is no such label. Takes no memory.
#[tactic(auto, unfolding(crate::specs::Labels::label_of))]
pub fn label_of(text: &[u8]) -> Option<Label<'_>>
    ensures { result ≡ label_of text.now }
{
    let (name, rest) = split_word(text);
    match placed_label(name, rest) {
        Ok(label) => Some(label),
        Err(_) => None,
    }
}
