//! What is gathered of a command for people.

use command_inputs::Texts;
use note_text::Notes;
use std::alloc::Global;

/// What is gathered of a command for people, as far as it has come: the texts that it has read, and notes on what they say.
#[derive(Drop)]
pub(crate) struct Heard {
    pub(crate) texts: Texts,
    pub(crate) notes: Notes,
}

impl Heard {
    /// Nothing yet. Takes no memory.
    pub(crate) fn new(alloc: Global) -> Heard {
        Heard {
            texts: Texts::new(),
            notes: Notes::new(alloc),
        }
    }
}
