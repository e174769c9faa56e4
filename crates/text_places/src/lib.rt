//! The places of words, keys and commands in texts, as far as any text has them, and the words that notes show.
#![tactic(auto)]

mod blif_tokens;
mod cif_text_places;
mod lengths;
mod near;
mod rules_text;
mod shown;
mod told;
mod unread;
mod yal_tokens;
mod yal_walk;

pub use blif_tokens::{BlifWalk, blif_walk, first_blif_word, next_blif_token, place_of_directive};
pub use cif_text_places::{CommandText, command_at, next_command};
pub use lengths::units;
pub use near::{difference, meant, nearest, word_meant};
pub use rules_text::{
    Lines, Stated, line_of_key, misplaced, near_key, near_table, place_of_key, place_of_table,
    section_of,
};
pub use shown::{FileName, Shown};
pub use told::{Spot, Told};
pub use unread::{next_unread, words_of};
pub use yal_tokens::{Token, are_on_two_lines, from_byte, next_token};
pub use yal_walk::{Found, Part, Sought, Walk, find, line_of, place_of};
