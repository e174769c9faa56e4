//! Tests of the notes for people on netlists that come in, on pictures, and on the words of their commands.
#![tactic(auto)]

#[cfg(test)]
mod blif_mistakes;
#[cfg(test)]
mod box_mistakes;
#[cfg(test)]
mod cell_mistakes;
#[cfg(test)]
mod import_mistakes;
#[cfg(test)]
mod picture_mistakes;
#[cfg(test)]
mod support;
#[cfg(test)]
mod word_mistakes;
