//! Tests of the notes for people: the mistakes of beginners, and what they are told.
#![tactic(auto)]

#[cfg(test)]
mod design_mistakes;
#[cfg(test)]
mod excerpt_tests;
#[cfg(test)]
mod file_mistakes;
#[cfg(test)]
mod layout_mistakes;
#[cfg(test)]
mod limit_mistakes;
#[cfg(test)]
mod printing_tests;
#[cfg(test)]
mod progress_tests;
#[cfg(test)]
mod rules_mistakes;
#[cfg(test)]
mod support;
#[cfg(test)]
mod warning_tests;
#[cfg(test)]
mod word_mistakes;
#[cfg(test)]
mod yal_mistakes;
