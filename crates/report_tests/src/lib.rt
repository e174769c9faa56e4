//! Tests of what is told of a layout that was made, and of designs that are made from a number.
#![tactic(auto)]

#[cfg(test)]
mod made_tests;
#[cfg(test)]
mod summary_tests;
