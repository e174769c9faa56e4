//! Tests of the notes on a layout that was made.
#![tactic(auto)]

#[cfg(test)]
mod cycle_tests;
