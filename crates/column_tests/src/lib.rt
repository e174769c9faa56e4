//! Tests of the crates of the greedy column: stored choices, and the records of columns under several choosers.
#![tactic(auto)]

#[cfg(test)]
mod ahead_tests;
#[cfg(test)]
mod chooser_tests;
#[cfg(test)]
mod column_tables;
#[cfg(test)]
mod long_channel;
#[cfg(test)]
mod wide_tests;
#[cfg(test)]
mod worked_tests;
