//! Tests of the crates of placement: rows, feeds, the tables of channels, and tries.
#![tactic(auto)]

#[cfg(test)]
mod cost_tests;
#[cfg(test)]
mod feed_tests;
#[cfg(test)]
mod first_rows;
#[cfg(test)]
mod pin_tests;
#[cfg(test)]
mod row_tests;
#[cfg(test)]
mod tries_tests;
