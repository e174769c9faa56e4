//! Tests of close rectangles: short rows, and rows of a million, of classes and of none.
#![tactic(auto)]

#[cfg(test)]
mod crowd_tests;
#[cfg(test)]
mod large_tests;
#[cfg(test)]
mod row_tests;
