//! Tests of what is wrong with layouts: each kind of finding alone, several in their order, layouts of many cells, and layouts of the same areas.
#![tactic(auto)]

#[cfg(test)]
mod cell_tests;
#[cfg(test)]
mod large_tests;
#[cfg(test)]
mod merge_tests;
#[cfg(test)]
mod net_tests;
#[cfg(test)]
mod shape_tests;
#[cfg(test)]
mod texts;
