//! Tests of the notes on findings and of their markers: layouts with each kind, the texts, and how many are told.
#![tactic(auto)]

#[cfg(test)]
mod cell_tests;
#[cfg(test)]
mod large_tests;
#[cfg(test)]
mod long_tests;
#[cfg(test)]
mod marker_tests;
#[cfg(test)]
mod net_tests;
#[cfg(test)]
mod shape_tests;
#[cfg(test)]
mod telling;
