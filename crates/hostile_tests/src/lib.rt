//! Tests of hostile use: cut, flipped and oversized files, an outside of which each call fails once, and names that are equal.
#![tactic(auto)]

#[cfg(test)]
mod cut_tests;
#[cfg(test)]
mod name_tests;
#[cfg(test)]
mod nested_tests;
#[cfg(test)]
mod oversized_tests;
#[cfg(test)]
mod shelf_tests;
#[cfg(test)]
mod sink_tests;
#[cfg(test)]
mod support;
