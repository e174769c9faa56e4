//! Tests of the rules of widths, spaces and rows, over the sample rules: wires are 600 wide and 600 apart, cuts are squares of 400 that
//! are 600 apart and reached around by 200.
#![tactic(auto)]

#[cfg(test)]
mod large_tests;
#[cfg(test)]
mod outline_tests;
#[cfg(test)]
mod shapes;
#[cfg(test)]
mod wire_tests;
