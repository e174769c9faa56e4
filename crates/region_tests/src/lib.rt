//! Tests of the rectangles of wires and polygons.
#![tactic(auto)]

#[cfg(test)]
mod blocks;
#[cfg(test)]
mod every_tests;
#[cfg(test)]
mod large_tests;
#[cfg(test)]
mod merge_tests;
#[cfg(test)]
mod plain;
#[cfg(test)]
mod row_tests;
#[cfg(test)]
mod spiral_tests;
