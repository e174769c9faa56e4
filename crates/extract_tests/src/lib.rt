//! Tests of the numbers of shapes and pins: short rows, cells with wires and without, and layouts of a million shapes.
#![tactic(auto)]

#[cfg(test)]
mod cell_tests;
#[cfg(test)]
mod chip_tests;
#[cfg(test)]
mod large_tests;
#[cfg(test)]
mod matching;
#[cfg(test)]
mod row_tests;
#[cfg(test)]
mod texts;
