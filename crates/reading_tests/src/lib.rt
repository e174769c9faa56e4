//! Tests of the crates that read: lists and rectangles, shelves and sinks, names, rules files, texts of YAL, and checked designs.
#![tactic(auto)]

#[cfg(test)]
mod decimal_tests;
#[cfg(test)]
mod design_tests;
#[cfg(test)]
mod file_tests;
#[cfg(test)]
mod geometry_tests;
#[cfg(test)]
mod height_tests;
#[cfg(test)]
mod name_tests;
#[cfg(test)]
mod odd_cells;
#[cfg(test)]
mod refusal_tests;
#[cfg(test)]
mod rules_tests;
#[cfg(test)]
mod shelf_tests;
#[cfg(test)]
mod shown_files;
#[cfg(test)]
mod yal_tests;
