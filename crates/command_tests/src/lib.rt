//! Tests of the commands over shelves and sinks in memory.
#![tactic(auto)]

#[cfg(test)]
mod check_tests;
#[cfg(test)]
mod decimal_tests;
#[cfg(test)]
mod draw_tests;
#[cfg(test)]
mod edge_tests;
#[cfg(test)]
mod height_tests;
#[cfg(test)]
mod help_tests;
#[cfg(test)]
mod import_tests;
#[cfg(test)]
mod label_tests;
#[cfg(test)]
mod limit_tests;
#[cfg(test)]
mod line_tests;
#[cfg(test)]
mod many_tests;
#[cfg(test)]
mod marker_tests;
#[cfg(test)]
mod path_tests;
#[cfg(test)]
mod ported_tests;
#[cfg(test)]
mod route_tests;
#[cfg(test)]
mod size_tests;
#[cfg(test)]
mod style_tests;
#[cfg(test)]
mod summary_tests;
#[cfg(test)]
mod support;
#[cfg(test)]
mod tries_tests;
#[cfg(test)]
mod word_tests;
#[cfg(test)]
mod written_tests;
