//! Tests of the reading of CIF, and of the layouts that it gives.
#![tactic(auto)]

#[cfg(test)]
mod command_tests;
#[cfg(test)]
mod cut_tests;
#[cfg(test)]
mod expansion_tests;
#[cfg(test)]
mod fault_tests;
#[cfg(test)]
mod label_tests;
#[cfg(test)]
mod long_path_tests;
#[cfg(test)]
mod many_tests;
#[cfg(test)]
mod path_tests;
#[cfg(test)]
mod shown;
