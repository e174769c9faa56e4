//! Tests of the pictures of layouts.
#![tactic(auto)]

#[cfg(test)]
mod drawn;
#[cfg(test)]
mod frame_tests;
#[cfg(test)]
mod layer_tests;
#[cfg(test)]
mod limit_tests;
#[cfg(test)]
mod name_tests;
#[cfg(test)]
mod whole_tests;
#[cfg(test)]
mod writing_tests;
