//! Tests of whole layouts: rows and channels on one another, mirrored cells, and the written text.
#![tactic(auto)]

#[cfg(test)]
mod label_tests;
#[cfg(test)]
mod mirror;
#[cfg(test)]
mod mirror_tests;
#[cfg(test)]
mod riser_tests;
#[cfg(test)]
mod routing;
#[cfg(test)]
mod stack_tests;
#[cfg(test)]
mod support;
#[cfg(test)]
mod text_tests;
#[cfg(test)]
mod writer_tests;
#[cfg(test)]
mod written;
