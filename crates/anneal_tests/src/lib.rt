//! Tests of annealing.
#![tactic(auto)]

#[cfg(test)]
mod annealing_tests;
#[cfg(test)]
mod draw_tests;
#[cfg(test)]
mod made;
#[cfg(test)]
mod schedules;
#[cfg(test)]
mod watching_tests;
