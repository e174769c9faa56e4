//! Tests of the greedy channel router: the styles, sweeps and wirings of small channels, sweeps that begin with free tracks, the best of
//! several, channels without constraints, many made channels whose wirings are looked at point by point, and channels whose wirings
//! a program of another origin has worked out.
#![tactic(auto)]

#[cfg(test)]
mod choosers;
#[cfg(test)]
mod connected;
#[cfg(test)]
mod deft_tests;
#[cfg(test)]
mod free_tracks_tests;
#[cfg(test)]
mod known_first;
#[cfg(test)]
mod known_last;
#[cfg(test)]
mod known_tests;
#[cfg(test)]
mod left_edge_tests;
#[cfg(test)]
mod made;
#[cfg(test)]
mod made_tests;
#[cfg(test)]
mod plan_tests;
#[cfg(test)]
mod record_tests;
#[cfg(test)]
mod style_tests;
#[cfg(test)]
mod worked_tests;
