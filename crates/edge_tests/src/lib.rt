//! Tests of the left-edge router: small channels whose wirings are told by hand, channels made from numbers, and long ones.
#![tactic(auto)]

#[cfg(test)]
mod long_tests;
#[cfg(test)]
mod made_tests;
#[cfg(test)]
mod small_tests;
