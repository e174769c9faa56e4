//! Laws that speak of std alone, of its lists, numbers, tests and options, for the proofs of every crate. It has no function.
#![tactic(auto)]
