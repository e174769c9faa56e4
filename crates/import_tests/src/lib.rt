//! Tests of netlists that come in: texts of BLIF, the PARENTs that are made of them, and their texts in YAL.
#![tactic(auto)]

#[cfg(test)]
mod blif_tests;
#[cfg(test)]
mod parent_tests;
