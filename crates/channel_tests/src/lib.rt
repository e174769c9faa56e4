//! Tests of the crates of channels: channels and their density, the plain router, the rectangles of a wiring, and the lines of CIF.
#![tactic(auto)]

#[cfg(test)]
mod channel_model_tests;
#[cfg(test)]
mod command_line_tests;
#[cfg(test)]
mod plain_router_tests;
#[cfg(test)]
mod wire_tests;
