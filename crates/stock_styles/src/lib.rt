//! The styles that the program has in stock: the name of each, how it chooses, and which sweeps it tries.
#![tactic(auto)]

mod stock;

pub use stock::Stock;
