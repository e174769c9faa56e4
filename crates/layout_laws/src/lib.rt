//! Laws of layouts in which rows of cells stand between channels: what wired channels and rows keep together, and that it makes a good layout.
//! The crate has definitions and laws alone, and no function.
#![tactic(auto)]
