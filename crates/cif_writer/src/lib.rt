//! Texts in CIF, written to a file as they are made: a symbol for each kind of cell and for each height of feeds, and then channels and rows from the bottom up.
#![tactic(auto)]

mod drawings;
mod labels;
mod layout;
mod marks;
mod net_firsts;
mod printing;
mod rows;
mod text;
mod writer;

pub use drawings::{Symbols, symbol_drawings};
pub use layout::{RoutedDesign, write_layout, write_layout_watched};
pub use net_firsts::{FirstPins, first_pins};
pub use writer::{StartFault, Writer};
