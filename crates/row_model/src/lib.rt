//! Rows of cells: which instance stands in which row, in which order, and where.
#![tactic(auto)]

mod cell_columns;
mod changes;
mod placed;
mod places;
mod rows;
mod stands;
mod starting;
mod widths;

pub use cell_columns::{ColumnTables, PinColumns};
pub use changes::{mirror, swap};
pub use placed::PlacedRows;
pub use places::{PinPlace, column_of, pin_place, pin_places, turned_column};
pub use rows::{Rows, Seat};
pub use starting::{default_rows, start};
pub use widths::{all_columns, cell_height, columns_of, kind_of};
