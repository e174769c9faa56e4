//! Feed cells: where a net crosses a row in which it has no through pin, a feed takes it to the other side.
#![tactic(auto)]

mod crossing;
mod fed;
mod fed_rows;
mod feeding;
mod heights;
mod net_places;
mod net_spans;
mod placement;
mod places;
mod row_feeds;
mod row_items;
mod spans;
mod totals;

pub use crossing::Crossing;
pub use fed::{FedRows, Item};
pub use feeding::insert_feeds;
pub use net_places::NetPlace;
pub use placement::{PlacedPin, Placement, place};
pub use spans::spans_of;
