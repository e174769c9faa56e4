//! The outside as the program sees it: named files behind [`Shelf`], lines of output behind
//! [`Sink`].
#![tactic(auto)]

mod buffer;
mod file_sink;
mod files;
mod host;
mod line;
mod loading;
mod mem_shelf;
mod mem_sink;
mod never;
mod plan;
mod printing;
mod traits;

pub use buffer::Buffer;
pub use file_sink::FileSink;
pub use host::{HostShelf, HostSink};
pub use line::{LineWord, append_line, put_line};
pub use loading::{LoadFault, load};
pub use mem_shelf::MemShelf;
pub use mem_sink::MemSink;
pub use never::{NeverShelf, NeverSink};
pub use printing::put_whole;
pub use traits::{Failed, Shelf, Sink};
