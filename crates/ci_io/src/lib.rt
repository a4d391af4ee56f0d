//! What the program reads and writes through: shelves of files and sinks of output bytes.
#![tactic(auto)]

pub use memory::{MemShelf, MemSink};
pub use shelves::{Shelf, ShelfErr};
pub use sinks::{Sink, SinkErr};
pub use sure::{SureShelf, SureSink};
pub use system::{FileShelf, StdSink};

mod calls;
mod held;
mod histories;
mod memory;
mod replacing;
mod shelves;
mod sinks;
mod sure;
mod system;
