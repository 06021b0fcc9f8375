//! The outside of a program: the files that it reads and puts, and the bytes that it gives.
#![tactic(auto)]

mod failed;
mod files;
mod kind;
mod memory;
mod memory_sink;
mod output;
mod pieces;
mod read;
mod schedule;
mod shelf;
mod sink;
mod stored;

pub use failed::{Failed, OutFail};
pub use files::FileShelf;
pub use kind::Kind;
pub use memory::MemoryShelf;
pub use memory_sink::MemorySink;
pub use output::OutSink;
pub use pieces::Pieces;
pub use read::{ReadFail, read_pieces, read_whole};
pub use shelf::Shelf;
pub use sink::Sink;
