//! Chunks as bytes of a file.
#![tactic(auto)]

mod counts;
mod error;
mod fault;
mod laws;
mod lists;
mod reader;
mod reading;
mod writing;

pub use chunk_listing::list;
pub use counts::has_counts;
pub use error::ChunkErr;
pub use laws::{one_spelling, reads_spellings};
pub use reading::read;
pub use writing::write;
