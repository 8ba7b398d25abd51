//! The outside as the engine sees it: where bytes come from, where they go, and where files come from.
//!
//! Each trait says what has passed between the program and its object, of every object: what it has given, taken or
//! answered, and each failure, in their order. Code that is generic over such an object can not make that up, so a
//! contract that ties an answer to it refuses a body that gives up by itself, asks for something else, or answers late.
//! What is still to come is said where the object tells it.
#![tactic(auto)]

mod depot;
mod fetches;
mod link;
mod memory;
mod sink;
mod source;
mod standard;
mod talk;

pub use depot::{Depot, DepotRefusal};
pub use fetches::{Fetch, Fetches, noted};
pub use link::{Link, Pair};
pub use memory::{Calls, MemoryDepot, MemoryLink, MemorySink, MemorySource};
pub use sink::{CutOff, Sink};
pub use source::{Failed, Source};
pub use standard::{FolderDepot, StdSink, StdSource};
pub use talk::{Note, Talk, note_cut, note_read};
