//! What a flush shuts off: the regions that were flushed, and the loads that a cache keeps.
//!
//! Each region that was flushed stands once in one list, whatever is kept. A load knows its place in the list: how many
//! regions had been flushed at its Start. What shuts off part of it are the regions after its place. Room is made by calls of
//! their own, so that what a flush changes takes no memory.
#![tactic(auto)]

mod anchors;
mod finder;
mod formed;
mod gone;
mod kept;
mod ledger;
mod places;
mod record;
mod same;
mod shared;
mod shelf;
mod shut;
mod touch;

pub use formed::{allowed_count, is_formed, size_of};
pub use kept::Kept;
pub use shelf::{CacheShelf, Shelf};
pub use shut::Shut;
pub use touch::touches;
