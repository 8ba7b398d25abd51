//! Loads of segments: each folds the rows of a snapshot into the body of a header, from the cheapest of the facts and the
//! aggregate tables that may be read.
#![tactic(auto)]

mod choice;
mod job;
pub mod laws;
mod shared;

pub use job::{LoadedSegment, SegmentLoad, load_segment};
