//! Rows of facts, read for a header, or once for several measures: what a body takes of each, and what bodies that hold rows
//! are worth.
#![tactic(auto)]

mod blocks;
mod each;
pub mod laws;
mod pieces;
mod places;
mod reader;

pub use each::add_to_each;
pub use pieces::add_later;
