//! The cells of a segment: the rows of a load, summed up by their values on the header's columns.
//!
//! A group is found by a hint where one tells of it, and else by the hash of its values. Tallies of groups are merged, which takes no memory and no row.
#![tactic(auto)]

mod alike;
mod body;
mod folds;
mod group;
mod hints;
mod key;
mod narrow;
mod search;
mod tables;
mod tallies;

pub use alike::are_alike;
pub use body::Body;
pub use tallies::CellTallies;
