//! Cells that may share a load, and the headers of their loads.
//!
//! Cells that may share a load have one cube, one measure and the same columns. A catalog has at most 64 columns, so a number
//! with a bit for each column says which columns a cell has: the group of a cell is found by the hash of three numbers.
#![tactic(auto)]

mod groups;
mod header;
mod key;
mod values;

pub use groups::{Group, group_cells};
pub use header::header_for;
