//! Regions of cells: what makes them, which cells they cover, and what the text of a flush means in a catalog.
#![tactic(auto)]

mod bounds;
mod boxes;
mod copies;
mod cover;
mod crossjoins;
mod dims;
mod fault;
mod flushes;
pub mod laws;
mod levels;
mod limits;
mod members;
mod names;
mod ranges;
mod unions;

pub use bounds::is_bounded;
pub use copies::copy_region;
pub use cover::{covers, is_flushable, is_of_measure};
pub use crossjoins::crossjoin;
pub use fault::RegionFault;
pub use flushes::resolve_region;
pub use members::{measures, member};
pub use ranges::range;
pub use unions::union;
