//! Opens a cache from a schema's file: the schema, the tables of its dimensions, the base batches of its cubes, and the
//! files of its aggregate tables.
//!
//! The files come from a depot, one after another, and the first refusal ends the opening.
#![tactic(auto)]

mod aggregates;
mod batches;
mod catalogs;
mod cubes;
mod fault;
mod files;
mod installs;
pub mod laws;
mod opened;

pub use fault::OpenFault;
pub use opened::open_cache;
