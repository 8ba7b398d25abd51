//! Reads a schema: one JSON object with dimensions, cubes and aggregate tables (Schema Guide).
//!
//! A schema is walked from the top, the keys of each object in a fixed order and the items of each list in theirs. The
//! first fault of that walk is answered, with its place. Keys that a schema does not have are passed over; where a key
//! stands twice in one object, the last counts.
#![tactic(auto)]

mod aggregate_levels;
mod aggregate_measures;
mod aggregates;
mod cubes;
mod dimensions;
mod fault;
mod fields;
mod hierarchies;
mod place;
mod top;

pub use fault::SchemaFault;
pub use place::{SchemaKey, SchemaNode, SchemaPlace};
pub use top::read_schema;
