//! Catalogs: a schema with the tables of its dimensions, and what its names, members and values mean.
//!
//! Contracts see a catalog as the plain catalog of the definitions: records, columns, hierarchies and cubes as lists.
#![tactic(auto)]

mod catalog;
mod cubes;
mod fault;
mod layout;
mod leaves;
mod levels;
mod lookups;
mod members;
mod parts;
mod paths;
mod shared;
mod trees;
mod values;

pub use catalog::{Catalog, build_catalog};
pub use fault::NameFault;
