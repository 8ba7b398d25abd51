//! Reads flushes, which name a cube and a region of it:
//!
//! ```text
//! flush  = name region
//! region = MEMBER "(" path ")" | RANGE "(" path "," path ")" | MEASURES
//!        | CROSSJOIN "(" region { "," region } ")" | UNION "(" region { "," region } ")"
//! path   = name { "." name }
//! ```
//!
//! Names, white and keywords are those of queries. The outermost region has depth 1, a part of a region is one deeper, and
//! none has a depth above 16.
#![tactic(auto)]

mod in_paths;
mod in_regions;
mod place;
mod reader;
mod words;

pub use query_meaning::{Joins, RegionShape, RegionText, RegionTree, RegionTrees};
pub use reader::{RegionTextFault, read_region};
