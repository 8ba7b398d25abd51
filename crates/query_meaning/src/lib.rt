//! What the contracts of the readers and writers of lines speak of: lines, tokens, queries, regions, requests and grids.
//!
//! The definitions stand in `specs/`, over plain lists and numbers. The types here are the plain data that they name.
#![tactic(auto)]

mod axes;
mod grids;
mod keyword;
mod query;
mod region_text;
mod set_shape;
mod set_text;
mod token;

pub use axes::{Axes, Axis};
pub use grids::{Grid, GridRow};
pub use keyword::Keyword;
pub use query::{AxisText, Query};
pub use region_text::{Joins, RegionShape, RegionText, RegionTree, RegionTrees};
pub use set_text::{Picks, SetShape, SetText, SetTexts};
pub use token::{Class, Token};

/// The greatest number of boxes of a region.
pub const BOX_LIMIT: u32 = 100_000;
