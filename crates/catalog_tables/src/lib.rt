//! Tables of dimensions: their records as they are read, with keys and texts found by hash and the texts of each field
//! numbered; and which name among others a name means.
#![tactic(auto)]

mod dimension;
mod field;
mod matching;
mod names;
mod table;

pub use dimension::DimensionTable;
pub use field::FieldColumn;
pub use matching::{Likeness, match_of};
pub use table::Table;
