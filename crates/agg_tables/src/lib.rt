//! Aggregate tables: built from the fact rows of a cube, and a file checked against them (Aggregate Tables). No file is
//! believed: what a table holds was summed up from rows.
#![tactic(auto)]

mod checker;
mod checking;
mod columns;
mod cube;
mod declared;
mod fault;
mod fields;
mod file;
mod find;
mod folds;
pub mod laws;
mod loads;
mod shared;
mod table;

pub use checking::check;
pub use cube::cube_of;
pub use declared::{Declared, FileColumn, Fold, TableLevel, TableMeasure};
pub use fault::AggFault;
pub use table::{AggTable, build};
