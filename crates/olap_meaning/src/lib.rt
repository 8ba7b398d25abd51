//! What the contracts of the other crates speak of.
//!
//! The definitions stand in `specs/`, over plain lists and numbers. The types here are the plain data that they name,
//! and the texts of values and names.
#![tactic(auto)]

mod cells;
mod ids;
pub mod laws;
mod list;
mod regions;
pub mod schema;
pub mod tables;
mod text;
mod texts;

pub use cells::{Allowed, Cell, CellSource, Header, LevelRef, Member, Who};
pub use ids::{ColumnId, CubeId, HierarchyId, LeafId, MeasureId, ValueId, Version};
pub use list::List;
pub use regions::{Region, RegionBox, RegionDim};
use std::alloc::{AllocError, AllocFailed};
pub use tables::Row;
pub use text::Text;
pub use texts::{Written, name_text, named_line, plain_text};

/// The greatest number of fact rows, over all cubes.
pub const ROW_LIMIT: u32 = 8_000_000;

/// The greatest version of a cube.
pub const VERSION_LIMIT: u32 = 100_000;

/// The greatest number of cells of a query.
pub const CELL_LIMIT: u32 = 100_000;

/// Want of memory. It is a fault of its own wherever a call takes memory.
#[derive(Clone, Copy, Debug, PartialEq, Eq)]
pub struct OutOfMemory;

impl From<AllocError> for OutOfMemory {
    fn from(_error: AllocError) -> OutOfMemory {
        OutOfMemory
    }
}

impl<T: Drop> From<AllocFailed<T>> for OutOfMemory {
    fn from(_error: AllocFailed<T>) -> OutOfMemory {
        OutOfMemory
    }
}

/// How the values of a measure are summed up over fact rows (Schema Guide, "Measures").
#[derive(Clone, Copy, Debug, PartialEq, Eq)]
pub enum Aggregator {
    Sum,
    Count,
    Min,
    Max,
    Avg,
    DistinctCount,
}

impl Aggregator {
    ghost use Rattle.std.specs.Prelude.{◌≡◌};
    ghost use Rattle.olap_meaning.specs.Texts.{aggregator_named};

    /// The aggregator of a name, as schemas and command lines spell it.
    pub fn named(name: &str) -> Option<Aggregator>
        ensures { result ≡ aggregator_named name.now }
    {
        match name {
            "sum" => Some(Aggregator::Sum),
            "count" => Some(Aggregator::Count),
            "min" => Some(Aggregator::Min),
            "max" => Some(Aggregator::Max),
            "avg" => Some(Aggregator::Avg),
            "distinct-count" => Some(Aggregator::DistinctCount),
            _ => None,
        }
    }
}

/// What a cell is worth.
#[derive(Clone, Copy, Debug, PartialEq, Eq)]
pub enum CellValue {
    /// No row, or no value that the aggregator could use.
    Empty,
    /// A whole number.
    Whole(i128),
    /// A number of hundredths, as an average has it.
    Hundredths(i128),
}
