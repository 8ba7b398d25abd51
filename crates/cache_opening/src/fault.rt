//! Why a cache is not opened.
ghost use Rattle.std.specs.Prelude.{◌≡◌};
ghost use Rattle.cache_opening.specs.declared.fault.OpenFault.TheVariants.{OutOfMemory as NoMemory};

use agg_tables::AggFault;
use cube_schema::SchemaFault;
use dim_tables::TableFault;
use fact_rows::BatchFault;
use olap_meaning::{OutOfMemory, Text};
use thiserror::Error;

/// Why a cache is not opened: which file it was, and which fault.
#[derive(Debug, Drop, Error)]
pub enum OpenFault {
    /// No file has this name.
    #[error("no file {name}")]
    NoFile { name: Text },
    /// The schema's file has this fault.
    #[error("the schema has a fault: {fault}")]
    Schema { fault: SchemaFault },
    /// The file of a dimension's table has this fault.
    #[error("the table {file} has a fault: {fault}")]
    Table { file: Text, fault: TableFault },
    /// The file of a cube's base batch has this fault.
    #[error("the batch {file} has a fault: {fault}")]
    Batch { file: Text, fault: BatchFault },
    /// With the base batch of this file, and those before it, there would be `total` rows.
    #[error("with the batch {file} there are {total} rows, more than {limit}")]
    TooManyRows { file: Text, total: u64, limit: u32 },
    /// The file of an aggregate table has this fault.
    #[error("the aggregate table {file} has a fault: {fault}")]
    Aggregate { file: Text, fault: AggFault },
    /// A file could not be read.
    #[error("a file could not be read")]
    Source,
    #[error("out of memory")]
    OutOfMemory,
}

impl From<OutOfMemory> for OpenFault {
    ghost from_gives = { λ _ e. e ≡ NoMemory };

    fn from(_error: OutOfMemory) -> OpenFault {
        OpenFault::OutOfMemory
    }
}
