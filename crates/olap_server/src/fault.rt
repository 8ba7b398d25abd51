//! Why a file gives no aggregate.
ghost use Rattle.std.specs.Prelude.{◌≡◌, ◌⊎◌, IfOk};
ghost use Rattle.olap_server.specs.declared.fault.CellFault.TheVariants.{OutOfMemory as NoMemory};
ghost use Rattle.olap_server.specs.Faults.{refusal_text};

use fault_texts::{no_column_text, not_csv_text, not_number_text, too_many_rows_text};
use olap_meaning::{OutOfMemory, Text};
use std::alloc::{AllocFailed, Global};
use thiserror::Error;

/// Why a file gives no aggregate. Records are numbered from 1, and the header has the number 0.
#[derive(Debug, Drop, Error)]
pub enum CellFault {
    /// The record has another number of fields than the header, or a field that is not UTF-8.
    #[error("record {row} is no record of the header's")]
    NotCsv { row: u64 },
    /// The header has no column of this name. Of several it is the first: the query's own, then those of the pairs.
    #[error("no column {name}")]
    NoColumn { name: Text },
    /// The record's field in the query's column is neither empty nor a number.
    #[error("record {row} has no number in column {column}")]
    NotNumber { row: u64, column: Text },
    /// With this record there are `total`.
    #[error("{total} records are more than the limit of {limit}")]
    TooManyRows { total: u64, limit: u32 },
    #[error("out of memory")]
    OutOfMemory,
}

impl From<OutOfMemory> for CellFault {
    ghost from_gives = { λ _ e. e ≡ NoMemory };

    fn from(_error: OutOfMemory) -> CellFault {
        CellFault::OutOfMemory
    }
}

impl<T: Drop> From<AllocFailed<T>> for CellFault {
    ghost from_gives = { λ _ e. e ≡ NoMemory };

    fn from(_error: AllocFailed<T>) -> CellFault {
        CellFault::OutOfMemory
    }
}

impl CellFault {
    /// The fault of a header without a column of this name.
    pub(crate) fn missing_column(alloc: Global, name: &str) -> CellFault
        ensures { (result ≡ CellFault.NoColumn name.now) ⊎ (result ≡ CellFault.OutOfMemory) }
    {
        match Text::from_str(alloc, name) {
            Ok(name) => CellFault::NoColumn { name },
            Err(OutOfMemory) => CellFault::OutOfMemory,
        }
    }

    /// The fault of a record whose field in this column is neither empty nor a number.
    pub(crate) fn not_number(alloc: Global, row: u64, column: &str) -> CellFault
        ensures { (result ≡ CellFault.NotNumber row column.now)
            ⊎ (result ≡ CellFault.OutOfMemory) }
    {
        match Text::from_str(alloc, column) {
            Ok(column) => CellFault::NotNumber { row, column },
            Err(OutOfMemory) => CellFault::OutOfMemory,
        }
    }

    /// What is told of the fault, after the name of its file.
    pub(crate) fn text(&self, alloc: Global) -> Result<Text, OutOfMemory>
        ensures { IfOk result (λ t. t ≡ refusal_text self.now) }
    {
        match self {
            CellFault::NotCsv { row } => not_csv_text(alloc, *row),
            CellFault::NoColumn { name } => no_column_text(alloc, name.as_str()),
            CellFault::NotNumber { row, column } => not_number_text(alloc, *row, column.as_str()),
            CellFault::TooManyRows { total, limit } => too_many_rows_text(alloc, *total, *limit),
            CellFault::OutOfMemory => Text::from_str(alloc, "MEMORY"),
        }
    }
}
