//! Why a file is no batch of its cube.
ghost use Rattle.std.specs.Prelude.{◌≡◌, ◌⊎◌};
ghost use Rattle.fact_rows.specs.declared.fault.BatchFault.TheVariants.{OutOfMemory as NoMemory};

use olap_meaning::{OutOfMemory, Text};
use std::alloc::{AllocFailed, Global};
use thiserror::Error;

/// Why a file is no batch of its cube. Records are numbered from 1, and the header has the number 0.
#[derive(Debug, Drop, Error)]
pub enum BatchFault {
    /// The record has another number of fields than the header, or a field that is not UTF-8.
    #[error("record {row} is no record of the header's")]
    NotCsv { row: u64 },
    /// The header has no column of this name. Of several it is the first: the foreign keys', then the measures'.
    #[error("no column {name}")]
    NoColumn { name: Text },
    /// The record's field in the column of a foreign key is no key of its dimension's table.
    #[error("record {row} has an unknown key in column {column}")]
    UnknownKey { row: u64, column: Text },
    /// The record's field in the column of a measure is neither empty nor a number.
    #[error("record {row} has no number in column {column}")]
    NotNumber { row: u64, column: Text },
    #[error("out of memory")]
    OutOfMemory,
}

impl From<OutOfMemory> for BatchFault {
    ghost from_gives = { λ _ e. e ≡ NoMemory };

    fn from(_error: OutOfMemory) -> BatchFault {
        BatchFault::OutOfMemory
    }
}

impl<T: Drop> From<AllocFailed<T>> for BatchFault {
    ghost from_gives = { λ _ e. e ≡ NoMemory };

    fn from(_error: AllocFailed<T>) -> BatchFault {
        BatchFault::OutOfMemory
    }
}

impl BatchFault {
    /// The fault of a header without a column of this name.
    pub(crate) fn missing_column(alloc: Global, name: &str) -> BatchFault
        ensures { (result ≡ BatchFault.NoColumn name.now) ⊎ (result ≡ BatchFault.OutOfMemory) }
    {
        match Text::from_str(alloc, name) {
            Ok(name) => BatchFault::NoColumn { name },
            Err(OutOfMemory) => BatchFault::OutOfMemory,
        }
    }

    /// The fault of a record whose field in this column is no key.
    pub(crate) fn unknown_key(row: u64, column: &Text) -> BatchFault
        ensures { (result ≡ BatchFault.UnknownKey row column.now)
            ⊎ (result ≡ BatchFault.OutOfMemory) }
    {
        match column.copy() {
            Ok(column) => BatchFault::UnknownKey { row, column },
            Err(OutOfMemory) => BatchFault::OutOfMemory,
        }
    }

    /// The fault of a record whose field in this column is neither empty nor a number.
    pub(crate) fn not_number(row: u64, column: &Text) -> BatchFault
        ensures { (result ≡ BatchFault.NotNumber row column.now)
            ⊎ (result ≡ BatchFault.OutOfMemory) }
    {
        match column.copy() {
            Ok(column) => BatchFault::NotNumber { row, column },
            Err(OutOfMemory) => BatchFault::OutOfMemory,
        }
    }
}
