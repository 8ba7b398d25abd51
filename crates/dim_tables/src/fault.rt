//! Why a file is no table of its dimension.
ghost use Rattle.std.specs.Prelude.{◌≡◌, ◌⊎◌};
ghost use Rattle.dim_tables.specs.declared.fault.TableFault.TheVariants.{OutOfMemory as NoMemory};

use olap_meaning::{OutOfMemory, Text};
use std::alloc::{AllocFailed, Global};
use thiserror::Error;

/// Why a file is no table of its dimension. Records are numbered from 1, and the header has the number 0.
#[derive(Debug, Drop, Error)]
pub enum TableFault {
    /// The record has another number of fields than the header, or a field that is not UTF-8.
    #[error("record {row} is no record of the header's")]
    NotCsv { row: u64 },
    /// The header has no column of this name. Of several it is the first: the primary key's, then the levels'.
    #[error("no column {name}")]
    NoColumn { name: Text },
    /// An earlier record has this record's key.
    #[error("record {row} has the key of an earlier one")]
    KeyTwice { row: u64 },
    /// The record's field of a level is empty.
    #[error("record {row} has an empty name")]
    EmptyName { row: u64 },
    /// There are more records than a dimension may have.
    #[error("more than {limit} records")]
    TooManyRows { limit: u32 },
    /// There is no record, and a hierarchy that has no all member either would have no member.
    #[error("a hierarchy has no member")]
    NoMember,
    #[error("out of memory")]
    OutOfMemory,
}

impl From<OutOfMemory> for TableFault {
    ghost from_gives = { λ _ e. e ≡ NoMemory };

    fn from(_error: OutOfMemory) -> TableFault {
        TableFault::OutOfMemory
    }
}

impl<T: Drop> From<AllocFailed<T>> for TableFault {
    ghost from_gives = { λ _ e. e ≡ NoMemory };

    fn from(_error: AllocFailed<T>) -> TableFault {
        TableFault::OutOfMemory
    }
}

impl TableFault {
    /// The fault of a header without a column of this name.
    pub(crate) fn missing_column(alloc: Global, name: &str) -> TableFault
        ensures { (result ≡ TableFault.NoColumn name.now) ⊎ (result ≡ TableFault.OutOfMemory) }
    {
        match Text::from_str(alloc, name) {
            Ok(name) => TableFault::NoColumn { name },
            Err(OutOfMemory) => TableFault::OutOfMemory,
        }
    }
}
