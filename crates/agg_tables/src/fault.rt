//! Why a file is not that of its aggregate table.
ghost use Rattle.std.specs.Prelude.{◌≡◌, ◌⊎◌, IfOk};
ghost use Rattle.olap_meaning.specs.Texts.{plain_text};
ghost use Rattle.agg_tables.specs.declared.fault.AggFault.TheVariants.{OutOfMemory as NoMemory};

use olap_meaning::{CellValue, OutOfMemory, Text, plain_text};
use std::alloc::{AllocFailed, Global};
use thiserror::Error;

/// Why a file is not that of its aggregate table. Records are numbered from 1, and the header has the number 0.
#[derive(Debug, Drop, Error)]
pub enum AggFault {
    /// The record has another number of fields than the header, or a field that is not UTF-8.
    #[error("record {row} is no record of the header's")]
    NotCsv {
        row: u64,
    },
    /// The header has no column of this name. Of several it is the first: the levels', the fact count, then the measures'.
    #[error("no column {name}")]
    NoColumn {
        name: Text,
    },
    /// The record's field in the column of a level is no value of that level.
    #[error("record {row} has an unknown value in column {column}")]
    UnknownValue {
        row: u64,
        column: Text,
    },
    /// An earlier record has the same values.
    #[error("record {row} has the values of an earlier one")]
    GroupTwice {
        row: u64,
    },
    /// The record's field in a column is not what the fact rows give.
    #[error("record {row} has {stored} in column {column}, where the facts give {computed}")]
    Differs {
        row: u64,
        column: Text,
        stored: Text,
        computed: Text,
    },
    /// The file has fewer records than the facts have groups.
    #[error("{stored} groups, where the facts give {computed}")]
    GroupMissing {
        stored: u64,
        computed: u64,
    },
    #[error("out of memory")]
    OutOfMemory,
}

impl From<OutOfMemory> for AggFault {
    ghost from_gives = { λ _ e. e ≡ NoMemory };

    fn from(_error: OutOfMemory) -> AggFault {
        AggFault::OutOfMemory
    }
}

impl<T: Drop> From<AllocFailed<T>> for AggFault {
    ghost from_gives = { λ _ e. e ≡ NoMemory };

    fn from(_error: AllocFailed<T>) -> AggFault {
        AggFault::OutOfMemory
    }
}

impl AggFault {
    /// The fault of a header without a column of this name.
    pub(crate) fn missing_column(name: &Text) -> AggFault
        ensures { (result ≡ AggFault.NoColumn name.now) ⊎ (result ≡ AggFault.OutOfMemory) }
    {
        match name.copy() {
            Ok(name) => AggFault::NoColumn { name },
            Err(OutOfMemory) => AggFault::OutOfMemory,
        }
    }

    /// The fault of a record whose field in this column is no value.
    pub(crate) fn unknown_value(row: u64, column: &Text) -> AggFault
        ensures { (result ≡ AggFault.UnknownValue row column.now)
            ⊎ (result ≡ AggFault.OutOfMemory) }
    {
        match column.copy() {
            Ok(column) => AggFault::UnknownValue { row, column },
            Err(OutOfMemory) => AggFault::OutOfMemory,
        }
    }
}

// The fault of a record whose field in this column differs from what was computed.
fn difference(
    alloc: Global,
    row: u64,
    column: &Text,
    stored: &str,
    computed: &CellValue,
) -> Result<AggFault, OutOfMemory>
    ensures { IfOk result
        (λ fault. fault
        ≡ AggFault.Differs row column.now stored.now (plain_text computed.now)) }
{
    Ok(AggFault::Differs {
        row,
        column: column.copy()?,
        stored: Text::from_str(alloc, stored)?,
        computed: plain_text(alloc, computed)?,
    })
}

/// The fault of a record whose field in this column differs from what was computed, or that there is no memory to tell it.
pub(crate) fn differing(
    alloc: Global,
    row: u64,
    column: &Text,
    stored: &str,
    computed: &CellValue,
) -> AggFault
    ensures { (result ≡ AggFault.Differs row column.now stored.now (plain_text computed.now))
        ⊎ (result ≡ AggFault.OutOfMemory) }
{
    match difference(alloc, row, column, stored, computed) {
        Ok(fault) => fault,
        Err(OutOfMemory) => AggFault::OutOfMemory,
    }
}
