//! What is told of several kinds of files.
ghost use Rattle.std.specs.Prelude.{◌≡◌, IfOk};
ghost use Rattle.fault_texts.specs.FaultTexts.{no_column_text, not_csv_text, not_number_text, too_many_rows_text, unknown_key_text};

use olap_meaning::{OutOfMemory, Text, name_text};
use std::alloc::Global;

/// That a record is none of its header's.
pub fn not_csv_text(alloc: Global, row: u64) -> Result<Text, OutOfMemory>
    ensures { IfOk result (λ t. t ≡ not_csv_text row) }
{
    Ok(Text::from_string(format!(in alloc; "NOT CSV {row}")?))
}

/// That a header has no column of this name.
pub fn no_column_text(alloc: Global, name: &str) -> Result<Text, OutOfMemory>
    ensures { IfOk result (λ t. t ≡ no_column_text name.now) }
{
    let name = name_text(alloc, name)?;
    Ok(Text::from_string(format!(in alloc; "NO COLUMN {name}")?))
}

/// That a record's field in a column is no key.
#[tactic(auto, using(std::proofs::Common::append_assoc))]
pub(crate) fn unknown_key_text(alloc: Global, row: u64, column: &str) -> Result<Text, OutOfMemory>
    ensures { IfOk result (λ t. t ≡ unknown_key_text row column.now) }
{
    let column = name_text(alloc, column)?;
    Ok(Text::from_string(format!(in alloc; "UNKNOWN KEY {row} {column}")?))
}

/// That a record's field in a column is neither empty nor a number.
#[tactic(auto, using(std::proofs::Common::append_assoc))]
pub fn not_number_text(alloc: Global, row: u64, column: &str) -> Result<Text, OutOfMemory>
    ensures { IfOk result (λ t. t ≡ not_number_text row column.now) }
{
    let column = name_text(alloc, column)?;
    Ok(Text::from_string(format!(in alloc; "NOT NUMBER {row} {column}")?))
}

/// That there are this many rows, where the limit are the most.
pub fn too_many_rows_text(alloc: Global, total: u64, limit: u32) -> Result<Text, OutOfMemory>
    ensures { IfOk result (λ t. t ≡ too_many_rows_text total limit) }
{
    Ok(Text::from_string(format!(in alloc; "TOO MANY ROWS {total} {limit}")?))
}
