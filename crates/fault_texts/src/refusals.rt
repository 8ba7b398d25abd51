//! What a reply tells of a batch that is refused.
ghost use Rattle.std.specs.Prelude.{◌≡◌, ◌++◌, IfOk, codes};
ghost use Rattle.std.specs.Fmt.{decimal};
ghost use Rattle.olap_meaning.specs.Texts.{name_text};
ghost use Rattle.fault_texts.specs.FaultTexts.{refused_append_text, refused_batch_text};

use crate::shared::{no_column_text, not_csv_text};
use fact_rows::BatchFault;
use fact_versions::AppendFault;
use olap_meaning::{OutOfMemory, Text, name_text};
use std::alloc::Global;

/// What a reply tells of a batch whose file has a fault.
pub fn refused_batch_text(alloc: Global, fault: &BatchFault) -> Result<Text, OutOfMemory>
    ensures { IfOk result (λ t. t ≡ refused_batch_text fault.now) }
{
    match fault {
        BatchFault::NotCsv { row } => not_csv_text(alloc, *row),
        BatchFault::NoColumn { name } => no_column_text(alloc, name.as_str()),
        BatchFault::UnknownKey { row, column } => placed(alloc, "KEY", *row, column.as_str()),
        BatchFault::NotNumber { row, column } => placed(alloc, "NUMBER", *row, column.as_str()),
        BatchFault::OutOfMemory => Text::from_str(alloc, "MEMORY"),
    }
}

// A label, a record's number and a column's name.
#[tactic(auto, using(std::proofs::Common::append_assoc))]
fn placed(alloc: Global, label: &str, row: u64, column: &str) -> Result<Text, OutOfMemory>
    ensures { IfOk result (λ t. t
        ≡ label.now ++ codes " " ++ decimal row ++ codes " " ++ name_text column.now) }
{
    let column = name_text(alloc, column)?;
    Ok(Text::from_string(format!(in alloc; "{label} {row} {column}")?))
}

/// What a reply tells of a batch that does not fit after those before it.
pub fn refused_append_text(alloc: Global, fault: &AppendFault) -> Result<Text, OutOfMemory>
    ensures { IfOk result (λ t. t ≡ refused_append_text fault.now) }
{
    match fault {
        AppendFault::TooManyRows { total, limit } => rows_text(alloc, *total, *limit),
        AppendFault::TooManyVersions { limit } => versions_text(alloc, *limit),
        AppendFault::OutOfMemory => Text::from_str(alloc, "MEMORY"),
    }
}

// That there would be this many rows, where the limit are the most.
fn rows_text(alloc: Global, total: u64, limit: u32) -> Result<Text, OutOfMemory>
    ensures { IfOk result (λ t. t
        ≡ codes "ROWS " ++ (decimal total ++ (codes " " ++ decimal limit))) }
{
    Ok(Text::from_string(format!(in alloc; "ROWS {total} {limit}")?))
}

// That there would be more versions than the limit.
fn versions_text(alloc: Global, limit: u32) -> Result<Text, OutOfMemory>
    ensures { IfOk result (λ t. t ≡ codes "VERSIONS " ++ decimal limit) }
{
    Ok(Text::from_string(format!(in alloc; "VERSIONS {limit}")?))
}
