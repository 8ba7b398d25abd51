//! What is wrong with the table of a dimension.
ghost use Rattle.std.specs.Prelude.{◌≡◌, ◌++◌, IfOk, codes};
ghost use Rattle.std.specs.Fmt.{decimal};
ghost use Rattle.fault_texts.specs.FaultTexts.{table_line, table_text};

use crate::shared::{no_column_text, not_csv_text};
use dim_tables::TableFault;
use olap_meaning::{OutOfMemory, Text, name_text};
use std::alloc::Global;

/// The line of a fault of a table's file.
#[tactic(auto, using(std::proofs::Common::append_assoc))]
pub fn table_line(alloc: Global, file: &str, fault: &TableFault) -> Result<Text, OutOfMemory>
    ensures { IfOk result (λ t. t ≡ table_line file.now fault.now) }
{
    let file = name_text(alloc, file)?;
    let told = table_text(alloc, fault)?;
    Ok(Text::from_string(format!(in alloc; "TABLE {file} {told}\n")?))
}

// What is told of a fault of a table.
fn table_text(alloc: Global, fault: &TableFault) -> Result<Text, OutOfMemory>
    ensures { IfOk result (λ t. t ≡ table_text fault.now) }
{
    match fault {
        TableFault::NotCsv { row } => not_csv_text(alloc, *row),
        TableFault::NoColumn { name } => no_column_text(alloc, name.as_str()),
        TableFault::KeyTwice { row } => key_twice_text(alloc, *row),
        TableFault::EmptyName { row } => empty_name_text(alloc, *row),
        TableFault::TooManyRows { limit } => limit_text(alloc, *limit),
        TableFault::NoMember => Text::from_str(alloc, "NO MEMBER"),
        TableFault::OutOfMemory => Text::from_str(alloc, "MEMORY"),
    }
}

// That an earlier record has a record's key.
fn key_twice_text(alloc: Global, row: u64) -> Result<Text, OutOfMemory>
    ensures { IfOk result (λ t. t ≡ codes "KEY TWICE " ++ decimal row) }
{
    Ok(Text::from_string(format!(in alloc; "KEY TWICE {row}")?))
}

// That a record's field of a level is empty.
fn empty_name_text(alloc: Global, row: u64) -> Result<Text, OutOfMemory>
    ensures { IfOk result (λ t. t ≡ codes "EMPTY NAME " ++ decimal row) }
{
    Ok(Text::from_string(format!(in alloc; "EMPTY NAME {row}")?))
}

// That there are more records than the limit.
fn limit_text(alloc: Global, limit: u32) -> Result<Text, OutOfMemory>
    ensures { IfOk result (λ t. t ≡ codes "TOO MANY ROWS " ++ decimal limit) }
{
    Ok(Text::from_string(format!(in alloc; "TOO MANY ROWS {limit}")?))
}
