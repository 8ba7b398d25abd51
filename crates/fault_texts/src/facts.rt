//! What is wrong with a file of facts.
ghost use Rattle.std.specs.Prelude.{◌≡◌, IfOk};
ghost use Rattle.fault_texts.specs.FaultTexts.{batch_line, batch_text, fact_line, rows_line};

use crate::shared::{
    no_column_text, not_csv_text, not_number_text, too_many_rows_text, unknown_key_text,
};
use fact_rows::BatchFault;
use olap_meaning::{OutOfMemory, Text, name_text};
use std::alloc::Global;

/// The line of a file of facts and what is told of it.
#[tactic(auto, using(std::proofs::Common::append_assoc))]
pub fn fact_line(alloc: Global, file: &str, told: &str) -> Result<Text, OutOfMemory>
    ensures { IfOk result (λ t. t ≡ fact_line file.now told.now) }
{
    let file = name_text(alloc, file)?;
    Ok(Text::from_string(format!(in alloc; "FACT {file} {told}\n")?))
}

/// The line of a fault of a batch's file.
pub fn batch_line(alloc: Global, file: &str, fault: &BatchFault) -> Result<Text, OutOfMemory>
    ensures { IfOk result (λ t. t ≡ batch_line file.now fault.now) }
{
    let told = batch_text(alloc, fault)?;
    fact_line(alloc, file, told.as_str())
}

// What is told of a fault of a batch.
fn batch_text(alloc: Global, fault: &BatchFault) -> Result<Text, OutOfMemory>
    ensures { IfOk result (λ t. t ≡ batch_text fault.now) }
{
    match fault {
        BatchFault::NotCsv { row } => not_csv_text(alloc, *row),
        BatchFault::NoColumn { name } => no_column_text(alloc, name.as_str()),
        BatchFault::UnknownKey { row, column } => unknown_key_text(alloc, *row, column.as_str()),
        BatchFault::NotNumber { row, column } => not_number_text(alloc, *row, column.as_str()),
        BatchFault::OutOfMemory => Text::from_str(alloc, "MEMORY"),
    }
}

/// The line of a batch's file with more rows than fit.
pub fn rows_line(alloc: Global, file: &str, total: u64, limit: u32) -> Result<Text, OutOfMemory>
    ensures { IfOk result (λ t. t ≡ rows_line file.now total limit) }
{
    let told = too_many_rows_text(alloc, total, limit)?;
    fact_line(alloc, file, told.as_str())
}
