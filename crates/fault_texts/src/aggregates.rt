//! What is wrong with the file of an aggregate table.
ghost use Rattle.std.specs.Prelude.{◌≡◌, ◌++◌, IfOk, codes};
ghost use Rattle.std.specs.Fmt.{decimal};
ghost use Rattle.fault_texts.specs.FaultTexts.{aggregate_line, aggregate_text, differs_text, number_text, unknown_value_text};

use crate::shared::{no_column_text, not_csv_text};
use agg_tables::AggFault;
use olap_meaning::{OutOfMemory, Text, name_text};
use std::alloc::Global;

/// The line of a fault of an aggregate table's file.
#[tactic(auto, using(std::proofs::Common::append_assoc))]
pub fn aggregate_line(alloc: Global, file: &str, fault: &AggFault) -> Result<Text, OutOfMemory>
    ensures { IfOk result (λ t. t ≡ aggregate_line file.now fault.now) }
{
    let file = name_text(alloc, file)?;
    let told = aggregate_text(alloc, fault)?;
    Ok(Text::from_string(format!(in alloc; "AGGREGATE {file} {told}\n")?))
}

// What is told of a fault of an aggregate table.
fn aggregate_text(alloc: Global, fault: &AggFault) -> Result<Text, OutOfMemory>
    ensures { IfOk result (λ t. t ≡ aggregate_text fault.now) }
{
    match fault {
        AggFault::NotCsv { row } => not_csv_text(alloc, *row),
        AggFault::NoColumn { name } => no_column_text(alloc, name.as_str()),
        AggFault::UnknownValue { row, column } => unknown_value_text(alloc, *row, column.as_str()),
        AggFault::GroupTwice { row } => group_twice_text(alloc, *row),
        AggFault::Differs {
            row,
            column,
            stored,
            computed,
        } => differs_text(
            alloc,
            *row,
            column.as_str(),
            stored.as_str(),
            computed.as_str(),
        ),
        AggFault::GroupMissing { stored, computed } => {
            group_missing_text(alloc, *stored, *computed)
        }
        AggFault::OutOfMemory => Text::from_str(alloc, "MEMORY"),
    }
}

// That a record's field in a level's column is no value of the level.
#[tactic(auto, using(std::proofs::Common::append_assoc))]
fn unknown_value_text(alloc: Global, row: u64, column: &str) -> Result<Text, OutOfMemory>
    ensures { IfOk result (λ t. t ≡ unknown_value_text row column.now) }
{
    let column = name_text(alloc, column)?;
    Ok(Text::from_string(format!(in alloc; "UNKNOWN VALUE {row} {column}")?))
}

// That an earlier record has a record's values.
fn group_twice_text(alloc: Global, row: u64) -> Result<Text, OutOfMemory>
    ensures { IfOk result (λ t. t ≡ codes "GROUP TWICE " ++ decimal row) }
{
    Ok(Text::from_string(format!(in alloc; "GROUP TWICE {row}")?))
}

// That a record's field in a column is not what the fact rows give.
#[tactic(auto, using(std::proofs::Common::append_assoc))]
fn differs_text(
    alloc: Global,
    row: u64,
    column: &str,
    stored: &str,
    computed: &str,
) -> Result<Text, OutOfMemory>
    ensures { IfOk result (λ t. t ≡ differs_text row column.now stored.now computed.now) }
{
    let column = name_text(alloc, column)?;
    let stored = name_text(alloc, stored)?;
    let computed = name_text(alloc, computed)?;
    Ok(Text::from_string(format!(in alloc; "DIFFERS {row} {column} {stored} {computed}")?))
}

// That a file has fewer groups than the fact rows.
#[tactic(auto, using(std::proofs::Common::append_assoc))]
fn group_missing_text(alloc: Global, stored: u64, computed: u64) -> Result<Text, OutOfMemory>
    ensures { IfOk result (λ t. t
        ≡ codes "GROUP MISSING " ++ number_text stored ++ codes " " ++ number_text computed) }
{
    let stored = number_text(alloc, stored)?;
    let computed = number_text(alloc, computed)?;
    Ok(Text::from_string(format!(in alloc; "GROUP MISSING {stored} {computed}")?))
}

// A number, written as a name is.
fn number_text(alloc: Global, number: u64) -> Result<Text, OutOfMemory>
    ensures { IfOk result (λ t. t ≡ number_text number) }
{
    let digits = format!(in alloc; "{number}")?;
    name_text(alloc, digits.as_str())
}
