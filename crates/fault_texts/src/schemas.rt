//! What is wrong with a schema.
ghost use Rattle.std.specs.Prelude.{◌≡◌, IfOk};
ghost use Rattle.fault_texts.specs.FaultTexts.{placed_text, schema_line, schema_text, too_many_text};

use cube_schema::{SchemaFault, SchemaPlace};
use olap_meaning::{OutOfMemory, Text};
use std::alloc::Global;

/// The line of a schema's fault.
#[tactic(auto, using(std::proofs::Common::append_assoc))]
pub fn schema_line(alloc: Global, fault: &SchemaFault) -> Result<Text, OutOfMemory>
    ensures { IfOk result (λ t. t ≡ schema_line fault.now) }
{
    let told = schema_text(alloc, fault)?;
    Ok(Text::from_string(format!(in alloc; "SCHEMA {told}\n")?))
}

// What is told of a fault of a schema.
fn schema_text(alloc: Global, fault: &SchemaFault) -> Result<Text, OutOfMemory>
    ensures { IfOk result (λ t. t ≡ schema_text fault.now) }
{
    match fault {
        SchemaFault::NotJson => Text::from_str(alloc, "NOT JSON"),
        SchemaFault::Missing { place } => placed_text(alloc, "MISSING", place),
        SchemaFault::WrongKind { place } => placed_text(alloc, "KIND", place),
        SchemaFault::TooMany {
            place,
            count,
            limit,
        } => too_many_text(alloc, place, *count, *limit),
        SchemaFault::TwiceNamed { place } => placed_text(alloc, "TWICE", place),
        SchemaFault::UnknownAggregator { place } => placed_text(alloc, "AGGREGATOR", place),
        SchemaFault::UnknownDimension { place } => placed_text(alloc, "DIMENSION", place),
        SchemaFault::UnknownLevel { place } => placed_text(alloc, "LEVEL", place),
        SchemaFault::UnknownMeasure { place } => placed_text(alloc, "MEASURE", place),
        SchemaFault::OutOfMemory => Text::from_str(alloc, "MEMORY"),
    }
}

// A label and a place.
#[tactic(auto, using(std::proofs::Common::append_assoc))]
fn placed_text(alloc: Global, label: &str, place: &SchemaPlace) -> Result<Text, OutOfMemory>
    ensures { IfOk result (λ t. t ≡ placed_text label.now place.now) }
{
    Ok(Text::from_string(format!(in alloc; "{label} {place}")?))
}

// That the list at a place is too long.
#[tactic(auto, using(std::proofs::Common::append_assoc))]
fn too_many_text(
    alloc: Global,
    place: &SchemaPlace,
    count: usize,
    limit: u32,
) -> Result<Text, OutOfMemory>
    ensures { IfOk result (λ t. t ≡ too_many_text place.now count limit) }
{
    Ok(Text::from_string(format!(in alloc; "TOO MANY {place} {count} {limit}")?))
}
