//! The small catalog: one dimension with two levels, and one cube with the sum of a fact column and the count of its
//! different numbers.
use crate::lines::Wrong;
use olap_meaning::schema::{Schema, SchemaAggregate};
use olap_meaning::tables::{Catalog, Column, Cube, Dimension, Measure, Record, Setting};
use olap_meaning::{Aggregator, List, OutOfMemory, Text};
use std::alloc::Global;

// A record by its key and its fields, parted at slashes.
fn record(alloc: Global, text: &str) -> Result<Record, OutOfMemory> {
    let (key, rest) = text.split_once('/').unwrap_or((text, ""));
    let mut fields = List::new(alloc);
    for field in rest.split('/') {
        fields.push(Text::from_str(alloc, field)?)?;
    }
    Ok(Record {
        key: Text::from_str(alloc, key)?,
        fields,
    })
}

// Records, parted at white space.
fn records(alloc: Global, text: &str) -> Result<List<Record>, OutOfMemory> {
    let mut records = List::new(alloc);
    for word in text.split_whitespace() {
        records.push(record(alloc, word)?)?;
    }
    Ok(records)
}

// The dimension of time, by its records.
fn dimensions(alloc: Global, text: &str) -> Result<List<Dimension>, OutOfMemory> {
    let mut dimensions = List::new(alloc);
    dimensions.push(Dimension {
        name: Text::from_str(alloc, "Time")?,
        records: records(alloc, text)?,
    })?;
    Ok(dimensions)
}

// The levels of time, by their names.
fn columns(alloc: Global) -> Result<List<Column>, OutOfMemory> {
    let mut columns = List::new(alloc);
    for (field, name) in [(0, "Year"), (1, "Quarter")] {
        columns.push(Column {
            name: Text::from_str(alloc, name)?,
            dimension: 0,
            field,
        })?;
    }
    Ok(columns)
}

// The measures of the units.
fn measures(alloc: Global) -> Result<List<Measure>, OutOfMemory> {
    let mut measures = List::new(alloc);
    for (name, aggregator) in [
        ("Units", Aggregator::Sum),
        ("Different", Aggregator::DistinctCount),
    ] {
        measures.push(Measure {
            name: Text::from_str(alloc, name)?,
            column: Text::from_str(alloc, "units")?,
            aggregator,
        })?;
    }
    Ok(measures)
}

// The cube of sales.
fn cubes(alloc: Global) -> Result<List<Cube>, OutOfMemory> {
    let mut cubes = List::new(alloc);
    cubes.push(Cube {
        name: Text::from_str(alloc, "Sales")?,
        dimensions: List::from_vec(Vec::from_slice(alloc, &[0])?),
        measures: measures(alloc)?,
    })?;
    Ok(cubes)
}

// One aggregate table of the cube of sales, without levels and measures.
fn aggregates(alloc: Global) -> Result<List<SchemaAggregate>, OutOfMemory> {
    let mut aggregates = List::new(alloc);
    aggregates.push(SchemaAggregate {
        name: Text::from_str(alloc, "agg_sales")?,
        cube: Text::from_str(alloc, "Sales")?,
        file: None,
        fact_count: Text::from_str(alloc, "fact_count")?,
        levels: List::new(alloc),
        measures: List::new(alloc),
    })?;
    Ok(aggregates)
}

// Of a schema the catalog has just the aggregate tables, and it has no hierarchies: the definitions of a history ask
// nothing else.
fn schema(alloc: Global) -> Result<Schema, OutOfMemory> {
    Ok(Schema {
        dimensions: List::new(alloc),
        cubes: List::new(alloc),
        aggregates: aggregates(alloc)?,
    })
}

// The small catalog over these records.
fn catalog(alloc: Global, records: &str) -> Result<Catalog, OutOfMemory> {
    let schema = schema(alloc)?;
    Ok(Catalog {
        schema,
        dimensions: dimensions(alloc, records)?,
        columns: columns(alloc)?,
        hierarchies: List::new(alloc),
        cubes: cubes(alloc)?,
    })
}

/// The small catalog over records that are parted at white space, each a key and its fields, parted at slashes; with a limit
/// of four rows, and a budget of groups.
pub(crate) fn setting(alloc: Global, records: &str, budget: u64) -> Result<Setting, Wrong> {
    Ok(Setting {
        catalog: catalog(alloc, records)?,
        row_limit: 4,
        budget,
    })
}
