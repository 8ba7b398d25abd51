//! A dimension's table with the texts of its fields numbered.
ghost use Rattle.std.specs.Prelude.{◌≡◌, ◌<◌, ◌≤◌, [], length, filter_map, position, slice_get, bytes_eq, option_copied, IfOk, OnOk, true};
ghost use Rattle.catalog_tables.specs.Tables.{column_of, find_key, columns_from, texts_at, have_fields, are_filled};

use crate::field::FieldColumn;
use crate::names::Names;
use crate::table::Table;
use olap_meaning::schema::RECORD_LIMIT;
use olap_meaning::tables::Record;
use olap_meaning::{LeafId, List, OutOfMemory, Text};
use std::alloc::Global;
use std::marker::Model;
use traces::Trace;

/// A dimension's table: its keys, found by hash, and one column of numbered texts for each field.
#[derive(Drop)]
pub struct DimensionTable {
    levels: u32,
    keys: Names,
    columns: List<FieldColumn>,
    of: Trace<Record>,
}

impl Model for DimensionTable {
    ghost use Rattle.catalog_tables.specs.Tables.{TableOf, AreColumns};

    ghost Value = { TableOf };

    ghost view = { λ a. record { levels = a.levels; records = a.of.items } };

    ghost invariant = { λ a. AreColumns a.levels a.keys a.columns a.of.items };
}

impl DimensionTable {
    /// The same records, numbered.
    pub fn from_table(alloc: Global, table: Table) -> Result<DimensionTable, OutOfMemory>
        ensures same { IfOk result (λ d. d ≡ table) }
        ensures even { OnOk result (have_fields table.levels table.records ≡ true) }
        ensures filled { OnOk result (are_filled table.records ≡ true) }
    {
        let parts = table.into_parts();
        let columns = numbered_fields(alloc, parts.fields.as_slice(), parts.levels)?;
        Ok(DimensionTable {
            levels: parts.levels,
            keys: parts.keys,
            columns,
            of: parts.of,
        })
    }

    /// How many records there are.
    pub fn len(&self) -> u32
        ensures count { result ≡ length self.now.records }
        ensures limit { length self.now.records ≤ RECORD_LIMIT }
    {
        self.keys.len() as u32
    }

    /// The record with exactly this key, None where there is none. It takes no memory.
    pub fn find_key(&self, key: &str) -> Option<LeafId>
        ensures { result ≡ find_key self.now.records key.now }
    {
        match self.keys.find(key) {
            None => None,
            Some(leaf) => Some(LeafId(leaf as u32)),
        }
    }

    /// The column of a field, None past the last. It takes no memory.
    pub fn column(&self, field: u32) -> Option<&FieldColumn>
        ensures { option_copied result ≡ column_of self.now.levels self.now.records field }
    {
        self.columns.get(field as usize)
    }
}

// The columns of this many fields.
fn numbered_fields(
    alloc: Global,
    rows: &[List<Text>],
    levels: u32,
) -> Result<List<FieldColumn>, OutOfMemory>
    requires { length rows.now ≤ RECORD_LIMIT }
    ensures { IfOk result (λ columns. columns ≡ columns_from rows.now 0 levels) }
{
    let mut columns = List::new(alloc);
    for field in 0..levels {
        columns.push(numbered_field(alloc, rows, field)?)?;
    }
    Ok(columns)
}

// The column of one field, of the rows that have it.
fn numbered_field(
    alloc: Global,
    rows: &[List<Text>],
    field: u32,
) -> Result<FieldColumn, OutOfMemory>
    requires { length rows.now ≤ RECORD_LIMIT }
    ensures { IfOk result (λ column. column ≡ texts_at field rows.now) }
{
    let mut column = FieldColumn::new(alloc);
    for row in rows {
        if let Some(text) = row.get(field as usize) {
            column.push(alloc, text)?;
        }
    }
    Ok(column)
}
