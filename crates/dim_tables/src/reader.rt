//! Reading the table of a dimension.
ghost use Rattle.std.specs.Prelude.{◌≡◌, ◌⊎◌, ◌==◌, ◌&&◌, ◌<◌, ◌≤◌, ◌++◌, ◌∷◌, [], Some, None, Ok, Err, not, length, slice_get, IfOk, IfErr, IsSomeAnd, OnOk};
ghost use Rattle.olap_meaning.specs.Schema.{levels_of, IsWithinLimits};
ghost use Rattle.dim_tables.specs.TableFiles.{have_all, record_of, records_with, row_fault, table_of};

use crate::bound::BoundDimension;
use crate::fault::TableFault;
use catalog_tables::Table;
use csv_records::{Record, Rows};
use olap_meaning::schema::{LEVEL_LIMIT, RECORD_LIMIT, Schema, SchemaDimension};
use std::alloc::Global;

/// The table of a dimension of a schema (Schema Guide, "Dimensions, Hierarchies, Levels"), from the bytes of its file.
/// A fault is the file's first, from the header down.
pub fn read_table(
    alloc: Global,
    schema: &Schema,
    dimension: u32,
    bytes: &[u8],
) -> Result<Table, TableFault>
    requires known { dimension < length schema.now.dimensions }
    requires limits { IsWithinLimits schema.now }
    ensures ok { IfOk result (λ table.
        IsSomeAnd (slice_get schema.now.dimensions dimension)
        (λ d. table_of d bytes.now ≡ Ok table.records)) }
    ensures levels { IfOk result (λ table.
        IsSomeAnd (slice_get schema.now.dimensions dimension)
        (λ d. table.levels ≡ length (levels_of d))) }
    ensures err { IfErr result (λ fault.
        (fault ≡ TableFault.OutOfMemory) ⊎ IsSomeAnd (slice_get schema.now.dimensions dimension)
        (λ d. table_of d bytes.now ≡ Err fault)) }
{
    let dimension = &schema.dimensions.as_slice()[dimension as usize];
    read_dimension(alloc, dimension, bytes)
}

// The table of a dimension.
fn read_dimension(
    alloc: Global,
    dimension: &SchemaDimension,
    bytes: &[u8],
) -> Result<Table, TableFault>
    requires { length (levels_of dimension.now) ≤ LEVEL_LIMIT }
    ensures ok { IfOk result (λ table. table_of dimension.now bytes.now ≡ Ok table.records) }
    ensures levels { IfOk result (λ table. table.levels ≡ length (levels_of dimension.now)) }
    ensures err { IfErr result (λ fault.
        (fault ≡ TableFault.OutOfMemory) ⊎ (table_of dimension.now bytes.now ≡ Err fault)) }
{
    let mut rows = Rows::new(alloc, bytes);
    let mut header = Record::new(alloc);
    if !rows.next(&mut header)? {
        // An empty file has no columns.
        return Err(TableFault::missing_column(alloc, dimension.primary_key.as_str()));
    }
    let bound = BoundDimension::bind(alloc, dimension, header)?;
    let table = read_rows(alloc, &bound, &mut rows)?;
    if lacks_member(dimension, &table) {
        return Err(TableFault::NoMember);
    }
    Ok(table)
}

// The records that are left. One row is held at a time.
fn read_rows(
    alloc: Global,
    bound: &BoundDimension<'_>,
    rows: &mut Rows<'_>,
) -> Result<Table, TableFault>
    ensures ok { IfOk result (λ table.
        records_with bound.now.dimension bound.now.header [] rows.old ≡ Ok table.records) }
    ensures levels { IfOk result (λ table. table.levels ≡ length (levels_of bound.now.dimension)) }
    ensures err { IfErr result (λ fault.
        (fault ≡ TableFault.OutOfMemory)
        ⊎ (records_with bound.now.dimension bound.now.header [] rows.old ≡ Err fault)) }
{
    let mut table = Table::new(alloc, bound.width());
    let mut row = Record::new(alloc);
    while rows.next(&mut row)? {
        add_row(alloc, bound, &mut table, &row)?;
    }
    Ok(table)
}

// Adds the record of a row that has no fault.
fn add_row(
    alloc: Global,
    bound: &BoundDimension<'_>,
    table: &mut Table,
    row: &Record,
) -> Result<(), TableFault>
    requires { table.old.levels ≡ length (levels_of bound.now.dimension) }
    ensures sound { OnOk result
        (row_fault bound.now.dimension bound.now.header table.old.records row.now ≡ None) }
    ensures ok { OnOk result
        (table.new ≡ record table.old {
          records = table.old.records ++ record_of
              bound.now.dimension bound.now.header row.now ∷ [];
        }) }
    ensures err { IfErr result (λ fault.
        (fault ≡ TableFault.OutOfMemory)
        ⊎ (row_fault bound.now.dimension bound.now.header table.old.records row.now ≡ Some fault)) }
{
    let n = u64::from(table.len()) + 1;
    if !bound.is_csv(row) {
        return Err(TableFault::NotCsv { row: n });
    }
    if n > u64::from(RECORD_LIMIT) {
        return Err(TableFault::TooManyRows {
            limit: RECORD_LIMIT,
        });
    }
    let key = bound.key(row);
    if table.has_key(key) {
        return Err(TableFault::KeyTwice { row: n });
    }
    if bound.has_empty_field(row) {
        return Err(TableFault::EmptyName { row: n });
    }
    let fields = bound.fields(alloc, row)?;
    table.push(alloc, key, fields.as_slice())?;
    Ok(())
}

// Whether some hierarchy of a dimension with this table has no member.
fn lacks_member(dimension: &SchemaDimension, table: &Table) -> bool
    ensures { result ≡ (length table.now.records == 0) && not (have_all dimension.now) }
{
    table.len() == 0 && lacks_all_member(dimension)
}

// Whether some hierarchy has no all member.
fn lacks_all_member(dimension: &SchemaDimension) -> bool
    ensures { result ≡ not (have_all dimension.now) }
{
    for hierarchy in dimension.hierarchies.as_slice() {
        if !hierarchy.has_all {
            return true;
        }
    }
    false
}
