//! The leaves of dimensions, and their values in the columns, from the numbered tables.
//!
//! The schema is passed along for what the contracts say of it: no code reads it.
ghost use Rattle.std.specs.Prelude.{◌≡◌, ◌≤◌, ◌<◌, true, Some, length};
ghost use Rattle.olap_meaning.specs.Catalog as meaning;
ghost use Rattle.olap_catalog.specs.Columns.{column_texts};
ghost use Rattle.olap_catalog.specs.Members.{is_there};
ghost use Rattle.olap_catalog.specs.Tables.{AreTables, over};

use catalog_tables::{DimensionTable, FieldColumn};
use olap_meaning::schema::{RECORD_LIMIT, Schema};
use olap_meaning::tables::Column;
use olap_meaning::{ColumnId, LeafId, List, ValueId};

/// How many leaves a dimension has: one for each record of its table, and none where the schema has no such dimension.
pub(crate) fn leaf_count(
    _schema: &Schema,
    tables: &List<DimensionTable>,
    _columns: &List<Column>,
    dimension: u32,
) -> u32
    requires { AreTables _schema.now tables.now _columns.now }
    ensures count { result
        ≡ length (meaning.records (over _schema.now tables.now _columns.now) dimension) }
    ensures limit { result ≤ RECORD_LIMIT }
{
    match tables.get(dimension as usize) {
        None => 0,
        Some(table) => table.len(),
    }
}

/// The value of a leaf in a column of its dimension.
pub(crate) fn leaf_value(
    schema: &Schema,
    tables: &List<DimensionTable>,
    columns: &List<Column>,
    column: ColumnId,
    leaf: LeafId,
) -> ValueId
    requires tables { AreTables schema.now tables.now columns.now }
    requires there { is_there (over schema.now tables.now columns.now) leaf column ≡ true }
    ensures { Some result
        ≡ meaning.leaf_value (over schema.now tables.now columns.now) column leaf }
{
    field_of(schema, tables, columns, column).value_at(leaf)
}

/// The texts of a column.
pub(crate) fn field_of<'a>(
    _schema: &Schema,
    tables: &'a List<DimensionTable>,
    columns: &List<Column>,
    column: ColumnId,
) -> &'a FieldColumn
    requires tables { AreTables _schema.now tables.now columns.now }
    requires known { column < length columns.now }
    ensures { result.now ≡ column_texts (over _schema.now tables.now columns.now) column }
{
    let at = &columns.as_slice()[column.0 as usize];
    let table = &tables.as_slice()[at.dimension as usize];
    table.column(at.field).unwrap()
}
