//! The columns of an aggregate table, and the headers of its cells.
ghost use Rattle.std.specs.Prelude.{◌≡◌, ◌==◌, IfOk, IsTrue, length, map, position};
ghost use Rattle.olap_meaning.specs.declared.cells.Allowed.TheVariants.{Any};
ghost use Rattle.segment_header.specs.Headers.{is_header};
ghost use Rattle.agg_tables.specs.Declarations.{columns_below};
ghost use Rattle.agg_tables.specs.Places.{order_below};
ghost use Rattle.agg_tables.specs.Tables.{table_header};

use crate::declared::{Declared, TableLevel};
use crate::find::has_column;
use olap_catalog::Catalog;
use olap_meaning::{Allowed, ColumnId, Header, List, MeasureId, OutOfMemory};
use std::alloc::Global;

/// The header of a table's cells by a measure.
pub(crate) fn header_for(
    alloc: Global,
    catalog: &Catalog,
    declared: &Declared,
    measure: MeasureId,
) -> Result<Header, OutOfMemory>
    ensures header { IfOk result (λ header. header ≡ table_header catalog.now declared.now measure) }
    ensures formed { IfOk result (λ header. IsTrue (is_header header)) }
{
    Ok(Header {
        cube: declared.cube,
        measure,
        columns: columns_of(alloc, catalog, declared.levels.as_slice())?,
    })
}

// The columns of some levels, rising.
fn columns_of(
    alloc: Global,
    catalog: &Catalog,
    levels: &[TableLevel],
) -> Result<List<(ColumnId, Allowed)>, OutOfMemory>
    ensures { IfOk result
        (λ columns. columns
        ≡ map
        (λ column. (column, Any)) (columns_below levels.now (length catalog.now.columns))) }
{
    let mut columns = List::new(alloc);
    for c in 0..catalog.column_count() {
        let column = ColumnId(c as u16);
        if has_column(levels, column) {
            columns.push((column, Allowed::Any))?;
        }
    }
    Ok(columns)
}

/// Of which level each column of a table has the values, in the order of the columns.
pub(crate) fn level_order(
    alloc: Global,
    catalog: &Catalog,
    levels: &[TableLevel],
) -> Result<Vec<usize>, OutOfMemory>
    ensures { IfOk result
        (λ order. order.items ≡ order_below levels.now (length catalog.now.columns)) }
{
    let mut order = Vec::new(alloc);
    for c in 0..catalog.column_count() {
        if let Some(place) = level_place(levels, ColumnId(c as u16)) {
            order.push(place)?;
        }
    }
    Ok(order)
}

fn level_place(levels: &[TableLevel], column: ColumnId) -> Option<usize>
    ensures { result ≡ position (λ level. level.column == column) levels.now }
{
    levels.iter().position(|level| level.column == column)
}
