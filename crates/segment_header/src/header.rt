//! Which cells a header covers, and which rows of values it allows.
ghost use Rattle.std.specs.Prelude.{◌≡◌, ◌==◌, ◌&&◌, IsTrue, length};
ghost use Rattle.std.specs.List.{list_any, list_all, zip};
ghost use Rattle.olap_meaning.specs.Covering as covering;
ghost use Rattle.segment_header.specs.Headers as headers;
ghost use Rattle.segment_header.specs.Headers.{HasColumnsOf};

use crate::{allows, allows_at, are_columns, names_column};
use olap_meaning::{Allowed, Cell, ColumnId, Header, ValueId};

/// Whether a header is well formed, as the other calls ask: its columns rise, and each allows any value, or a set of
/// values that rises and is not empty.
pub fn is_header(header: &Header) -> bool
    ensures { result ≡ headers.is_header header.now }
{
    are_columns(header.columns.as_slice())
}

fn allow_all(columns: &[(ColumnId, Allowed)], at: &[(ColumnId, ValueId)]) -> bool
    requires { IsTrue (headers.are_columns columns.now) }
    ensures { result
        ≡ list_all
        (λ pair. list_any
        (λ own. (own.0 == pair.0) && covering.allows own.1 pair.1) columns.now) at.now }
{
    at.iter().all(|pair| allows_at(columns, pair.0, pair.1))
}

/// Whether a header covers a cell: it has the cell's cube, measure and columns, and allows the cell's values there. It
/// takes no memory.
pub fn covers(header: &Header, cell: &Cell) -> bool
    requires { IsTrue (headers.is_header header.now) }
    ensures { result ≡ covering.header_covers header.now cell.now }
{
    header.cube == cell.cube
        && header.measure == cell.measure
        && allow_all(header.columns.as_slice(), cell.at.as_slice())
}

/// Whether a header has no column that a cell lacks. Where it also covers the cell, the two have the same columns. It
/// takes no memory.
pub fn same_columns(header: &Header, cell: &Cell) -> bool
    requires { IsTrue (headers.is_header header.now) }
    ensures none_lacks { result
        ≡ list_all (λ column. covering.names_column cell.now column.0) header.now.columns }
    ensures same { IsTrue result → IsTrue (covering.header_covers header.now cell.now)
        → HasColumnsOf header.now cell.now }
{
    are_named(header.columns.as_slice(), cell)
}

// Whether a cell names each of these columns.
fn are_named(columns: &[(ColumnId, Allowed)], cell: &Cell) -> bool
    ensures { result ≡ list_all (λ column. covering.names_column cell.now column.0) columns.now }
{
    columns.iter().all(|column| names_column(cell, column.0))
}

fn has_column(columns: &[(ColumnId, Allowed)], column: ColumnId) -> bool
    ensures { result ≡ list_any (λ own. own.0 == column) columns.now }
{
    columns.iter().any(|own| own.0 == column)
}

/// Whether a column is a header's and not a cell's, so that a rollup from the one to the other drops it. It takes no
/// memory.
pub fn drops(header: &Header, cell: &Cell, column: ColumnId) -> bool
    ensures { result ≡ headers.drops header.now cell.now column }
{
    has_column(header.columns.as_slice(), column) && !names_column(cell, column)
}

/// Whether a header allows a row of values, one for each of its columns. It takes no memory.
pub fn is_allowed(header: &Header, values: &[ValueId]) -> bool
    requires { IsTrue (headers.is_header header.now) }
    ensures { result ≡ headers.are_allowed header.now values.now }
{
    values.len() == header.columns.len() && are_in_sets(header.columns.as_slice(), values)
}

fn are_in_sets(columns: &[(ColumnId, Allowed)], values: &[ValueId]) -> bool
    requires sets { IsTrue (headers.are_columns columns.now) }
    requires one_each { length values.now ≡ length columns.now }
    ensures { result
        ≡ list_all (λ own. covering.allows own.0.1 own.1) (zip columns.now values.now) }
{
    let mut i = 0;
    while i < columns.len() {
        let found = allows(&columns[i].1, values[i]);
        if !found {
            return false;
        }
        i += 1;
    }
    true
}
