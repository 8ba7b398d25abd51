//! The columns of a header and of a cell.
ghost use Rattle.std.specs.Prelude.{◌≡◌, ◌==◌, ◌&&◌, IsTrue, map};
ghost use Rattle.std.specs.List.{list_any, list_all};
ghost use Rattle.olap_meaning.specs.Covering as covering;
ghost use Rattle.olap_meaning.specs.Legal.{rise};
ghost use Rattle.segment_header.specs.Headers as headers;

use crate::{allows, is_set};
use olap_meaning::{Allowed, Cell, ColumnId, ValueId};

/// Whether a header's columns allow a value in a column, by binary search: none is allowed in a column that is not among
/// them.
pub fn allows_at(columns: &[(ColumnId, Allowed)], column: ColumnId, value: ValueId) -> bool
    requires { IsTrue (headers.are_columns columns.now) }
    ensures { result
        ≡ list_any (λ own. (own.0 == column) && covering.allows own.1 value) columns.now }
{
    match columns.binary_search_by_key(&column, |own| own.0) {
        Ok(i) => allows(&columns[i].1, value),
        Err(_) => false,
    }
}

/// Whether a cell names a column.
pub fn names_column(cell: &Cell, column: ColumnId) -> bool
    ensures { result ≡ covering.names_column cell.now column }
{
    cell.at.as_slice().iter().any(|pair| pair.0 == column)
}

/// Whether columns rise, whatever stands beside each.
pub fn columns_rise<T>(columns: &[(ColumnId, T)]) -> bool
    ensures { result ≡ rise (map (λ column. column.0) columns.now) }
{
    for i in 1..columns.len() {
        if columns[i - 1].0 >= columns[i].0 {
            return false;
        }
    }
    true
}

fn allow_sets(columns: &[(ColumnId, Allowed)]) -> bool
    ensures { result ≡ list_all (λ column. headers.is_set column.1) columns.now }
{
    columns.iter().all(|column| is_set(&column.1))
}

/// Whether columns rise and each allows any value, or a set of values that rises and is not empty.
pub fn are_columns(columns: &[(ColumnId, Allowed)]) -> bool
    ensures { result ≡ headers.are_columns columns.now }
{
    columns_rise(columns) && allow_sets(columns)
}
