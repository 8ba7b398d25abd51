//! Cells and columns, by how many values each column has. Nothing here takes memory.
ghost use Rattle.std.specs.Prelude.{◌≡◌, length, nat_lt};
ghost use Rattle.std.specs.List.{list_all};
ghost use Rattle.olap_meaning.specs.Rolled.{value_count};
ghost use Rattle.cache_flush.specs.Formed as formed;

use olap_catalog::Catalog;
use olap_meaning::{Allowed, Cell, ColumnId, ValueId};
use segment_header::columns_rise;

/// How many values a column has, 0 where the catalog has no such column. It takes no memory.
pub fn size_of(catalog: &Catalog, column: ColumnId) -> u32
    ensures { result ≡ value_count catalog.now column }
{
    if u32::from(column.0) < catalog.column_count() {
        catalog.value_count(column)
    } else {
        0
    }
}

/// How many values a column with this many values allows. It takes no memory.
pub fn allowed_count(size: u32, allowed: &Allowed) -> usize
    ensures { result ≡ length (formed.values_of size allowed.now) }
{
    match allowed {
        Allowed::Any => size as usize,
        Allowed::Set(values) => values.len(),
    }
}

// Each of a cell's values is one of its column's.
fn are_values(catalog: &Catalog, at: &[(ColumnId, ValueId)]) -> bool
    ensures { result ≡ list_all (λ pair. nat_lt pair.1 (value_count catalog.now pair.0)) at.now }
{
    at.iter().all(|pair| pair.1.0 < size_of(catalog, pair.0))
}

/// Whether a cell's columns rise, and each of its values is one of its column's. It takes no memory.
pub fn is_formed(catalog: &Catalog, cell: &Cell) -> bool
    ensures { result ≡ formed.is_formed (value_count catalog.now) cell.now }
{
    columns_rise(cell.at.as_slice()) && are_values(catalog, cell.at.as_slice())
}
