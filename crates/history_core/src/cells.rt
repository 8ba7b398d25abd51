//! Which cells can be asked of a cache.
ghost use Rattle.std.specs.Prelude.{◌≡◌, ◌&&◌, length, nat_lt, true};
ghost use Rattle.std.specs.List.{list_all};
ghost use Rattle.olap_meaning.specs.Covering.{among};
ghost use Rattle.olap_meaning.specs.History.{is_some_and};
ghost use Rattle.olap_meaning.specs.Legal as legal;
ghost use Rattle.olap_meaning.specs.Worth.{measure_of};

use olap_catalog::Catalog;
use olap_meaning::{Cell, ColumnId, ValueId};
use segment_header::columns_rise;

fn has_measure(catalog: &Catalog, cell: &Cell) -> bool
    ensures { result ≡ is_some_and (λ measure. true) (measure_of catalog.now cell.now) }
{
    if u32::from(cell.cube.0) >= catalog.cube_count() {
        return false;
    }
    let cube = catalog.cube(cell.cube);
    cube.measures.get(usize::from(cell.measure.0)).is_some()
}

fn has_value(catalog: &Catalog, pair: &(ColumnId, ValueId)) -> bool
    ensures { result ≡ (nat_lt pair.now.0 (length catalog.now.columns)
        && legal.is_value catalog.now pair.now.0 pair.now.1) }
{
    u32::from(pair.0.0) < catalog.column_count() && pair.1.0 < catalog.value_count(pair.0)
}

fn are_values(catalog: &Catalog, at: &[(ColumnId, ValueId)]) -> bool
    ensures { result ≡ list_all
        (λ pair. nat_lt pair.0 (length catalog.now.columns)
        && legal.is_value catalog.now pair.0 pair.1)
        at.now }
{
    at.iter().all(|pair| has_value(catalog, pair))
}

fn is_among(dimensions: &[u32], dimension: u32) -> bool
    ensures { result ≡ among dimensions.now dimension }
{
    dimensions.iter().any(|d| *d == dimension)
}

fn is_column_of(catalog: &Catalog, dimensions: &[u32], column: ColumnId) -> bool
    ensures { result ≡ legal.is_column_of catalog.now dimensions.now column }
{
    if u32::from(column.0) >= catalog.column_count() {
        return false;
    }
    is_among(dimensions, catalog.column(column).dimension)
}

fn are_columns_of(catalog: &Catalog, dimensions: &[u32], at: &[(ColumnId, ValueId)]) -> bool
    ensures { result
        ≡ list_all (λ pair. legal.is_column_of catalog.now dimensions.now pair.0) at.now }
{
    at.iter()
        .all(|pair| is_column_of(catalog, dimensions, pair.0))
}

fn has_own_columns(catalog: &Catalog, cell: &Cell) -> bool
    ensures { result ≡ legal.has_own_columns catalog.now cell.now }
{
    if u32::from(cell.cube.0) >= catalog.cube_count() {
        return false;
    }
    let dimensions = catalog.cube(cell.cube).dimensions.as_slice();
    are_columns_of(catalog, dimensions, cell.at.as_slice())
}

/// Whether a cell is one that a cache over a catalog can answer: its cube and measure are the catalog's, its columns
/// rise and are those of the cube's dimensions, and its values are the columns'.
pub fn is_cell(catalog: &Catalog, cell: &Cell) -> bool
    ensures { result ≡ legal.is_cell catalog.now cell.now }
{
    let at = cell.at.as_slice();
    has_measure(catalog, cell)
        && are_values(catalog, at)
        && columns_rise(at)
        && has_own_columns(catalog, cell)
}
