//! Which cells a region covers, and whether it can be flushed. Nothing here takes memory.
ghost use Rattle.std.specs.Prelude.{◌≡◌, ◌==◌, ◌||◌, not};
ghost use Rattle.std.specs.List.{list_all, list_any};
ghost use Rattle.olap_meaning.specs.Covering as covering;
ghost use Rattle.olap_meaning.specs.Legal as legal;

use crate::dims::is_measures;
use olap_meaning::{Cell, ColumnId, List, MeasureId, Region, RegionBox, RegionDim, ValueId};

/// Whether a region covers a cell: it is of the cell's cube, and one of its boxes is of the cell's measure and has the
/// cell's value in each column that both name (Cache Control).
pub fn covers(region: &Region, cell: &Cell) -> bool
    ensures { result ≡ covering.region_covers region.now cell.now }
{
    region.cube == cell.cube && some_box_covers(region.boxes.as_slice(), cell)
}

// One of some boxes covers a cell.
fn some_box_covers(boxes: &[RegionBox], cell: &Cell) -> bool
    ensures { result ≡ list_any (λ box. covering.box_covers box cell.now) boxes.now }
{
    boxes.iter().any(|one| box_covers(one, cell))
}

// A box covers a cell.
fn box_covers(region_box: &RegionBox, cell: &Cell) -> bool
    ensures { result ≡ covering.box_covers region_box.now cell.now }
{
    is_of_measure(&region_box.measures, cell.measure)
        && hold_all(region_box.columns.as_slice(), cell.at.as_slice())
}

/// Whether a box of these measures is of a measure: it is one of them, or none are named. It takes no memory.
pub fn is_of_measure(measures: &Option<List<MeasureId>>, measure: MeasureId) -> bool
    ensures { result ≡ covering.of_measure measures.now measure }
{
    match measures {
        None => true,
        Some(measures) => are_with(measures.as_slice(), measure),
    }
}

// A measure is among some.
fn are_with(measures: &[MeasureId], measure: MeasureId) -> bool
    ensures { result ≡ covering.among measures.now measure }
{
    measures.iter().any(|one| *one == measure)
}

// The columns of a box have the value of a cell in each column that both name.
fn hold_all(columns: &[(ColumnId, List<ValueId>)], at: &[(ColumnId, ValueId)]) -> bool
    ensures { result ≡ list_all
        (λ pair. list_all (λ column. not (column.0 == pair.0) || covering.among column.1 pair.1)
        columns.now) at.now }
{
    at.iter().all(|pair| hold(columns, pair.0, pair.1))
}

// The columns of a box have a value in a column, where they name it.
fn hold(columns: &[(ColumnId, List<ValueId>)], column: ColumnId, value: ValueId) -> bool
    ensures { result
        ≡ list_all (λ own. not (own.0 == column) || covering.among own.1 value) columns.now }
{
    columns
        .iter()
        .all(|own| own.0 != column || have(own.1.as_slice(), value))
}

// A value is among some.
fn have(values: &[ValueId], value: ValueId) -> bool
    ensures { result ≡ covering.among values.now value }
{
    values.iter().any(|one| *one == value)
}

/// Whether the measures are among a region's dimensions, as a flush asks (Cache Control); that its cube, columns and
/// values are a catalog's is said of what `resolve_region` answers.
pub fn is_flushable(region: &Region) -> bool
    ensures { result ≡ list_any legal.is_measures region.now.dims }
{
    are_with_measures(region.dims.as_slice())
}

// The measures are among some dimensions.
fn are_with_measures(dims: &[RegionDim]) -> bool
    ensures { result ≡ list_any legal.is_measures dims.now }
{
    dims.iter().any(|one| is_measures(*one))
}
