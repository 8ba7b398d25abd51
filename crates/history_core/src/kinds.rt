//! What cells have in common that differ in their values alone.
ghost use Rattle.std.specs.Prelude.{◌≡◌, ◌++◌, ◌<◌, ℕ, List, Some, IfOk, IsTrue, bytes_eq, length, map, slice_get};
ghost use Rattle.history_core.specs.CellSources.{kind_of};

use crate::numbers::Numbers;
use crate::register::{Register, digested};
use olap_meaning::{Cell, ColumnId, CubeId, List, MeasureId, OutOfMemory, ValueId};
use std::alloc::Global;

/// The cube, the measure and the columns of a cell.
#[derive(Drop)]
pub(crate) struct Kind {
    pub(crate) cube: CubeId,
    pub(crate) measure: MeasureId,
    pub(crate) columns: List<ColumnId>,
}

// Whether columns are those of some pairs, in the same order.
fn are_columns_of(columns: &[ColumnId], at: &[(ColumnId, ValueId)]) -> bool
    ensures { result ≡ bytes_eq columns.now (map (λ pair. pair.0) at.now) }
{
    if columns.len() != at.len() {
        return false;
    }
    let mut i = 0;
    while i < at.len() {
        if columns[i] != at[i].0 {
            return false;
        }
        i += 1;
    }
    true
}

// The columns of some pairs.
fn columns_of(alloc: Global, at: &[(ColumnId, ValueId)]) -> Result<List<ColumnId>, OutOfMemory>
    ensures { IfOk result (λ columns. columns ≡ map (λ pair. pair.0) at.now) }
{
    let mut columns = Vec::with_capacity(alloc, at.len())?;
    for pair in at {
        columns.push_reserved(pair.0);
    }
    Ok(List::from_vec(columns))
}

// Whether a kind is that of a cell.
fn is_kind_of(kind: &Kind, cell: &Cell) -> bool
    ensures { IsTrue result → kind.now ≡ kind_of cell.now }
{
    kind.cube == cell.cube
        && kind.measure == cell.measure
        && are_columns_of(kind.columns.as_slice(), cell.at.as_slice())
}

// A digest of a cell's kind.
fn digest_of(cell: &Cell) -> u64 {
    let at = cell.at.as_slice();
    let mut digest = digested(1 + at.len() as u64, u64::from(cell.cube.0));
    digest = digested(digest, u64::from(cell.measure.0));
    for pair in at {
        digest = digested(digest, u64::from(pair.0.0));
    }
    digest
}

/// The number of a cell's kind, which is given one where it has none. It takes memory only then. The kind of the last
/// cell is tried first, and then no digest is made.
pub(crate) fn kind_number(
    alloc: Global,
    kinds: &mut Register<Kind>,
    last: Option<Numbers>,
    cell: &Cell,
) -> Result<u32, OutOfMemory>
    ensures number { IfOk result
        (λ number. slice_get kinds.new number ≡ Some (kind_of cell.now)) }
    ensures kept { (more : List Kind) × (kinds.new ≡ kinds.old ++ more) }
{
    if let Some(last) = last
        && let Some(kind) = kinds.get(last.kind)
        && is_kind_of(kind, cell)
    {
        return Ok(last.kind);
    }
    let digest = digest_of(cell);
    if let Some(number) = kinds.find(digest, |kind| is_kind_of(kind, cell)) {
        return Ok(number);
    }
    let kind = Kind {
        cube: cell.cube,
        measure: cell.measure,
        columns: columns_of(alloc, cell.at.as_slice())?,
    };
    kinds.add(alloc, digest, kind)
}
