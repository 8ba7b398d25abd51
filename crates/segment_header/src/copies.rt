//! Copies of headers and cells.
ghost use Rattle.std.specs.Prelude.{◌≡◌, IfOk};

use olap_meaning::{Allowed, Cell, ColumnId, Header, List, OutOfMemory};
use std::alloc::Global;

fn copy_allowed(alloc: Global, allowed: &Allowed) -> Result<Allowed, OutOfMemory>
    ensures { IfOk result (λ copy. copy ≡ allowed.now) }
{
    match allowed {
        Allowed::Any => Ok(Allowed::Any),
        Allowed::Set(values) => {
            let copy = Vec::from_slice(alloc, values.as_slice())?;
            Ok(Allowed::Set(List::from_vec(copy)))
        }
    }
}

fn copy_columns(
    alloc: Global,
    columns: &[(ColumnId, Allowed)],
) -> Result<List<(ColumnId, Allowed)>, OutOfMemory>
    ensures { IfOk result (λ copy. copy ≡ columns.now) }
{
    let mut copy = List::new(alloc);
    for column in columns {
        copy.push((column.0, copy_allowed(alloc, &column.1)?))?;
    }
    Ok(copy)
}

/// A copy of a header.
pub fn copy_header(alloc: Global, header: &Header) -> Result<Header, OutOfMemory>
    ensures { IfOk result (λ copy. copy ≡ header.now) }
{
    Ok(Header {
        cube: header.cube,
        measure: header.measure,
        columns: copy_columns(alloc, header.columns.as_slice())?,
    })
}

/// A copy of a cell.
pub fn copy_cell(alloc: Global, cell: &Cell) -> Result<Cell, OutOfMemory>
    ensures { IfOk result (λ copy. copy ≡ cell.now) }
{
    let at = Vec::from_slice(alloc, cell.at.as_slice())?;
    Ok(Cell {
        cube: cell.cube,
        measure: cell.measure,
        at: List::from_vec(at),
    })
}
