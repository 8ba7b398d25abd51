//! Cells of the same columns.
ghost use Rattle.std.specs.Prelude.{◌≡◌, bytes_eq, map};
ghost use Rattle.std.specs.List.{list_all};
ghost use Rattle.segment_body.specs.AllFolds as all_folds;
ghost use Rattle.olap_meaning.specs.Covering.{columns_of};

use olap_meaning::{Cell, ColumnId, ValueId};

/// Whether the columns of some pairs are those of others, in the same order.
fn have_same_columns(at: &[(ColumnId, ValueId)], other: &[(ColumnId, ValueId)]) -> bool
    ensures { result ≡ bytes_eq (map (λ pair. pair.0) at.now) (map (λ pair. pair.0) other.now) }
{
    if at.len() != other.len() {
        return false;
    }
    let mut i = 0;
    while i < other.len() {
        if at[i].0 != other[i].0 {
            return false;
        }
        i += 1;
    }
    true
}

/// Whether cells have the columns of some pairs, in the same order.
fn have_columns(cells: &[Cell], at: &[(ColumnId, ValueId)]) -> bool
    ensures { result
        ≡ list_all (λ cell. bytes_eq (map (λ pair. pair.0) at.now) (columns_of cell)) cells.now }
{
    cells
        .iter()
        .all(|cell| have_same_columns(at, cell.at.as_slice()))
}

/// Whether cells have the same columns, in the same order. It takes no memory.
pub fn are_alike(cells: &[Cell]) -> bool
    ensures { result ≡ all_folds.are_alike cells.now }
{
    if cells.is_empty() {
        return true;
    }
    have_columns(&cells[1..], cells[0].at.as_slice())
}
