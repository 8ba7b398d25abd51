//! The values of cells in a column.
ghost use Rattle.std.specs.Prelude.{ℕ, ◌≡◌, ◌<◌, All, IsTrue, OnOk, length, map};
ghost use Rattle.olap_meaning.specs.Covering.{among};
ghost use Rattle.olap_meaning.specs.Legal.{rise};
ghost use Rattle.cell_groups.specs.Gathered as gathered;
ghost use Rattle.cell_groups.specs.Lent.{lent};

use olap_meaning::{Cell, ColumnId, OutOfMemory, ValueId};

/// The column at a place of a cell.
pub(crate) fn column_at(cell: &Cell, place: usize) -> ColumnId
    requires { place < length cell.now.at }
    ensures { result ≡ gathered.column_at place cell.now }
{
    cell.at.as_slice()[place].0
}

// The value that a cell has at a place among its columns.
fn value_at(cell: &Cell, place: usize) -> ValueId
    requires { place < length cell.now.at }
    ensures { result ≡ gathered.value_at place cell.now }
{
    cell.at.as_slice()[place].1
}

/// Puts the values that cells have at a place among their columns in place of others, in the order of the cells.
pub(crate) fn read_values(
    values: &mut Vec<ValueId>,
    cells: &[&Cell],
    place: usize,
) -> Result<(), OutOfMemory>
    requires { All (λ cell. place < length cell.at) (lent cells.now) }
    ensures { OnOk result (values.new.items ≡ map (gathered.value_at place) (lent cells.now)) }
{
    values.clear();
    for cell in cells {
        values.push(value_at(cell, place))?;
    }
    Ok(())
}

/// Makes values rise, each once.
pub(crate) fn make_rising(values: &mut Vec<ValueId>)
    ensures rising { IsTrue (rise values.new.items) }
    ensures same { (v : ℕ) → among values.new.items v ≡ among values.old.items v }
{
    values.sort_unstable();
    values.dedup();
}
