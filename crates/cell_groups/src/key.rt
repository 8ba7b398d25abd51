//! What cells of one group have in common, as plain numbers.
ghost use Rattle.std.specs.Prelude.{◌≡◌};
ghost use Rattle.cell_groups.specs.Keys as keys;

use olap_meaning::Cell;
use segment_header::cell_mask;

/// The cube, the measure and the mask of the columns of a cell. It takes no memory.
pub(crate) fn key_of(cell: &Cell) -> (u16, u16, u64)
    ensures { result ≡ keys.key_of cell.now }
{
    (cell.cube.0, cell.measure.0, cell_mask(cell))
}
